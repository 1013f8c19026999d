use super::*;
use esb_ask::{Answer, Outcome, Product, Question, Resolved, Task};
use esb_base::{List, Memory, Text};
use esb_wire::{Packet, Value};
use std::alloc::Global;
use std::test::Fail;

fn chars(alloc: Global, chars: &str) -> Result<Value, Memory> {
    Ok(Value::Str(Text::of(alloc, chars)?))
}

fn strings(alloc: Global, items: &[&'static str]) -> Result<Value, Memory> {
    let mut values = List::new(alloc);
    for item in items {
        values.push(chars(alloc, item)?)?;
    }
    Ok(Value::Array(values))
}

fn entries(alloc: Global) -> Result<Value, Memory> {
    let mut values = List::new(alloc);
    values.push(strings(alloc, &["", "a.txt"])?)?;
    Ok(Value::Array(values))
}

/// The value of a field of a request that begins a build or makes a context.
fn value_of(alloc: Global, field: &str, context: bool) -> Result<Value, Memory> {
    match field {
        "command" => chars(alloc, "build"),
        "key" => Ok(Value::Number(7)),
        "context" => Ok(Value::Bool(context)),
        "entries" => entries(alloc),
        "flags" => strings(alloc, &["--outdir=out", "--loader:.txt=copy"]),
        "absWorkingDir" => chars(alloc, "/w"),
        "plugins" => strings(alloc, &[]),
        _ => Ok(Value::Bool(false)),
    }
}

const FIELDS: [&str; 8] = [
    "command",
    "key",
    "entries",
    "flags",
    "absWorkingDir",
    "write",
    "context",
    "plugins",
];

fn request(alloc: Global, id: u32, context: bool) -> Result<Packet, Memory> {
    let mut pairs = List::new(alloc);
    for field in FIELDS {
        pairs.push((Text::of(alloc, field)?, value_of(alloc, field, context)?))?;
    }
    Ok(Packet {
        id,
        request: true,
        value: Value::Map(pairs),
    })
}

/// Makes the step of an event, if it may come.
fn makes(machine: &mut Machine, event: Event) -> Result<Option<Told>, Memory> {
    if !machine.allowed(&event) {
        return Ok(None);
    }
    Ok(Some(machine.step(event)?))
}

/// Makes the step of a packet that stays with the caller.
fn arrives(machine: &mut Machine, event: &Event) -> Result<bool, Memory> {
    if !machine.allowed(event) {
        return Ok(false);
    }
    if let Event::Arrive(packet) = event {
        machine.arrive(packet)?;
    }
    Ok(true)
}

/// Whether the first worker gets the first entry, or else the link, and claims it.
fn claims(machine: &mut Machine, link: bool) -> Result<bool, Memory> {
    let role = Role::Worker(1);
    let Claimed::Job(job) = machine.job(role)? else {
        return Ok(false);
    };
    let job = job.share()?;
    let expected = if link { is_link(&job) } else { is_entry(&job) };
    if !expected {
        return Ok(false);
    }
    Ok(makes(machine, Event::Claim { role, job })?.is_some())
}

fn is_entry(job: &Job) -> bool {
    matches!(
        job,
        Job::Scan {
            build: 0,
            task: Task::Entry(0),
        }
    )
}

fn is_link(job: &Job) -> bool {
    matches!(job, Job::Link { build: 0 })
}

fn delivered() -> Event {
    Event::Deliver {
        worker: 1,
        build: 0,
        task: Task::Entry(0),
        product: Product::Entry(Resolved::Left),
    }
}

fn settled() -> Event {
    Event::Settle {
        worker: 1,
        build: 0,
        outcome: Outcome::Memory,
    }
}

/// What is seen of the first build, if it has begun.
fn seen(alloc: Global, machine: &Machine) -> Result<Option<View>, Memory> {
    let record = Event::Record {
        worker: 1,
        build: 0,
        question: Question::Kind(Text::of(alloc, "/w/a.txt")?),
        answer: Answer::File,
    };
    if !machine.allowed(&record) {
        return Ok(None);
    }
    Ok(Some(machine.view(0)?))
}

/// Whether the request with id 6 is answered by the result of the first build.
fn is_answer(told: Option<Told>) -> Result<bool, Memory> {
    let Some(Told::Owed(Out::Reply { id, body })) = told else {
        return Ok(false);
    };
    Ok(id == 6 && matches!(body.share()?, Body::Result { build: 0 }))
}

/// Whether a request begins a build, whose entry and link go to a worker.
fn builds(alloc: Global, machine: &mut Machine) -> Result<bool, Memory> {
    let begun = arrives(machine, &Event::Arrive(request(alloc, 6, false)?))?;
    let claimed = claims(machine, false)?;
    let left = makes(machine, delivered())?.is_some();
    let linked = claims(machine, true)?;
    Ok(begun && claimed && left && linked && !machine.owes())
}

/// Whether a settled build is told to its request.
fn answers(alloc: Global, machine: &mut Machine) -> Result<bool, Memory> {
    let settled = makes(machine, settled())?.is_some();
    let view = seen(alloc, machine)?;
    let Some(
        View {
            key: 7,
            options: _,
            outcome: Some(Outcome::Memory),
            failed: None,
        },
    ) = view
    else {
        return Ok(false);
    };
    let owed = machine.owes();
    Ok(settled && owed && is_answer(makes(machine, Event::Pop)?)? && !machine.owes())
}

/// Whether the session closes where the input has ended.
fn closes(machine: &mut Machine) -> Result<bool, Memory> {
    let open = !machine.closing();
    let ended = makes(machine, Event::EndOfInput)?.is_some();
    let over = matches!(machine.job(Role::Worker(1))?, Claimed::Closing);
    Ok(open && ended && over && machine.closing())
}

#[test]
fn a_build_is_answered(rt: HostRuntime) -> Result<(), Fail> {
    let mut machine = Machine::new(rt.alloc(), true, 0)?;
    assert!(rt; builds(rt.alloc(), &mut machine)?);
    assert!(rt; answers(rt.alloc(), &mut machine)?);
    assert!(rt; closes(&mut machine)?);
    Ok(())
}

/// A request of a command that names a context alone.
fn named(alloc: Global, id: u32, command: &str) -> Result<Event, Memory> {
    let mut pairs = List::new(alloc);
    pairs.push((Text::of(alloc, "command")?, chars(alloc, command)?))?;
    pairs.push((Text::of(alloc, "key")?, Value::Number(7)))?;
    Ok(Event::Arrive(Packet {
        id,
        request: true,
        value: Value::Map(pairs),
    }))
}

/// Whether an event may come, and nothing is told of it.
fn is_done(machine: &mut Machine, event: Event) -> Result<bool, Memory> {
    Ok(matches!(makes(machine, event)?, Some(Told::Done)))
}

/// Whether the next job of the worker is the first entry of the build.
fn scans_first(machine: &Machine, number: u32) -> Result<bool, Memory> {
    match machine.job(Role::Worker(0))? {
        Claimed::Job(
            Job::Scan {
                build,
                task: Task::Entry(0),
            },
        ) => Ok(build == number),
        _ => Ok(false),
    }
}

/// Whether a context is made, and two requests wait for its build, whose entry a worker has.
fn begins(alloc: Global, machine: &mut Machine) -> Result<bool, Memory> {
    let made = is_done(machine, Event::Arrive(request(alloc, 0, true)?))?;
    let begun = is_done(machine, named(alloc, 1, "rebuild")?)?;
    let joined = is_done(machine, named(alloc, 2, "rebuild")?)?;
    let scan = Job::Scan {
        build: 0,
        task: Task::Entry(0),
    };
    let claim = Event::Claim {
        role: Role::Worker(0),
        job: scan,
    };
    Ok(made && begun && joined && is_done(machine, claim)?)
}

/// Whether a cancel settles the build, and an answer that comes later isn't kept.
fn cancels(alloc: Global, machine: &mut Machine) -> Result<bool, Memory> {
    let done = is_done(machine, named(alloc, 3, "cancel")?)?;
    let answer = Event::Record {
        worker: 0,
        build: 0,
        question: Question::Kind(Text::of(alloc, "/w/a.txt")?),
        answer: Answer::File,
    };
    if !machine.allowed(&answer) {
        return Ok(false);
    }
    let stale = matches!(machine.step(answer)?, Told::Stale);
    Ok(done && stale)
}

/// Whether the first build is canceled, and has no answer to the question.
fn is_canceled(alloc: Global, machine: &Machine) -> Result<bool, Memory> {
    let question = Question::Kind(Text::of(alloc, "/w/a.txt")?);
    let answer = Event::Record {
        worker: 0,
        build: 0,
        question: Question::Kind(Text::of(alloc, "/w/a.txt")?),
        answer: Answer::File,
    };
    if !machine.allowed(&answer) {
        return Ok(false);
    }
    let canceled = matches!(machine.view(0)?.outcome, Some(Outcome::Canceled));
    Ok(canceled && machine.look(0, &question).is_none())
}

/// Whether the four requests are answered in order, and nothing more is owed.
fn is_told(machine: &mut Machine) -> Result<bool, Memory> {
    let made = pops(machine, 0, Said::Nothing)?;
    let first = pops(machine, 1, Said::First)?;
    let second = pops(machine, 2, Said::First)?;
    let canceled = pops(machine, 3, Said::Nothing)?;
    Ok(made && first && second && canceled && !machine.owes())
}

/// What a reply says, as far as the tests tell it.
#[derive(Clone, Copy, Debug, PartialEq, Eq)]
enum Said {
    Nothing,
    Error,
    /// The result of the first build.
    First,
}

fn said_by(body: &Body) -> Option<Said> {
    match body {
        Body::Empty => Some(Said::Nothing),
        Body::Error(_) => Some(Said::Error),
        Body::Result { build: 0 } => Some(Said::First),
        Body::Result { .. } => None,
        Body::Closed { .. } => None,
    }
}

/// Whether the first that is owed is this reply to this request.
fn pops(machine: &mut Machine, request: u32, wanted: Said) -> Result<bool, Memory> {
    match makes(machine, Event::Pop)? {
        Some(Told::Owed(Out::Reply { id, body })) => {
            Ok(id == request && said_by(&body) == Some(wanted))
        }
        _ => Ok(false),
    }
}

#[test]
fn a_canceled_build_is_told_in_order(rt: HostRuntime) -> Result<(), Fail> {
    let mut machine = Machine::new(rt.alloc(), true, 0)?;
    assert!(rt; begins(rt.alloc(), &mut machine)?);
    assert!(rt; cancels(rt.alloc(), &mut machine)?);
    assert!(rt; is_canceled(rt.alloc(), &machine)?);
    assert!(rt; is_told(&mut machine)?);
    assert!(rt; is_done(&mut machine, named(rt.alloc(), 4, "rebuild")?)?);
    assert!(rt; scans_first(&machine, 1)?);
    Ok(())
}

/// Whether a build with no context of its own is joined, and canceled.
fn joins_and_cancels(alloc: Global, machine: &mut Machine) -> Result<bool, Memory> {
    let begun = is_done(machine, Event::Arrive(request(alloc, 0, false)?))?;
    let used = is_done(machine, Event::Arrive(request(alloc, 1, false)?))?;
    let joined = is_done(machine, named(alloc, 2, "rebuild")?)?;
    let watched = is_done(machine, named(alloc, 3, "watch")?)?;
    Ok(begun && used && joined && watched && is_done(machine, named(alloc, 4, "cancel")?)?)
}

/// Whether both refusals come first, and then the results and the reply to the cancel.
fn is_refused_and_told(machine: &mut Machine) -> Result<bool, Memory> {
    let used = pops(machine, 1, Said::Error)?;
    let watched = pops(machine, 3, Said::Error)?;
    let begun = pops(machine, 0, Said::First)?;
    let joined = pops(machine, 2, Said::First)?;
    Ok(used && watched && begun && joined && pops(machine, 4, Said::Nothing)?)
}

#[test]
fn a_key_is_free_once_its_build_is_canceled(rt: HostRuntime) -> Result<(), Fail> {
    let mut machine = Machine::new(rt.alloc(), true, 0)?;
    assert!(rt; joins_and_cancels(rt.alloc(), &mut machine)?);
    assert!(rt; is_refused_and_told(&mut machine)?);
    assert!(rt; is_done(&mut machine, Event::Arrive(request(rt.alloc(), 5, false)?))?);
    assert!(rt; scans_first(&machine, 1)? && !machine.owes());
    Ok(())
}
