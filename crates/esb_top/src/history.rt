//! The machine of a session, with the journal of its events.
ghost use Rattle.std.specs.Prelude.{◌≡◌, ◌⊎◌, ◌+◌, ◌<◌, ◌≤◌, Bool, true, None, [], ◌∷◌, ◌++◌, length, slice_get, IfOk, OnOk, OnErr, MatchOption, IsSome};
ghost use Rattle.std.specs.List.{list_any};
ghost use Rattle.esb_ask.specs.Table.{kept};
ghost use Rattle.esb_core.specs.declared.event.Event.{Event};
ghost use Rattle.esb_core.specs.Allowed.{allowed, first_job};
ghost use Rattle.esb_core.specs.History.{is_legal, replay};
ghost use Rattle.esb_core.specs.Sizes.{is_overfull};
ghost use Rattle.esb_core.specs.State.{build_at};
ghost use Rattle.esb_core.specs.Steps.{told_kept};
ghost use Rattle.esb_sound.specs.Serial.{is_refused};

use esb_ask::{Answer, Failures, Outcome, Product, Question, Table, Task};
use esb_base::{List, Memory};
use esb_core::{Claimed, Event, Job, Journal, Machine, Out, Role, Told, View};
use esb_wire::Packet;
use std::alloc::Global;
use std::marker::Model;

/// The one worker of a session on one thread.
pub(crate) const WORKER: u32 = 0;

/// The machine and its journal. Contracts see the events, and for how many more there is room.
#[derive(Drop)]
pub(crate) struct History {
    machine: Machine,
    events: Vec<Event>,
    promised: usize,
}

impl Model for History {
    ghost use Rattle.esb_top.specs.Entries.{Entries, Agrees};

    ghost Value = { Entries };

    ghost use Rattle.esb_wire.specs.contracts.value.Value as value;
    ghost use Rattle.std.specs.Coded.{codes};

    ghost coded = { Prim.hlevel (codes, value.the_row.coded) };

    ghost use Rattle.std.specs.Prelude.{◌+◌, vec_len};
    ghost use Rattle.std.specs.Vec.{vec_capacity};

    ghost view = { λ h. record { events = h.events.items; promised = h.promised } };

    ghost invariant = { λ h. Agrees h.machine h.events.items (vec_len h.events + h.promised) (vec_capacity h.events) };
}

/// Whether a build was settled before, or by the answer that was told.
fn is_stale(told: &Told) -> bool
    ensures { (first : Answer) (large : Bool) → told.now ≡ told_kept first large → result ≡ large }
{
    matches!(told, Told::Stale)
}

impl History {
    ghost use Rattle.esb_top.specs.Entries.{Added, Kept, AddedWithin};

    /// No events, with room for the end of the input.
    pub(crate) fn new(alloc: Global) -> Result<History, Memory>
        ensures { IfOk result (λ h. h ≡ record { events = []; promised = 1 }) }
    {
        let machine = Machine::new(alloc, true, 0)?;
        let events = Vec::with_capacity(alloc, 1)?;
        Ok(History {
            machine,
            events,
            promised: 1,
        })
    }

    /// Whether a build was settled for want of memory, or the list of the files that were not put was refused memory.
    pub(crate) fn has_refusal(&self) -> bool
        ensures { result ≡ list_any is_refused self.now.events }
    {
        self.events.iter().any(|event| matches!(
            event,
            Event::Settle {
                outcome: Outcome::Memory,
                ..
            } | Event::Written {
                failures: Failures::All,
                ..
            }
        ))
    }

    /// The events are legal.
    pub(crate) fn is_legal(&self)
        ensures { is_legal self.now.events ≡ true }
    {
        let _ = &self.machine;
    }

    /// Makes room for so many more events.
    fn promise(&mut self, more: usize) -> Result<(), Memory>
        ensures ok { OnOk result (self.new ≡ record self.old { promised = self.old.promised + more }) }
        ensures err { OnErr result (self.new ≡ self.old) }
    {
        let promised = self.promised.checked_add(more).ok_or(Memory)?;
        self.events.reserve(promised)?;
        self.promised = promised;
        Ok(())
    }

    /// A packet arrives.
    pub(crate) fn arrive(&mut self, packet: Packet) -> Result<(), Memory>
        requires { allowed (replay self.old.events) (Event.Arrive packet) ≡ true }
        ensures ok { OnOk result (Added self.old self.new (Event.Arrive packet)) }
        ensures err { OnErr result (Kept self.old self.new) }
    {
        self.promise(1)?;
        self.machine.arrive(&packet)?;
        self.events.push_reserved(Event::Arrive(packet));
        self.promised -= 1;
        Ok(())
    }

    /// The input ends. It takes no memory.
    pub(crate) fn end_of_input(&mut self)
        requires first { allowed (replay self.old.events) Event.EndOfInput ≡ true }
        requires room { 0 < self.old.promised }
        ensures { self.new.events ≡ self.old.events ++ Event.EndOfInput ∷ [] }
    {
        let _told = self.machine.step(Event::EndOfInput).unwrap();
        self.events.push_reserved(Event::EndOfInput);
        self.promised -= 1;
    }

    /// The worker's first open job.
    pub(crate) fn job(&self) -> Result<Option<Job>, Memory>
        ensures { IfOk result (λ job. job ≡ first_job (replay self.now.events) (Role.Worker 0)) }
    {
        match self.machine.job(Role::Worker(WORKER))? {
            Claimed::Job(job) => Ok(Some(job)),
            Claimed::Idle => Ok(None),
            Claimed::Closing => Ok(None),
        }
    }

    /// The worker claims its first open job, with room for the event that ends the claim.
    pub(crate) fn claim(&mut self, job: &Job) -> Result<(), Memory>
        requires { allowed (replay self.old.events) (Event.Claim (Role.Worker 0) job.now) ≡ true }
        ensures ok { OnOk result (Added self.old self.new (Event.Claim (Role.Worker 0) job.now)) }
        ensures room { OnOk result (self.old.promised + 1 ≤ self.new.promised) }
        ensures err { OnErr result (Kept self.old self.new) }
    {
        self.promise(2)?;
        let (role, made) = (Role::Worker(WORKER), job.share()?);
        let entry = Event::Claim {
            role,
            job: job.share()?,
        };
        let _told = self.machine.step(Event::Claim { role, job: made }).unwrap();
        self.events.push_reserved(entry);
        self.promised -= 1;
        Ok(())
    }

    /// A build that isn't settled gets an answer of its host. It tells whether the build would be too large with it, and is
    /// settled so.
    pub(crate) fn record(
        &mut self,
        build: u32,
        question: &Question,
        answer: Answer,
    ) -> Result<bool, Memory>
        requires may { allowed (replay self.old.events) (Event.Record 0 build question.now answer) ≡ true }
        requires unsettled { (build_at (replay self.old.events).builds build).outcome ≡ None }
        ensures ok { OnOk result (Added self.old self.new (Event.Record 0 build question.now answer)) }
        ensures large { IfOk result (λ large. large ≡ is_overfull (kept (build_at (replay self.old.events).builds build).table question.now answer)) }
        ensures err { OnErr result (Kept self.old self.new) }
    {
        self.promise(1)?;
        let entry = Event::Record {
            worker: WORKER,
            build,
            question: question.share()?,
            answer: answer.share()?,
        };
        let made = Event::Record {
            worker: WORKER,
            build,
            question: question.share()?,
            answer,
        };
        let told = self.machine.step(made)?;
        self.events.push_reserved(entry);
        self.promised -= 1;
        Ok(is_stale(&told))
    }

    /// A claimed task is done, in the room that its claim made.
    pub(crate) fn deliver(
        &mut self,
        build: u32,
        task: &Task,
        product: Product,
    ) -> Result<(), Memory>
        requires may { allowed (replay self.old.events) (Event.Deliver 0 build task.now product) ≡ true }
        requires room { 0 < self.old.promised }
        ensures ok { OnOk result (AddedWithin self.old self.new (Event.Deliver 0 build task.now product)) }
        ensures err { OnErr result (self.new ≡ self.old) }
    {
        let entry = Event::Deliver {
            worker: WORKER,
            build,
            task: task.share()?,
            product: product.share()?,
        };
        let made = Event::Deliver {
            worker: WORKER,
            build,
            task: task.share()?,
            product,
        };
        let _told = self.machine.step(made)?;
        self.events.push_reserved(entry);
        self.promised -= 1;
        Ok(())
    }

    /// Ends a build, in the room that a claim made. It is never refused: where the journal can have no copy of the outcome, the
    /// build ends as refused memory.
    pub(crate) fn settle(&mut self, build: u32, outcome: Outcome)
        requires may { allowed (replay self.old.events) (Event.Settle 0 build outcome) ≡ true }
        requires may_refuse { allowed (replay self.old.events) (Event.Settle 0 build Outcome.Memory) ≡ true }
        requires room { 0 < self.old.promised }
        ensures { AddedWithin self.old self.new (Event.Settle 0 build outcome) ⊎ AddedWithin self.old self.new (Event.Settle 0 build Outcome.Memory) }
    {
        match outcome.share() {
            Ok(copy) => self.settle_as(build, outcome, copy),
            Err(Memory) => self.settle_as(build, Outcome::Memory, Outcome::Memory),
        }
    }

    fn settle_as(&mut self, build: u32, outcome: Outcome, copy: Outcome)
        requires may { allowed (replay self.old.events) (Event.Settle 0 build outcome) ≡ true }
        requires same { copy ≡ outcome }
        requires room { 0 < self.old.promised }
        ensures { AddedWithin self.old self.new (Event.Settle 0 build outcome) }
    {
        let made = Event::Settle {
            worker: WORKER,
            build,
            outcome,
        };
        let _told = self.machine.step(made).unwrap();
        self.events.push_reserved(Event::Settle {
            worker: WORKER,
            build,
            outcome: copy,
        });
        self.promised -= 1;
    }

    /// Says which files of a build were not put, in the room that a claim made. It is never refused: where the journal can have
    /// no copy of the list, it says so of each file.
    pub(crate) fn written(&mut self, build: u32, failures: Failures)
        requires may { allowed (replay self.old.events) (Event.Written 0 build failures) ≡ true }
        requires may_all { allowed (replay self.old.events) (Event.Written 0 build Failures.All) ≡ true }
        requires room { 0 < self.old.promised }
        ensures { AddedWithin self.old self.new (Event.Written 0 build failures) ⊎ AddedWithin self.old self.new (Event.Written 0 build Failures.All) }
    {
        match failures.share() {
            Ok(copy) => self.written_as(build, failures, copy),
            Err(Memory) => self.written_as(build, Failures::All, Failures::All),
        }
    }

    fn written_as(&mut self, build: u32, failures: Failures, copy: Failures)
        requires may { allowed (replay self.old.events) (Event.Written 0 build failures) ≡ true }
        requires same { copy ≡ failures }
        requires room { 0 < self.old.promised }
        ensures { AddedWithin self.old self.new (Event.Written 0 build failures) }
    {
        let made = Event::Written {
            worker: WORKER,
            build,
            failures,
        };
        let _told = self.machine.step(made).unwrap();
        self.events.push_reserved(Event::Written {
            worker: WORKER,
            build,
            failures: copy,
        });
        self.promised -= 1;
    }

    /// Takes off the first that is owed.
    pub(crate) fn pop(&mut self) -> Result<Option<Out>, Memory>
        ensures first { IfOk result (λ out. out ≡ slice_get (replay self.old.events).owed 0) }
        ensures ok { IfOk result (λ out. MatchOption out (Kept self.old self.new) (λ first. Added self.old self.new Event.Pop)) }
        ensures err { OnErr result (Kept self.old self.new) }
    {
        if !self.machine.owes() {
            return Ok(None);
        }
        self.promise(1)?;
        self.pop_first()
    }

    fn pop_first(&mut self) -> Result<Option<Out>, Memory>
        requires owed { 0 < length (replay self.old.events).owed }
        requires room { 0 < self.old.promised }
        ensures first { IfOk result (λ out. out ≡ slice_get (replay self.old.events).owed 0) }
        ensures some { IfOk result (λ out. IsSome out) }
        ensures ok { OnOk result (AddedWithin self.old self.new Event.Pop) }
        ensures err { OnErr result (self.new ≡ self.old) }
    {
        let told = self.machine.step(Event::Pop).unwrap();
        self.events.push_reserved(Event::Pop);
        self.promised -= 1;
        match told {
            Told::Owed(first) => Ok(Some(first)),
            _ => unreachable!(),
        }
    }

    /// The answers of a build.
    pub(crate) fn table(&self, build: u32) -> &Table
        requires { build < length (replay self.now.events).builds }
        ensures { result.now ≡ (build_at (replay self.now.events).builds build).table }
    {
        self.machine.table(build)
    }

    /// What can be seen of a build.
    pub(crate) fn view(&self, build: u32) -> Result<View, Memory>
        requires { build < length (replay self.now.events).builds }
        ensures options { IfOk result (λ view. view.options ≡ (build_at (replay self.now.events).builds build).options) }
        ensures outcome { IfOk result (λ view. view.outcome ≡ (build_at (replay self.now.events).builds build).outcome) }
        ensures failed { IfOk result (λ view. view.failed ≡ (build_at (replay self.now.events).builds build).failed) }
    {
        self.machine.view(build)
    }

    /// The journal.
    pub(crate) fn into_journal(self) -> Journal
        ensures { result.events ≡ self.events }
    {
        let History {
            machine: _,
            events,
            promised: _,
        } = self;
        Journal {
            events: List::from_vec(events),
        }
    }
}
