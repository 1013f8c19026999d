//! The work of the one worker on the builds.
ghost use Rattle.std.specs.Prelude.{◌≡◌, ◌⊎◌, ℕ, ◌+◌, ◌<◌, ◌≤◌, true, None, Some, [], ◌∷◌, ◌++◌, List as Listed, length, count_by, IfOk, IfSome, OnOk, OnErr};
ghost use Rattle.esb_base.specs.Faults.{Rose};
ghost use Rattle.esb_ask.specs.Table.{fits};
ghost use Rattle.esb_ask.specs.declared.outcome.Outcome.TheVariants as outcomes;
ghost use Rattle.esb_core.specs.Allowed.{first_job, may_fail};
ghost use Rattle.esb_core.specs.declared.event.Event.{Event};
ghost use Rattle.esb_core.specs.History.{is_legal, replay};
ghost use Rattle.esb_core.specs.State.{build_at};
ghost use Rattle.esb_scan.specs.Complete.{IsComplete};
ghost use Rattle.esb_sound.specs.Files.{ArePut, is_failed, listed};
ghost use Rattle.esb_sound.specs.Serial.{doing};
ghost use Rattle.esb_sound.specs.Sound.{IsGiven, IsLinked, Sound};
ghost use Rattle.esb_sound.specs.Told.{RoseBy, told};
ghost use Rattle.esb_top.specs.Entries.{Kept};
ghost use Rattle.esb_top.specs.Puts.{Puts};
ghost use Rattle.esb_top.specs.Turn.{IsFree};
ghost use Rattle.esb_top.specs.Work.{Answered, AtLink, AtWork, AtWriting, IsGoing, Linked, Worked};

use crate::history::History;
use crate::puts::put_files;
use esb_ask::{Answer, Failures, OutFile, Outcome, Product, Question, Table, Task};
use esb_base::{Host, KindAnswer, Memory, ReadAnswer, Shared};
use esb_core::{Event, Job, Role};
use esb_flags::Options;
use esb_link::{LinkFault, link};
use esb_scan::{Run, run_task};
use esb_sound::links_are_ready;
use std::alloc::Global;

/// What the host answers to a question, in a build's turn.
fn ask<H: Host>(host: &mut H, turn: u32, question: &Question) -> Result<Answer, Memory>
    ensures fitting { IfOk result (λ answer. fits question.now answer ≡ true) }
    ensures from_host { H.tells → IfOk result (λ answer. (answer ≡ told (H.world host.old) turn question.now) ⊎ (answer ≡ Answer.Fault)) }
    ensures fault { IfOk result (λ answer. answer ≡ Answer.Fault → Rose (H.faults host.old) (H.faults host.new)) }
    ensures world { H.tells → H.world host.new ≡ H.world host.old }
    ensures puts { H.tells → (path : Listed ℕ) → H.put_at host.new path ≡ H.put_at host.old path }
    ensures put_never_falls { H.put_faults host.old ≤ H.put_faults host.new }
    ensures never_falls { H.faults host.old ≤ H.faults host.new }
{
    match question {
        Question::Kind(path) => match host.kind(turn, path) {
            KindAnswer::File => Ok(Answer::File),
            KindAnswer::Folder => Ok(Answer::Folder),
            KindAnswer::Missing => Ok(Answer::Missing),
            KindAnswer::Fault => Ok(Answer::Fault),
            KindAnswer::Memory => Err(Memory),
        },
        Question::Read(path) => match host.read(turn, path) {
            ReadAnswer::Bytes(contents) => Ok(Answer::Bytes(contents)),
            ReadAnswer::Missing => Ok(Answer::Missing),
            ReadAnswer::TooBig => Ok(Answer::TooBig),
            ReadAnswer::Fault => Ok(Answer::Fault),
            ReadAnswer::Memory => Err(Memory),
        },
    }
}

/// Asks the host a question of a build that isn't settled, and records the answer. It tells whether the build would be too large
/// with it, and is settled so.
fn answer<H: Host>(
    history: &mut History,
    host: &mut H,
    build: u32,
    question: &Question,
) -> Result<bool, Memory>
    requires begun { build < length (replay history.old.events).builds }
    requires unsettled { (build_at (replay history.old.events).builds build).outcome ≡ None }
    ensures ok { IfOk result (λ large. Answered H.tells (H.world host.old) (H.faults host.old) (H.faults host.new) history.old history.new build question.now large) }
    ensures err { OnErr result (Kept history.old history.new) }
    ensures world { H.tells → H.world host.new ≡ H.world host.old }
    ensures puts { Puts H.tells (H.put_at host.old) (H.put_at host.new) (H.put_faults host.old) (H.put_faults host.new) history.old.events history.new.events }
    ensures never_falls { H.faults host.old ≤ H.faults host.new }
{
    let answer = ask(host, build, question)?;
    history.record(build, question, answer)
}

/// The product of a claimed task, unless the build would be too large with the answer. It asks the host what the build has no
/// answer to, one question at most.
fn product_of<H: Host>(
    alloc: Global,
    history: &mut History,
    host: &mut H,
    build: u32,
    task: &Task,
    options: &Options,
) -> Result<Option<Product>, Memory>
    requires going { IsGoing history.old.events build task.now options.now }
    ensures over { IfOk result (λ product. product ≡ None → IsFree history.new.events) }
    ensures going { IfOk result (λ product. IfSome product (λ p. IsGoing history.new.events build task.now options.now)) }
    ensures product { IfOk result (λ product. IfSome product (IsGiven options.now (build_at (replay history.new.events).builds build).table task.now)) }
    ensures err { OnErr result (IsGoing history.new.events build task.now options.now) }
    ensures worked { Worked H.tells (H.world host.old) (H.faults host.old) (H.faults host.new) history.old.events history.new.events }
    ensures room { history.old.promised ≤ history.new.promised }
    ensures world { H.tells → H.world host.new ≡ H.world host.old }
    ensures puts { Puts H.tells (H.put_at host.old) (H.put_at host.new) (H.put_faults host.old) (H.put_faults host.new) history.old.events history.new.events }
    ensures never_falls { H.faults host.old ≤ H.faults host.new }
{
    history.is_legal();
    match run_task(alloc, options, history.table(build), task) {
        Run::Done(product) => Ok(Some(product)),
        Run::Memory => Err(Memory),
        Run::Asks(question) => {
            if answer(history, host, build, &question)? {
                return Ok(None);
            }
            match run_task(alloc, options, history.table(build), task) {
                Run::Done(product) => Ok(Some(product)),
                Run::Asks(_) | Run::Memory => Err(Memory),
            }
        }
    }
}

/// Does a claimed task, and delivers its product, unless the build ends before.
fn try_scan<H: Host>(
    alloc: Global,
    history: &mut History,
    host: &mut H,
    build: u32,
    task: &Task,
) -> Result<(), Memory>
    requires at { AtWork (replay history.old.events) build task.now }
    requires in_hand { doing history.old.events ≡ Some (Job.Scan build task.now) }
    requires room { 0 < history.old.promised }
    ensures free { OnOk result (IsFree history.new.events) }
    ensures in_hand { OnErr result (doing history.new.events ≡ Some (Job.Scan build task.now)) }
    ensures at { OnErr result (AtWork (replay history.new.events) build task.now) }
    ensures worked { Worked H.tells (H.world host.old) (H.faults host.old) (H.faults host.new) history.old.events history.new.events }
    ensures room { OnErr result (history.old.promised ≤ history.new.promised) }
    ensures room_after { OnOk result (history.old.promised ≤ history.new.promised + 1) }
    ensures world { H.tells → H.world host.new ≡ H.world host.old }
    ensures puts { Puts H.tells (H.put_at host.old) (H.put_at host.new) (H.put_faults host.old) (H.put_faults host.new) history.old.events history.new.events }
    ensures never_falls { H.faults host.old ≤ H.faults host.new }
{
    let options = history.view(build)?.options;
    let product = product_of(alloc, history, host, build, task, options.get())?;
    let Some(product) = product else {
        return Ok(());
    };
    history.is_legal();
    history.deliver(build, task, product)
}

/// How a build ends whose answers are complete.
fn linked(alloc: Global, options: &Options, table: &Table) -> Outcome
    requires { IsComplete options.now table.now }
    ensures { IsLinked options.now table.now result }
{
    match link(alloc, options, table) {
        Ok(files) => match Shared::new(alloc, files) {
            Ok(files) => Outcome::Files(files),
            Err(Memory) => Outcome::Memory,
        },
        Err(LinkFault::Errors(messages)) => match Shared::new(alloc, messages) {
            Ok(messages) => Outcome::Errors(messages),
            Err(Memory) => Outcome::Memory,
        },
        Err(LinkFault::Memory) => Outcome::Memory,
    }
}

/// Does a claimed task. Where memory is refused the build is settled so.
fn scan<H: Host>(alloc: Global, history: &mut History, host: &mut H, build: u32, task: &Task)
    requires at { AtWork (replay history.old.events) build task.now }
    requires in_hand { doing history.old.events ≡ Some (Job.Scan build task.now) }
    requires room { 0 < history.old.promised }
    ensures free { IsFree history.new.events }
    ensures worked { Worked H.tells (H.world host.old) (H.faults host.old) (H.faults host.new) history.old.events history.new.events }
    ensures room { history.old.promised ≤ history.new.promised + 1 }
    ensures world { H.tells → H.world host.new ≡ H.world host.old }
    ensures puts { Puts H.tells (H.put_at host.old) (H.put_at host.new) (H.put_faults host.old) (H.put_faults host.new) history.old.events history.new.events }
    ensures never_falls { H.faults host.old ≤ H.faults host.new }
{
    if try_scan(alloc, history, host, build, task).is_ok() {
        return;
    }
    give_up(history, build, task);
}

/// Settles the build of a claimed task as refused memory.
fn give_up(history: &mut History, build: u32, task: &Task)
    requires at { AtWork (replay history.old.events) build task.now }
    requires in_hand { doing history.old.events ≡ Some (Job.Scan build task.now) }
    requires room { 0 < history.old.promised }
    ensures added { history.new.events ≡ history.old.events ++ Event.Settle 0 build Outcome.Memory ∷ [] }
    ensures legal { is_legal history.old.events ≡ true }
    ensures in_hand { doing history.old.events ≡ Some (Job.Scan build task.now) }
    ensures room { history.old.promised ≤ history.new.promised + 1 }
{
    let _ = task;
    history.is_legal();
    history.settle(build, Outcome::Memory);
}

/// How a build ends whose link is claimed.
fn outcome_of(alloc: Global, history: &History, build: u32) -> Outcome
    requires begun { build < length (replay history.now.events).builds }
    requires complete { IsComplete (build_at (replay history.now.events).builds build).options (build_at (replay history.now.events).builds build).table }
    ensures { IsLinked (build_at (replay history.now.events).builds build).options (build_at (replay history.now.events).builds build).table result }
{
    match history.view(build) {
        Ok(view) => linked(alloc, view.options.get(), history.table(build)),
        Err(Memory) => Outcome::Memory,
    }
}

/// Links a build whose link is claimed. Where memory is refused the build is settled so.
fn link_build(alloc: Global, history: &mut History, build: u32)
    requires at { AtLink (replay history.old.events) build }
    requires complete { IsComplete (build_at (replay history.old.events).builds build).options (build_at (replay history.old.events).builds build).table }
    requires room { 0 < history.old.promised }
    ensures { Linked history.old history.new build }
{
    history.is_legal();
    let outcome = outcome_of(alloc, history, build);
    history.settle(build, outcome);
}

/// Puts the files of a build whose writing is claimed, and tells which failed.
fn put_outcome<H: Host>(alloc: Global, history: &History, host: &mut H, build: u32) -> Failures
    requires { AtWriting (replay history.now.events) build }
    ensures may { may_fail (build_at (replay history.now.events).builds build).outcome result ≡ true }
    ensures puts { H.tells → (files : Listed OutFile) → (build_at (replay history.now.events).builds build).outcome ≡ Some (outcomes.Files files) → ArePut files result (H.put_at host.old) (H.put_at host.new) }
    ensures counted { RoseBy (count_by is_failed (listed result)) (H.put_faults host.old) (H.put_faults host.new) }
    ensures world { H.tells → H.world host.new ≡ H.world host.old }
    ensures never_falls { H.faults host.old ≤ H.faults host.new }
{
    let Ok(view) = history.view(build) else {
        return Failures::All;
    };
    match &view.outcome {
        Some(Outcome::Files(files)) => put_files(alloc, host, files.get().as_slice()),
        _ => Failures::All,
    }
}

/// Puts the files of a build whose writing is claimed, and says so.
fn write_build<H: Host>(alloc: Global, history: &mut History, host: &mut H, build: u32)
    requires at { AtWriting (replay history.old.events) build }
    requires in_hand { doing history.old.events ≡ Some (Job.Write build) }
    requires room { 0 < history.old.promised }
    ensures free { IsFree history.new.events }
    ensures worked { Worked H.tells (H.world host.old) (H.faults host.old) (H.faults host.new) history.old.events history.new.events }
    ensures room { history.old.promised ≤ history.new.promised + 1 }
    ensures world { H.tells → H.world host.new ≡ H.world host.old }
    ensures puts { Puts H.tells (H.put_at host.old) (H.put_at host.new) (H.put_faults host.old) (H.put_faults host.new) history.old.events history.new.events }
    ensures never_falls { H.faults host.old ≤ H.faults host.new }
{
    history.is_legal();
    let failures = put_outcome(alloc, history, host, build);
    history.written(build, failures);
}

/// Does the worker's first open job. It answers `Memory` where memory was refused before the claim.
pub(crate) fn do_job<H: Host>(
    alloc: Global,
    history: &mut History,
    host: &mut H,
    job: &Job,
) -> Result<(), Memory>
    requires first { first_job (replay history.old.events) (Role.Worker 0) ≡ Some job.now }
    requires sound { Sound history.old.events }
    requires free { IsFree history.old.events }
    requires none_owed { (replay history.old.events).owed ≡ [] }
    ensures free { IsFree history.new.events }
    ensures worked { Worked H.tells (H.world host.old) (H.faults host.old) (H.faults host.new) history.old.events history.new.events }
    ensures room { history.old.promised ≤ history.new.promised }
    ensures world { H.tells → H.world host.new ≡ H.world host.old }
    ensures puts { Puts H.tells (H.put_at host.old) (H.put_at host.new) (H.put_faults host.old) (H.put_faults host.new) history.old.events history.new.events }
    ensures never_falls { H.faults host.old ≤ H.faults host.new }
{
    links_are_ready();
    history.is_legal();
    history.claim(job)?;
    match job {
        Job::Scan { build, task } => scan(alloc, history, host, *build, task),
        Job::Link { build } => link_build(alloc, history, *build),
        Job::Write { build } => write_build(alloc, history, host, *build),
    }
    Ok(())
}
