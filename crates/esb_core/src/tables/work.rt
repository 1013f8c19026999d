//! The work on builds.
ghost use Rattle.std.specs.Prelude.{◌≡◌, ◌∷◌, ◌+◌, ◌<◌, ◌≤◌, ℕ, true, false, length, None, IfOk, IsSome, OnOk, OnErr};
ghost use Rattle.esb_ask.specs.Table.{fits, kept};
ghost use Rattle.esb_core.specs.declared.event.Event.TheVariants as events;
ghost use Rattle.esb_core.specs.Kept.{loads, state_of, IsKept};
ghost use Rattle.esb_core.specs.Moves.{close, closed, ended, keep, kept_unless, opened_unless, opens, puts, settle, settled, write};
ghost use Rattle.esb_core.specs.Order.{IsActive, MayClose};
ghost use Rattle.esb_core.specs.Sizes.{has_too_many, is_overfull, named, named_by, opened, too_large, too_large_message};
ghost use Rattle.esb_core.specs.State.{build_at};
ghost use Rattle.esb_core.specs.Steps.{after, all_moved, changed, link_claimed, moved, released, standing, task_claimed, told_deliver, told_if, told_record, told_stale, unclaimed, write_claimed};

use crate::event::Told;
use crate::tables::Tables;
use esb_ask::{Answer, Failures, Message, Outcome, Product, Question, Resolved, Task};
use esb_base::{List, Memory, Shared, Text};
use std::alloc::Global;

/// The task that a resolved entry or import names.
fn named_by(resolved: &Resolved) -> Result<Option<Task>, Memory>
    ensures { IfOk result (λ t. t ≡ named_by resolved.now) }
{
    match resolved {
        Resolved::To { name, marked: _ } => Ok(Some(Task::Load(name.share()?))),
        Resolved::External => Ok(None),
        Resolved::Left => Ok(None),
        Resolved::Refused(_) => Ok(None),
    }
}

/// The task that a product names.
fn named(product: &Product) -> Result<Option<Task>, Memory>
    ensures { IfOk result (λ t. t ≡ named product.now) }
{
    match product {
        Product::Entry(resolved) => named_by(resolved),
        Product::Load(_) => Ok(None),
    }
}

/// The one message of a build that would be too large.
fn too_large_message(alloc: Global) -> Result<Message, Memory>
    ensures { IfOk result (λ message. message ≡ too_large_message) }
{
    let text = Text::of(alloc, "Build is too large")?;
    let file = Text::of(alloc, "")?;
    Ok(Message {
        text,
        file,
        line: 0,
        column: 0,
        length: 0,
    })
}

/// How a build ends that would be too large.
fn too_large(alloc: Global) -> Result<Outcome, Memory>
    ensures { IfOk result (λ outcome. outcome ≡ too_large) }
{
    let mut messages = List::new(alloc);
    messages.push(too_large_message(alloc)?)?;
    Ok(Outcome::Errors(Shared::new(alloc, messages)?))
}

impl Tables {
    /// A worker claims the first open task of a build. It takes no memory.
    pub(crate) fn claim_task(&mut self, worker: u32, build: u32, task: Task)
        requires kept { IsKept self.old }
        requires begun { build < length self.old.builds.items }
        requires open { (build_at self.old.builds.items build).claimed < length (build_at self.old.builds.items build).tasks }
        ensures state { state_of self.new ≡ changed (state_of self.old) build (task_claimed (build_at self.old.builds.items build) worker task) }
        ensures kept { IsKept self.new }
    {
        self.builds[build as usize].claim_task(worker, task);
    }

    /// A worker claims the link of a build. It takes no memory.
    pub(crate) fn claim_link(&mut self, worker: u32, build: u32)
        requires kept { IsKept self.old }
        requires begun { build < length self.old.builds.items }
        ensures state { state_of self.new ≡ changed (state_of self.old) build (link_claimed (build_at self.old.builds.items build) worker) }
        ensures kept { IsKept self.new }
    {
        self.builds[build as usize].claim_link(worker);
    }

    /// A build gets an answer, of which the first is kept.
    fn keep(&mut self, build: u32, question: Question, answer: Answer) -> Result<Told, Memory>
        requires kept { IsKept self.old }
        requires begun { build < length self.old.builds.items }
        requires fits { fits question answer ≡ true }
        requires room { is_overfull (kept (build_at self.old.builds.items build).table question answer) ≡ false }
        ensures told { IfOk result (λ t. t ≡ told_record (build_at self.old.builds.items build).table question answer None) }
        ensures ok { OnOk result (state_of self.new ≡ moved (state_of self.old) (keep build question answer)) }
        ensures err { OnErr result (state_of self.new ≡ state_of self.old) }
        ensures kept { IsKept self.new }
    {
        self.builds[build as usize].record(question, answer)
    }

    /// A build gets an answer, unless it is settled. It is settled now if it would be too large with it.
    pub(crate) fn record(
        &mut self,
        build: u32,
        question: Question,
        answer: Answer,
    ) -> Result<Told, Memory>
        requires kept { IsKept self.old }
        requires begun { build < length self.old.builds.items }
        requires fits { fits question answer ≡ true }
        ensures told { IfOk result (λ t. t ≡ told_record (build_at self.old.builds.items build).table question answer (build_at self.old.builds.items build).outcome) }
        ensures ok { OnOk result (state_of self.new ≡ all_moved (state_of self.old) (kept_unless (standing (state_of self.old) build) build question answer (build_at self.old.builds.items build).outcome)) }
        ensures err { OnErr result (state_of self.new ≡ state_of self.old) }
        ensures kept { IsKept self.new }
    {
        if self.builds[build as usize].is_settled() {
            return Ok(Told::Stale);
        }
        if self.builds[build as usize].overfill(&question, &answer) {
            let outcome = too_large(self.alloc)?;
            self.end_active(build, outcome);
            return Ok(Told::Stale);
        }
        self.keep(build, question, answer)
    }

    /// A build gets a task that is new, if one is named.
    fn open(&mut self, build: u32, named: Option<Task>) -> Result<(), Memory>
        requires kept { IsKept self.old }
        requires begun { build < length self.old.builds.items }
        requires room { has_too_many (opened (build_at self.old.builds.items build).tasks named) ≡ false }
        ensures ok { OnOk result (state_of self.new ≡ all_moved (state_of self.old) (opens build named)) }
        ensures err { OnErr result (state_of self.new ≡ state_of self.old) }
        ensures kept { IsKept self.new }
    {
        match named {
            None => Ok(()),
            Some(task) => self.builds[build as usize].open(task),
        }
    }

    /// A worker's claim of a task ends. It takes no memory.
    fn unclaim(&mut self, worker: u32, build: u32, task: &Task)
        requires kept { IsKept self.old }
        requires begun { build < length self.old.builds.items }
        ensures state { state_of self.new ≡ changed (state_of self.old) build (unclaimed (build_at self.old.builds.items build) worker task.now) }
        ensures kept { IsKept self.new }
    {
        self.builds[build as usize].unclaim(worker, task);
    }

    /// What a product names is opened. The build is settled now if it would be too large with it.
    fn open_named(&mut self, build: u32, named: Option<Task>) -> Result<Told, Memory>
        requires kept { IsKept self.old }
        requires begun { build < length self.old.builds.items }
        requires unsettled { (build_at self.old.builds.items build).outcome ≡ None }
        ensures told { IfOk result (λ t. t ≡ told_if (has_too_many (opened (build_at self.old.builds.items build).tasks named))) }
        ensures ok { OnOk result (state_of self.new ≡ all_moved (state_of self.old) (opened_unless (standing (state_of self.old) build) build named None)) }
        ensures err { OnErr result (state_of self.new ≡ state_of self.old) }
        ensures kept { IsKept self.new }
        ensures begun { build < length self.new.builds.items }
    {
        if self.builds[build as usize].overopen(&named) {
            let outcome = too_large(self.alloc)?;
            self.end_active(build, outcome);
            return Ok(Told::Stale);
        }
        self.open(build, named)?;
        Ok(Told::Done)
    }

    /// A worker has done a task of a build. What its product names is opened, unless the build is settled.
    pub(crate) fn deliver(
        &mut self,
        worker: u32,
        build: u32,
        task: &Task,
        product: &Product,
    ) -> Result<Told, Memory>
        requires kept { IsKept self.old }
        requires begun { build < length self.old.builds.items }
        ensures told { IfOk result (λ t. t ≡ told_deliver (build_at self.old.builds.items build).tasks product.now (build_at self.old.builds.items build).outcome) }
        ensures ok { OnOk result (state_of self.new ≡ after (state_of self.old) (events.Deliver worker build task.now product.now)) }
        ensures err { OnErr result (state_of self.new ≡ state_of self.old) }
        ensures kept { IsKept self.new }
    {
        if self.builds[build as usize].is_settled() {
            self.unclaim(worker, build, task);
            return Ok(Told::Stale);
        }
        let named = named(product)?;
        let told = self.open_named(build, named)?;
        self.unclaim(worker, build, task);
        Ok(told)
    }

    /// A worker claims the writing of a build's files. It takes no memory.
    pub(crate) fn claim_write(&mut self, worker: u32, build: u32)
        requires kept { IsKept self.old }
        requires begun { build < length self.old.builds.items }
        requires settled { IsSome (build_at self.old.builds.items build).outcome }
        requires open { (build_at self.old.builds.items build).closed ≡ false }
        ensures state { state_of self.new ≡ changed (state_of self.old) build (write_claimed (build_at self.old.builds.items build) worker) }
        ensures kept { IsKept self.new }
    {
        self.builds[build as usize].claim_write(worker);
    }

    /// A build that isn't settled is settled. It takes no memory.
    fn settle_build(&mut self, build: u32, outcome: Outcome)
        requires kept { IsKept self.old }
        requires begun { build < length self.old.builds.items }
        requires unsettled { (build_at self.old.builds.items build).outcome ≡ None }
        ensures state { state_of self.new ≡ moved (state_of self.old) (settle build outcome) }
        ensures kept { IsKept self.new }
        ensures spare { (more : ℕ) → loads self.old.builds.items + more ≤ self.old.replies.promised → loads self.new.builds.items + more ≤ self.new.replies.promised }
    {
        self.builds[build as usize].end(outcome);
    }

    /// The active build of a context is closed, and the replies to the requests that wait for it become owed. It takes no memory.
    fn close(&mut self, key: u32, build: u32)
        requires kept { IsKept self.old }
        requires over { MayClose (state_of self.old) key build }
        ensures state { state_of self.new ≡ moved (state_of self.old) (close key build) }
        ensures kept { IsKept self.new }
        ensures spare { (more : ℕ) → loads self.old.builds.items + more ≤ self.old.replies.promised → loads self.new.builds.items + more ≤ self.new.replies.promised }
    {
        self.contexts.close(key);
        self.replies
            .owe_results(build, self.builds[build as usize].waiting());
        self.builds[build as usize].close();
        self.pass_over();
    }

    /// The active build of a context is closed, and the context is removed unless it stays. It takes no memory.
    fn close_build(&mut self, key: u32, stays: bool, build: u32)
        requires kept { IsKept self.old }
        requires over { MayClose (state_of self.old) key build }
        ensures state { state_of self.new ≡ all_moved (state_of self.old) (closed key stays build) }
        ensures kept { IsKept self.new }
        ensures spare { (more : ℕ) → loads self.old.builds.items + more ≤ self.old.replies.promised → loads self.new.builds.items + more ≤ self.new.replies.promised }
    {
        self.close(key, build);
        if !stays {
            self.contexts.remove(key);
        }
    }

    /// The active build of a context, which isn't settled, is settled and closed, and the context is removed unless it stays. The
    /// build puts no files. It takes no memory.
    pub(crate) fn end_build(&mut self, key: u32, stays: bool, build: u32, outcome: Outcome)
        requires kept { IsKept self.old }
        requires active { IsActive (state_of self.old) key build }
        requires unsettled { (build_at self.old.builds.items build).outcome ≡ None }
        requires plain { puts (build_at self.old.builds.items build).options.write outcome ≡ false }
        ensures state { state_of self.new ≡ all_moved (state_of self.old) (ended key stays build outcome) }
        ensures kept { IsKept self.new }
        ensures spare { (more : ℕ) → loads self.old.builds.items + more ≤ self.old.replies.promised → loads self.new.builds.items + more ≤ self.new.replies.promised }
    {
        self.settle_build(build, outcome);
        self.close_build(key, stays, build);
    }

    /// Whether the context of a build stays once the build is closed.
    fn stays_after(&self, build: u32) -> bool
        requires { build < length self.now.builds.items }
        ensures { result ≡ (standing (state_of self.now) build).stays }
    {
        let build = &self.builds[build as usize];
        build.options().get().context && !self.contexts.is_retired(build.key())
    }

    /// A build that isn't settled ends, which puts no files, and its context is removed unless it stays. It takes no memory.
    fn end_active(&mut self, build: u32, outcome: Outcome)
        requires kept { IsKept self.old }
        requires begun { build < length self.old.builds.items }
        requires unsettled { (build_at self.old.builds.items build).outcome ≡ None }
        requires plain { puts (build_at self.old.builds.items build).options.write outcome ≡ false }
        ensures state { state_of self.new ≡ all_moved (state_of self.old) (ended (standing (state_of self.old) build).key (standing (state_of self.old) build).stays build outcome) }
        ensures kept { IsKept self.new }
        ensures begun { build < length self.new.builds.items }
    {
        let key = self.builds[build as usize].key();
        let stays = self.stays_after(build);
        self.end_build(key, stays, build, outcome);
    }

    /// Whether a build that is settled so puts its files.
    fn puts_files(&self, build: u32, outcome: &Outcome) -> bool
        requires { build < length self.now.builds.items }
        ensures { result ≡ puts (build_at self.now.builds.items build).options.write outcome.now }
    {
        matches!(outcome, Outcome::Files(_)) && self.builds[build as usize].options().get().write
    }

    /// The files of a build are put, but for these, and the build is closed. It takes no memory.
    pub(crate) fn write(&mut self, build: u32, failures: Failures)
        requires kept { IsKept self.old }
        requires begun { build < length self.old.builds.items }
        requires settled { IsSome (build_at self.old.builds.items build).outcome }
        requires open { (build_at self.old.builds.items build).closed ≡ false }
        ensures state { state_of self.new ≡ all_moved (state_of self.old) (write build failures ∷ closed (standing (state_of self.old) build).key (standing (state_of self.old) build).stays build) }
        ensures kept { IsKept self.new }
    {
        let key = self.builds[build as usize].key();
        let stays = self.stays_after(build);
        self.builds[build as usize].write(failures);
        self.close_build(key, stays, build);
    }

    /// A worker's claims in a build end. It takes no memory.
    fn release(&mut self, worker: u32, build: u32)
        requires kept { IsKept self.old }
        requires begun { build < length self.old.builds.items }
        ensures state { state_of self.new ≡ changed (state_of self.old) build (released (build_at self.old.builds.items build) worker) }
        ensures kept { IsKept self.new }
    {
        self.builds[build as usize].release(worker);
    }

    /// A build that isn't settled is settled, and closed too unless it puts its files. It takes no memory.
    fn settle_first(&mut self, build: u32, outcome: Outcome)
        requires kept { IsKept self.old }
        requires begun { build < length self.old.builds.items }
        requires unsettled { (build_at self.old.builds.items build).outcome ≡ None }
        ensures state { state_of self.new ≡ all_moved (state_of self.old) (settled (standing (state_of self.old) build) build outcome) }
        ensures kept { IsKept self.new }
        ensures begun { build < length self.new.builds.items }
    {
        if self.puts_files(build, &outcome) {
            self.settle_build(build, outcome);
        } else {
            self.end_active(build, outcome);
        }
    }

    /// A worker ends a build, unless it is settled, and its claims there end. It takes no memory.
    pub(crate) fn settle(&mut self, worker: u32, build: u32, outcome: Outcome) -> Told
        requires kept { IsKept self.old }
        requires begun { build < length self.old.builds.items }
        ensures told { result ≡ told_stale (build_at self.old.builds.items build).outcome }
        ensures state { state_of self.new ≡ after (state_of self.old) (events.Settle worker build outcome) }
        ensures kept { IsKept self.new }
    {
        if self.builds[build as usize].is_settled() {
            self.release(worker, build);
            return Told::Stale;
        }
        self.settle_first(build, outcome);
        self.release(worker, build);
        Told::Done
    }

    /// Passes over the first builds that are closed.
    fn pass_over(&mut self)
        requires { IsKept self.old }
        ensures state { state_of self.new ≡ state_of self.old }
        ensures replies { self.new.replies ≡ self.old.replies }
        ensures kept { IsKept self.new }
    {
        while self.passed < self.builds.len() && self.builds[self.passed].is_closed() {
            self.passed += 1;
        }
    }
}
