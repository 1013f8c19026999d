//! One step, by its event.
ghost use Rattle.std.specs.Prelude.{◌≡◌, ◌<◌, true, length, IfOk, OnOk, OnErr, IsOk};
ghost use Rattle.esb_core.specs.Allowed.{allowed, takes_none};
ghost use Rattle.esb_core.specs.Kept.{state_of, IsKept};
ghost use Rattle.esb_core.specs.State.{build_at};
ghost use Rattle.esb_core.specs.Steps.{after, after_claim, told_of};

use crate::event::{Event, Job, Role, Told};
use crate::packets::may_arrive;
use crate::tables::Tables;
use crate::view::View;
use esb_ask::{Failures, Outcome, Product, Task};
use esb_base::Memory;

impl Tables {
    /// Whether this is the first open job of the role.
    fn may_claim(&self, role: Role, job: &Job) -> bool
        requires { IsKept self.now }
        ensures { result ≡ allowed (state_of self.now) (Event.Claim role job.now) }
    {
        match role {
            Role::Worker(_) => self.is_first(job),
            Role::Door(_) => false,
        }
    }

    fn may_deliver(&self, worker: u32, build: u32, task: &Task, product: &Product) -> bool
        ensures { result ≡ allowed (state_of self.now) (Event.Deliver worker build task.now product.now) }
    {
        match self.builds.get(build as usize) {
            None => false,
            Some(build) => build.has_task(worker, task) && task.fits(product),
        }
    }

    fn may_settle(&self, worker: u32, build: u32, outcome: &Outcome) -> bool
        ensures { result ≡ allowed (state_of self.now) (Event.Settle worker build outcome.now) }
    {
        match self.builds.get(build as usize) {
            None => false,
            Some(build) => build.may_settle(worker, outcome),
        }
    }

    fn may_write(&self, worker: u32, build: u32, failures: &Failures) -> bool
        ensures { result ≡ allowed (state_of self.now) (Event.Written worker build failures.now) }
    {
        match self.builds.get(build as usize) {
            None => false,
            Some(build) => build.is_writer(worker) && build.may_fail(failures),
        }
    }

    /// Whether an event may come now. It takes no memory.
    pub(crate) fn allows(&self, event: &Event) -> bool
        requires { IsKept self.now }
        ensures { result ≡ allowed (state_of self.now) event.now }
    {
        match event {
            Event::Arrive(packet) => !self.ended && may_arrive(packet),
            Event::EndOfInput => !self.ended,
            Event::Claim { role, job } => self.may_claim(*role, job),
            Event::Record {
                worker: _,
                build,
                question,
                answer,
            } => (*build as usize) < self.builds.len() && question.fits(answer),
            Event::Deliver {
                worker,
                build,
                task,
                product,
            } => self.may_deliver(*worker, *build, task, product),
            Event::Settle {
                worker,
                build,
                outcome,
            } => self.may_settle(*worker, *build, outcome),
            Event::Written {
                worker,
                build,
                failures,
            } => self.may_write(*worker, *build, failures),
            Event::Pop => !self.replies.is_empty(),
        }
    }

    /// A role takes its first open job. It takes no memory.
    fn claim(&mut self, role: Role, job: Job)
        requires kept { IsKept self.old }
        requires first { allowed (state_of self.old) (Event.Claim role job) ≡ true }
        ensures state { state_of self.new ≡ after_claim (state_of self.old) role job }
        ensures kept { IsKept self.new }
    {
        match (role, job) {
            (Role::Worker(worker), Job::Scan { build, task }) => {
                self.claim_task(worker, build, task);
            }
            (Role::Worker(worker), Job::Link { build }) => self.claim_link(worker, build),
            (Role::Worker(worker), Job::Write { build }) => self.claim_write(worker, build),
            (Role::Door(_), _) => {}
        }
    }

    /// The first that is owed is taken off. It takes no memory.
    fn pop(&mut self) -> Told
        requires kept { IsKept self.old }
        ensures told { result ≡ told_of (state_of self.old) Event.Pop }
        ensures state { state_of self.new ≡ after (state_of self.old) Event.Pop }
        ensures kept { IsKept self.new }
    {
        match self.replies.pop() {
            None => Told::Done,
            Some(first) => Told::Owed(first),
        }
    }

    /// Makes the step of an event.
    pub(crate) fn step(&mut self, event: Event) -> Result<Told, Memory>
        requires kept { IsKept self.old }
        requires allowed { allowed (state_of self.old) event ≡ true }
        ensures told { IfOk result (λ t. t ≡ told_of (state_of self.old) event) }
        ensures ok { OnOk result (state_of self.new ≡ after (state_of self.old) event) }
        ensures err { OnErr result (state_of self.new ≡ state_of self.old) }
        ensures no_memory { takes_none event ≡ true → IsOk result }
        ensures kept { IsKept self.new }
    {
        match event {
            Event::Arrive(packet) => {
                self.arrive(&packet)?;
                Ok(Told::Done)
            }
            Event::EndOfInput => {
                self.ended = true;
                Ok(Told::Done)
            }
            Event::Claim { role, job } => {
                self.claim(role, job);
                Ok(Told::Done)
            }
            Event::Record {
                worker: _,
                build,
                question,
                answer,
            } => self.record(build, question, answer),
            Event::Deliver {
                worker,
                build,
                task,
                product,
            } => self.deliver(worker, build, &task, &product),
            Event::Settle {
                worker,
                build,
                outcome,
            } => Ok(self.settle(worker, build, outcome)),
            Event::Written {
                worker: _,
                build,
                failures,
            } => {
                self.write(build, failures);
                Ok(Told::Done)
            }
            Event::Pop => Ok(self.pop()),
        }
    }

    /// What can be seen of a build.
    pub(crate) fn view(&self, build: u32) -> Result<View, Memory>
        requires { build < length self.now.builds.items }
        ensures key { IfOk result (λ view. view.key ≡ (build_at self.now.builds.items build).key) }
        ensures options { IfOk result (λ view. view.options ≡ (build_at self.now.builds.items build).options) }
        ensures outcome { IfOk result (λ view. view.outcome ≡ (build_at self.now.builds.items build).outcome) }
        ensures failed { IfOk result (λ view. view.failed ≡ (build_at self.now.builds.items build).failed) }
    {
        self.builds[build as usize].view()
    }
}
