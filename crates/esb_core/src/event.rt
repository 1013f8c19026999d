ghost use Rattle.std.specs.Prelude.{◌≡◌, IfOk};

use crate::out::Out;
use esb_ask::{Answer, Failures, Outcome, Product, Question, Task};
use esb_base::{List, Memory};
use esb_wire::Packet;

/// Who does the work. Workers and doors have numbers of their own, from 0.
#[derive(Clone, Copy, Debug, PartialEq, Eq)]
pub enum Role {
    /// Scans, links and writes.
    Worker(u32),
    /// Listens and serves.
    Door(u32),
}

/// A piece of work, of the build with this number.
#[derive(Drop)]
pub enum Job {
    /// A task of a build's scan.
    Scan { build: u32, task: Task },
    /// The link of a build whose tasks are done.
    Link { build: u32 },
    /// The writing of the files of a build.
    Write { build: u32 },
}

/// The next work of a role.
#[derive(Drop)]
pub enum Claimed {
    /// The first job that is open to it.
    Job(Job),
    /// No job is open.
    Idle,
    /// The input has ended and each build is closed.
    Closing,
}

/// One step of a session. Builds have their numbers in the order in which they begin, from 0.
#[derive(Drop)]
pub enum Event {
    /// A packet of the client.
    Arrive(Packet),
    /// No packet comes any more.
    EndOfInput,
    /// A role takes its first open job.
    Claim {
        role: Role,
        job: Job,
    },
    /// A worker got an answer of its host.
    Record {
        worker: u32,
        build: u32,
        question: Question,
        answer: Answer,
    },
    /// A worker has done a task.
    Deliver {
        worker: u32,
        build: u32,
        task: Task,
        product: Product,
    },
    /// A worker ends a build.
    Settle {
        worker: u32,
        build: u32,
        outcome: Outcome,
    },
    /// A worker has put the files of a build, but for those that failed.
    Written {
        worker: u32,
        build: u32,
        failures: Failures,
    },
    /// The first that is owed is sent.
    Pop,
}

/// The events of a session, in order.
#[derive(Drop)]
pub struct Journal {
    /// From the first to the last.
    pub events: List<Event>,
}

/// What a step tells.
#[derive(Drop)]
pub enum Told {
    /// That the event was taken note of.
    Done,
    /// The answer that is kept: the first to the question.
    Kept(Answer),
    /// That the build was settled before: nothing was kept, and a claim that the event gives back has ended.
    Stale,
    /// What was owed first.
    Owed(Out),
}

impl Job {
    /// The same job once more.
    pub fn share(&self) -> Result<Job, Memory>
        ensures { IfOk result (λ job. job ≡ self.now) }
    {
        match self {
            Job::Scan { build, task } => Ok(Job::Scan {
                build: *build,
                task: task.share()?,
            }),
            Job::Link { build } => Ok(Job::Link { build: *build }),
            Job::Write { build } => Ok(Job::Write { build: *build }),
        }
    }
}
