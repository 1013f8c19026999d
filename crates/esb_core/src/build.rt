//! One build.
ghost use Rattle.std.specs.Prelude.{◌≡◌, ℕ, ◌+◌, ◌<◌, ◌≤◌, ◌^◌, ◌++◌, ◌∷◌, [], length, not, filter, nat_eq, vec_len, true, false, None, Some, IfOk, OnOk, OnErr};
ghost use Rattle.std.specs.List.{list_any};
ghost use Rattle.std.specs.Option.{is_some, option_copied};
ghost use Rattle.std.specs.Vec.{vec_capacity};
ghost use Rattle.esb_ask.specs.Table.{fits, kept};
ghost use Rattle.esb_core.specs.Allowed.{has_claim, has_task, is_closed, is_linker, is_part, is_scanned, is_settled, is_writer, job_of, may_fail, may_settle, names_job, write_if, writing_of};
ghost use Rattle.esb_core.specs.Kept.{StaysBy};
ghost use Rattle.esb_core.specs.Sizes.{has_too_many, is_overfull, opened};
ghost use Rattle.esb_core.specs.Steps.{answered, closed_by, ended_by, fresh, freed, is_claim, joined, link_claimed, released, task_claimed, tasked, told_record, unclaimed, write_claimed, written_by};

use crate::answers::Answers;
use crate::event::{Job, Told};
use crate::opened::Opened;
use crate::view::View;
use esb_ask::{Answer, Failures, OutFile, Outcome, Question, Table, Task};
use esb_base::{Memory, PutFault, Shared, Text};
use esb_flags::Options;
use std::alloc::Global;
use std::marker::Model;

/// A build, with its tasks and the answers that it got.
#[derive(Drop)]
pub(crate) struct Build {
    key: u32,
    options: Shared<Options>,
    /// The id of each request that waits, and whether it is answered by the result.
    waiting: Vec<(u32, bool)>,
    answers: Answers,
    tasks: Opened,
    claimed: usize,
    claims: Vec<(u32, Task)>,
    linker: Option<u32>,
    outcome: Option<Outcome>,
    writer: Option<u32>,
    failed: Option<Failures>,
    closed: bool,
}

impl Model for Build {
    ghost use Rattle.std.specs.Prelude.{◌≤◌, length, vec_len, vec_capacity};
    ghost use Rattle.esb_core.specs.State.{Building};

    ghost Value = { Building };

    ghost view = { λ b. record {
      key = b.key;
      options = b.options;
      waiting = b.waiting.items;
      table = b.answers;
      tasks = b.tasks;
      claimed = b.claimed;
      claims = b.claims.items;
      linker = b.linker;
      outcome = b.outcome;
      writer = b.writer;
      failed = b.failed;
      closed = b.closed;
    } };

    // There is room for the claim of each task that is open.
    ghost invariant = { λ b. (vec_len b.claims ≤ b.claimed) × (b.claimed ≤ length b.tasks) × (length b.tasks ≤ vec_capacity b.claims) };
}

/// Whether a claim is this worker's, of this task.
fn is_claim(claim: &(u32, Task), worker: u32, task: &Task) -> bool
    ensures { result ≡ is_claim worker task.now claim.now }
{
    claim.0 == worker && claim.1.is(task)
}

/// Whether these are some of the paths of the files, in their order.
fn is_part(failures: &[(Text, PutFault)], files: &[OutFile]) -> bool
    ensures { result ≡ is_part failures.now files.now }
{
    let (mut rest, mut left) = (failures, files);
    while let [file, more @ ..] = left {
        if let [first, others @ ..] = rest {
            if first.0 == file.path {
                rest = others;
            }
        }
        left = more;
    }
    rest.is_empty()
}

/// Whether a worker has a claim.
fn claims_any(claims: &[(u32, Task)], worker: u32) -> bool
    ensures { result ≡ list_any (λ claim. nat_eq claim.0 worker) claims.now }
{
    claims.iter().any(|claim| claim.0 == worker)
}

/// The claim of a task ends.
fn end_claim(claims: &mut Vec<(u32, Task)>, worker: u32, task: &Task)
    ensures after { claims.new.items ≡ filter (λ claim. not (is_claim worker task.now claim)) claims.old.items }
    ensures bound { vec_len claims.new ≤ vec_len claims.old }
    ensures capacity { vec_capacity claims.new ≡ vec_capacity claims.old }
{
    claims.retain(|claim| !is_claim(claim, worker, task));
}

/// A worker's claims end.
fn end_claims(claims: &mut Vec<(u32, Task)>, worker: u32)
    ensures after { claims.new.items ≡ filter (λ claim. not (nat_eq claim.0 worker)) claims.old.items }
    ensures bound { vec_len claims.new ≤ vec_len claims.old }
    ensures capacity { vec_capacity claims.new ≡ vec_capacity claims.old }
{
    claims.retain(|claim| claim.0 != worker);
}

/// Who has claimed the link, once this worker's claims have ended.
fn freed(linker: Option<u32>, worker: u32) -> Option<u32>
    ensures { result ≡ freed worker linker }
{
    match linker {
        Some(linker) if linker != worker => Some(linker),
        _ => None,
    }
}

impl Build {
    /// A build of these options, in the context with this key.
    pub(crate) fn new(alloc: Global, key: u32, options: Shared<Options>) -> Result<Build, Memory>
        ensures { IfOk result (λ b. b ≡ fresh key options) }
    {
        let tasks = Opened::of_entries(alloc, options.get().entries.len())?;
        let claims = Vec::with_capacity(alloc, tasks.len())?;
        Ok(Build {
            key,
            options,
            waiting: Vec::new(alloc),
            answers: Answers::new(alloc),
            tasks,
            claimed: 0,
            claims,
            linker: None,
            outcome: None,
            writer: None,
            failed: None,
            closed: false,
        })
    }

    pub(crate) fn key(&self) -> u32
        ensures { result ≡ self.now.key }
    {
        self.key
    }

    pub(crate) fn options(&self) -> &Shared<Options>
        ensures { result.now ≡ self.now.options }
    {
        &self.options
    }

    /// The requests that wait for this build: each id, and whether it is answered by the result.
    pub(crate) fn waiting(&self) -> &[(u32, bool)]
        ensures { result.now ≡ self.now.waiting }
    {
        &self.waiting
    }

    /// One more request waits for this build.
    pub(crate) fn join(&mut self, id: u32, result_wanted: bool) -> Result<(), Memory>
        ensures ok { OnOk result (self.new ≡ joined self.old id result_wanted) }
        ensures err { OnErr result (self.new ≡ self.old) }
        ensures stays { StaysBy 1 self.old self.new }
    {
        self.waiting.push((id, result_wanted))?;
        Ok(())
    }

    pub(crate) fn table(&self) -> &Table
        ensures { result.now ≡ self.now.table }
    {
        self.answers.table()
    }

    pub(crate) fn outcome(&self) -> Option<&Outcome>
        ensures { option_copied result ≡ self.now.outcome }
    {
        self.outcome.as_ref()
    }

    pub(crate) fn is_settled(&self) -> bool
        ensures { result ≡ is_settled self.now }
    {
        self.outcome.is_some()
    }

    pub(crate) fn is_closed(&self) -> bool
        ensures { result ≡ is_closed self.now }
    {
        self.closed
    }

    /// Whether the writing of this build's files is open.
    fn is_to_write(&self) -> bool
        ensures { (number : ℕ) (o : Outcome) → self.now.outcome ≡ Some o → writing_of number self.now o ≡ write_if number result }
    {
        matches!(&self.outcome, Some(Outcome::Files(_)))
            && self.options.get().write
            && self.writer.is_none()
            && self.failed.is_none()
    }

    /// The first open job of this build, whose number is told.
    pub(crate) fn job(&self, build: u32) -> Result<Option<Job>, Memory>
        ensures { IfOk result (λ job. job ≡ job_of build self.now) }
    {
        if self.outcome.is_some() {
            return Ok(if self.is_to_write() {
                Some(Job::Write { build })
            } else {
                None
            });
        }
        match self.tasks.get(self.claimed) {
            Some(task) => Ok(Some(Job::Scan {
                build,
                task: task.share()?,
            })),
            None if self.is_scanned() => Ok(Some(Job::Link { build })),
            None => Ok(None),
        }
    }

    /// Whether no task is claimed, and neither is the link.
    fn is_scanned(&self) -> bool
        ensures { result ≡ is_scanned self.now }
    {
        self.claims.is_empty() && self.linker.is_none()
    }

    /// Whether this build has an open job.
    pub(crate) fn has_job(&self) -> bool
        ensures { (number : ℕ) → result ≡ is_some (job_of number self.now) }
    {
        if self.is_settled() {
            return self.is_to_write();
        }
        self.claimed < self.tasks.len() || self.is_scanned()
    }

    /// Whether a job is the first open one of this build, whose number is told. It takes no memory.
    pub(crate) fn is_job(&self, build: u32, job: &Job) -> bool
        ensures { result ≡ names_job (job_of build self.now) job.now }
    {
        if self.outcome.is_some() {
            return match job {
                Job::Write { build: n } => self.is_to_write() && build == *n,
                _ => false,
            };
        }
        match (self.tasks.get(self.claimed), job) {
            (Some(task), Job::Scan { build: n, task: t }) => build == *n && task.is(t),
            (None, Job::Link { build: n }) => self.is_scanned() && build == *n,
            _ => false,
        }
    }

    /// Whether a worker has claimed a task.
    pub(crate) fn has_task(&self, worker: u32, task: &Task) -> bool
        ensures { result ≡ has_task self.now worker task.now }
    {
        self.claims
            .iter()
            .any(|claim| claim.0 == worker && claim.1.is(task))
    }

    /// Whether a worker has claimed the link.
    pub(crate) fn is_linker(&self, worker: u32) -> bool
        ensures { result ≡ is_linker self.now.linker worker }
    {
        match self.linker {
            None => false,
            Some(linker) => linker == worker,
        }
    }

    /// Whether a worker has claimed the writing.
    pub(crate) fn is_writer(&self, worker: u32) -> bool
        ensures { result ≡ is_writer self.now.writer worker }
    {
        match self.writer {
            None => false,
            Some(writer) => writer == worker,
        }
    }

    /// Whether these can be the files that were not put.
    pub(crate) fn may_fail(&self, failures: &Failures) -> bool
        ensures { result ≡ may_fail self.now.outcome failures.now }
    {
        let Some(Outcome::Files(files)) = &self.outcome else {
            return false;
        };
        match failures {
            Failures::Paths(paths) => is_part(paths.get().as_slice(), files.get().as_slice()),
            Failures::All => true,
        }
    }

    /// Whether a worker has any claim.
    pub(crate) fn has_claim(&self, worker: u32) -> bool
        ensures { result ≡ has_claim self.now worker }
    {
        claims_any(&self.claims, worker) || self.is_linker(worker)
    }

    /// Whether a worker may settle the build so.
    pub(crate) fn may_settle(&self, worker: u32, outcome: &Outcome) -> bool
        ensures { result ≡ may_settle self.now worker outcome.now }
    {
        match outcome {
            Outcome::Files(_) => self.is_linker(worker),
            Outcome::Errors(_) => self.is_linker(worker),
            Outcome::Canceled => false,
            Outcome::Memory => self.has_claim(worker),
        }
    }

    /// What can be seen of this build.
    pub(crate) fn view(&self) -> Result<View, Memory>
        ensures key { IfOk result (λ view. view.key ≡ self.now.key) }
        ensures options { IfOk result (λ view. view.options ≡ self.now.options) }
        ensures outcome { IfOk result (λ view. view.outcome ≡ self.now.outcome) }
        ensures failed { IfOk result (λ view. view.failed ≡ self.now.failed) }
    {
        let options = self.options.share()?;
        let outcome = match &self.outcome {
            None => None,
            Some(outcome) => Some(outcome.share()?),
        };
        let failed = match &self.failed {
            None => None,
            Some(failed) => Some(failed.share()?),
        };
        Ok(View {
            key: self.key,
            options,
            outcome,
            failed,
        })
    }

    /// The first open task goes to a worker. It takes no memory.
    pub(crate) fn claim_task(&mut self, worker: u32, task: Task)
        requires { self.old.claimed < length self.old.tasks }
        ensures after { self.new ≡ task_claimed self.old worker task }
        ensures stays { StaysBy 0 self.old self.new }
    {
        self.claims.push_reserved((worker, task));
        self.claimed += 1;
    }

    /// The link goes to a worker.
    pub(crate) fn claim_link(&mut self, worker: u32)
        ensures after { self.new ≡ link_claimed self.old worker }
        ensures stays { StaysBy 0 self.old self.new }
    {
        self.linker = Some(worker);
    }

    /// Whether the build would be too large with this answer too.
    pub(crate) fn overfill(&self, question: &Question, answer: &Answer) -> bool
        ensures { result ≡ is_overfull (kept self.now.table question.now answer.now) }
    {
        self.answers.overfill(question, answer)
    }

    /// Whether the build would be too large with this task too.
    pub(crate) fn overopen(&self, task: &Option<Task>) -> bool
        ensures { result ≡ has_too_many (opened self.now.tasks task.now) }
    {
        self.tasks.overfill(task)
    }

    /// Keeps the first answer to a question of a build that isn't settled.
    pub(crate) fn record(&mut self, question: Question, answer: Answer) -> Result<Told, Memory>
        requires fitting { fits question answer ≡ true }
        requires room { is_overfull (kept self.old.table question answer) ≡ false }
        ensures told { IfOk result (λ t. t ≡ told_record self.old.table question answer None) }
        ensures ok { OnOk result (self.new ≡ answered self.old question answer) }
        ensures err { OnErr result (self.new ≡ self.old) }
        ensures stays { StaysBy 0 self.old self.new }
    {
        Ok(Told::Kept(self.answers.put(question, answer)?))
    }

    /// The claim of a task ends. It takes no memory.
    pub(crate) fn unclaim(&mut self, worker: u32, task: &Task)
        ensures after { self.new ≡ unclaimed self.old worker task.now }
        ensures stays { StaysBy 0 self.old self.new }
    {
        end_claim(&mut self.claims, worker, task);
    }

    /// A task is opened if it is new, with room for its claim.
    pub(crate) fn open(&mut self, task: Task) -> Result<(), Memory>
        requires room { has_too_many (opened self.old.tasks (Some task)) ≡ false }
        ensures ok { OnOk result (self.new ≡ tasked self.old task) }
        ensures err { OnErr result (self.new ≡ self.old) }
        ensures stays { StaysBy 0 self.old self.new }
    {
        if self.tasks.has(&task) {
            return Ok(());
        }
        self.open_new(task)
    }

    fn open_new(&mut self, task: Task) -> Result<(), Memory>
        requires room { has_too_many (self.old.tasks ++ task ∷ []) ≡ false }
        ensures ok { OnOk result (self.new ≡ record self.old { tasks = self.old.tasks ++ task ∷ [] }) }
        ensures err { OnErr result (self.new ≡ self.old) }
    {
        let more = self.tasks.len() - self.claims.len();
        let more = more.checked_add(1).ok_or(Memory)?;
        self.claims.reserve(more)?;
        self.tasks.push(task)
    }

    /// A worker's claims end. It takes no memory.
    pub(crate) fn release(&mut self, worker: u32)
        ensures after { self.new ≡ released self.old worker }
        ensures stays { StaysBy 0 self.old self.new }
    {
        end_claims(&mut self.claims, worker);
        self.linker = freed(self.linker, worker);
    }

    /// The writing goes to a worker. It takes no memory.
    pub(crate) fn claim_write(&mut self, worker: u32)
        ensures { self.new ≡ write_claimed self.old worker }
    {
        self.writer = Some(worker);
    }

    /// The files are put, but for these. It takes no memory.
    pub(crate) fn write(&mut self, failures: Failures)
        ensures { self.new ≡ written_by self.old failures }
    {
        self.failed = Some(failures);
        self.writer = None;
    }

    /// No request waits any more. It takes no memory.
    pub(crate) fn close(&mut self)
        ensures { self.new ≡ closed_by self.old }
    {
        self.closed = true;
    }

    /// Settles the build. It takes no memory.
    pub(crate) fn end(&mut self, outcome: Outcome)
        ensures { self.new ≡ ended_by self.old outcome }
    {
        self.outcome = Some(outcome);
    }
}
