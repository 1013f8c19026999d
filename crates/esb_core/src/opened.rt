//! The tasks that a build opens.
ghost use Rattle.std.specs.Prelude.{◌≡◌, ◌++◌, [], ◌∷◌, false, length, slice_get, IfOk, OnOk, OnErr};
ghost use Rattle.std.specs.List.{list_any};
ghost use Rattle.std.specs.Option.{option_copied};
ghost use Rattle.esb_ask.specs.Tasks.{same_task};
ghost use Rattle.esb_core.specs.Sizes.{has_too_many, is_load, opened};
ghost use Rattle.esb_core.specs.Steps.{entry_tasks};

use esb_ask::Task;
use esb_base::Memory;
use std::alloc::Global;
use std::marker::Model;

/// The most files that the tasks of a build load.
const MOST_FILES: usize = 65_536;

/// The tasks of a build in the order in which they were opened, and how many of them load a file.
#[derive(Drop)]
pub(crate) struct Opened {
    tasks: Vec<Task>,
    files: usize,
}

impl Model for Opened {
    ghost use Rattle.std.specs.Prelude.{List};
    ghost use Rattle.esb_ask.specs.declared.task.Task.{Task};
    ghost use Rattle.esb_core.specs.Kept.{AreFiles};

    ghost Value = { List Task };

    ghost view = { λ opened. opened.tasks.items };

    ghost invariant = { λ opened. AreFiles opened.tasks.items opened.files };
}

/// The tasks of so many entries, which are numbered with 32 bits.
fn entry_tasks(alloc: Global, entries: usize) -> Result<Vec<Task>, Memory>
    ensures { IfOk result (λ tasks. tasks.items ≡ entry_tasks entries) }
{
    let count = u32::try_from(entries).map_err(|_| Memory)?;
    let mut tasks = Vec::with_capacity(alloc, entries)?;
    for number in 0..count {
        tasks.push(Task::Entry(number))?;
    }
    Ok(tasks)
}

/// Whether a task loads a file.
fn is_load(task: &Task) -> bool
    ensures { result ≡ is_load task.now }
{
    matches!(task, Task::Load(_))
}

impl Opened {
    /// The tasks of so many entries.
    pub(crate) fn of_entries(alloc: Global, entries: usize) -> Result<Opened, Memory>
        ensures { IfOk result (λ opened. opened ≡ entry_tasks entries) }
    {
        Ok(Opened {
            tasks: entry_tasks(alloc, entries)?,
            files: 0,
        })
    }

    pub(crate) fn len(&self) -> usize
        ensures { result ≡ length self.now }
    {
        self.tasks.len()
    }

    /// The task at a place.
    pub(crate) fn get(&self, place: usize) -> Option<&Task>
        ensures { option_copied result ≡ slice_get self.now place }
    {
        self.tasks.get(place)
    }

    /// Whether the task is among these.
    pub(crate) fn has(&self, task: &Task) -> bool
        ensures { result ≡ list_any (same_task task.now) self.now }
    {
        self.tasks.iter().any(|other| task.is(other))
    }

    /// Whether there would be too many files with this task too.
    pub(crate) fn overfill(&self, task: &Option<Task>) -> bool
        ensures { result ≡ has_too_many (opened self.now task.now) }
    {
        match task {
            None => false,
            Some(task) => self.files >= MOST_FILES && is_load(task) && !self.has(task),
        }
    }

    /// Adds a task that is new.
    pub(crate) fn push(&mut self, task: Task) -> Result<(), Memory>
        requires room { has_too_many (self.old ++ task ∷ []) ≡ false }
        ensures ok { OnOk result (self.new ≡ self.old ++ task ∷ []) }
        ensures err { OnErr result (self.new ≡ self.old) }
    {
        let more = if is_load(&task) { 1 } else { 0 };
        self.tasks.push(task)?;
        self.files += more;
        Ok(())
    }
}
