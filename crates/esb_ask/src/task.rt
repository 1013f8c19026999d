ghost use Rattle.std.specs.Prelude.{◌≡◌, IfOk};
ghost use Rattle.esb_ask.specs.Tasks.{same_task, product_fits};

use crate::product::Product;
use esb_base::{FileName, Memory};

/// One piece of the scan of a build.
#[derive(Drop, PartialEq, Eq)]
pub enum Task {
    /// Finds the file of the entry with this number.
    Entry(u32),
    /// Gets the contents of a file.
    Load(FileName),
}

impl Task {
    /// The same task once more.
    pub fn share(&self) -> Result<Task, Memory>
        ensures { IfOk result (λ task. task ≡ self.now) }
    {
        match self {
            Task::Entry(number) => Ok(Task::Entry(*number)),
            Task::Load(name) => Ok(Task::Load(name.share()?)),
        }
    }

    /// Whether the other is the same task.
    pub fn is(&self, other: &Task) -> bool
        ensures { result ≡ same_task self.now other.now }
    {
        match (self, other) {
            (Task::Entry(number), Task::Entry(other)) => number == other,
            (Task::Load(name), Task::Load(other)) => name == other,
            _ => false,
        }
    }

    /// Whether the product is of this task's kind.
    pub fn fits(&self, product: &Product) -> bool
        ensures { result ≡ product_fits self.now product.now }
    {
        match self {
            Task::Entry(_) => matches!(product, Product::Entry(_)),
            Task::Load(_) => matches!(product, Product::Load(_)),
        }
    }
}
