//! What holds of the runs of tasks over all tables. A caller learns a law by the call.
ghost use Rattle.std.specs.Prelude.{◌≡◌, ◌≢◌, ◌≤◌, ℕ, [], ◌∷◌, true, List, None, Contains, IsSome, length};
ghost use Rattle.esb_base.specs.declared.file_name.FileName.{FileName};
ghost use Rattle.esb_flags.specs.declared.options.Options.{Options};
ghost use Rattle.esb_ask.specs.declared.question.Question.{Question};
ghost use Rattle.esb_ask.specs.declared.answer.Answer.{Answer};
ghost use Rattle.esb_ask.specs.declared.task.Task.{Task};
ghost use Rattle.esb_ask.specs.declared.product.Product.{Product};
ghost use Rattle.esb_ask.specs.Table.{answer_to, kept, Extends};
ghost use Rattle.esb_ask.specs.Tasks.{product_fits};
ghost use Rattle.esb_scan.specs.declared.run.Run.{Run};
ghost use Rattle.esb_scan.specs.Run.{run, trail, names, question_fits, is_load, is_done};
ghost use Rattle.esb_scan.specs.Complete.{IsComplete};

/// A larger table that keeps the answers gives the same products.
pub fn larger_tables_agree()
    ensures same { (options : Options) (table more : List (Question × Answer)) (task : Task) (given : Product)
        → Extends table more → run options table task ≡ Run.Done given → run options more task ≡ Run.Done given }
    ensures complete { (options : Options) (table more : List (Question × Answer))
        → Extends table more → IsComplete options table → IsComplete options more }
{}

/// A question that a task asks is new to the table, is the last of the task's trail, and is of the task's kind: what lies at a
/// path for an entry, what a file has for a load.
pub fn questions_are_new()
    ensures new { (options : Options) (table : List (Question × Answer)) (task : Task) (asked : Question)
        → run options table task ≡ Run.Asks asked → answer_to table asked ≡ None }
    ensures last { (options : Options) (table : List (Question × Answer)) (task : Task) (asked : Question)
        → run options table task ≡ Run.Asks asked → trail options table task ≡ asked ∷ [] }
    ensures fits { (options : Options) (table : List (Question × Answer)) (task : Task) (asked : Question)
        → run options table task ≡ Run.Asks asked → question_fits task asked ≡ true }
{}

/// A task has a product once the questions of its trail have answers, and it asks one question at most.
pub fn asks_once()
    ensures answered { (options : Options) (table : List (Question × Answer)) (task : Task)
        → ((asked : Question) → Contains (trail options table task) asked → IsSome (answer_to table asked))
        → is_done (run options table task) ≡ true }
    ensures once { (options : Options) (table : List (Question × Answer)) (task : Task) (asked : Question) (given : Answer)
        → run options table task ≡ Run.Asks asked → is_done (run options (kept table asked given) task) ≡ true }
    ensures never_refused { (options : Options) (table : List (Question × Answer)) (task : Task)
        → run options table task ≢ Run.Memory }
{}

/// A product is of its task's kind.
pub fn products_fit()
    ensures { (options : Options) (table : List (Question × Answer)) (task : Task) (given : Product)
        → run options table task ≡ Run.Done given → product_fits task given ≡ true }
{}

/// Only an entry's product names a further task: one at most, the load of a file.
pub fn tasks_that_are_named()
    ensures one { (given : Product) → length (names given) ≤ 1 }
    ensures loads { (given : Product) (task : Task) → Contains (names given) task → is_load task ≡ true }
    ensures none { (name : FileName) (given : Product) → product_fits (Task.Load name) given ≡ true → names given ≡ [] }
{}
