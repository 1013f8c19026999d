//! What holds of tables and tasks, for all of them. A caller learns a law by the call.
ghost use Rattle.std.specs.Prelude.{◌≡◌, ◌≢◌, ◌↔◌, true, List, Some, Option};
ghost use Rattle.esb_ask.specs.declared.question.Question.{Question};
ghost use Rattle.esb_ask.specs.declared.answer.Answer.{Answer};
ghost use Rattle.esb_ask.specs.declared.task.Task.{Task};
ghost use Rattle.esb_ask.specs.Table.{same_question, fits, Fits, answer_to, kept, kept_answer, Extends, all_fit};
ghost use Rattle.esb_ask.specs.Tasks.{same_task};

/// Questions are the same exactly where they are equal.
pub fn same_questions_are_equal()
    ensures { (asked other : Question) → (same_question asked other ≡ true) ↔ (asked ≡ other) }
{}

/// Tasks are the same exactly where they are equal.
pub fn same_tasks_are_equal()
    ensures { (task other : Task) → (same_task task other ≡ true) ↔ (task ≡ other) }
{}

/// Which answers a question can get.
pub fn fitting_answers()
    ensures { (asked : Question) (given : Answer) → (fits asked given ≡ true) ↔ Fits asked given }
{}

/// A table only grows, and keeps the first answer to each question.
pub fn first_answers_stay()
    ensures stay { (table : List (Question × Answer)) (asked : Question) (given : Answer) → Extends table (kept table asked given) }
    ensures answered { (table : List (Question × Answer)) (asked : Question) (given : Answer)
        → answer_to (kept table asked given) asked ≡ Some (kept_answer table asked given) }
    ensures first { (table : List (Question × Answer)) (asked : Question) (given first : Answer)
        → answer_to table asked ≡ Some first → kept_answer table asked given ≡ first }
    ensures others { (table : List (Question × Answer)) (asked : Question) (given : Answer) (other : Question)
        → other ≢ asked → answer_to (kept table asked given) other ≡ answer_to table other }
    ensures fit { (table : List (Question × Answer)) (asked : Question) (given : Answer)
        → all_fit table ≡ true → fits asked given ≡ true → all_fit (kept table asked given) ≡ true }
{}
