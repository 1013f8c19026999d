//! What the work on a build asks and finds: questions, answers, tasks, products and outcomes.
#![tactic(auto)]

mod answer;
mod laws;
mod message;
mod outcome;
mod product;
mod question;
mod table;
mod task;

pub use answer::Answer;
pub use laws::{
    first_answers_stay, fitting_answers, same_questions_are_equal, same_tasks_are_equal,
};
pub use message::Message;
pub use outcome::{Failures, OutFile, Outcome};
pub use product::{Loaded, Product, Resolved};
pub use question::Question;
pub use table::Table;
pub use task::Task;

#[cfg(test)]
mod tests;
