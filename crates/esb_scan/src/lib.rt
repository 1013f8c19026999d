//! The scan of a build: what each task asks, and what it gives.
#![tactic(auto)]

mod complete;
mod laws;
mod loaders;
mod messages;
mod paths;
mod run;
mod scripts;
mod unbuilt;

pub use complete::is_complete;
pub use laws::{
    asks_once, larger_tables_agree, products_fit, questions_are_new, tasks_that_are_named,
};
pub use loaders::{loader_of, stem_of};
pub use paths::below;
pub use run::{Run, run_entry, run_load, run_task};

#[cfg(test)]
mod tests;
