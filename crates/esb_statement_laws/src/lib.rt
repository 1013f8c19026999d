//! What it is to read a statement, and that what is read so are exactly the well-formed statements of a text: laws, each the
//! contract of a function that does nothing.
#![tactic(auto)]

mod laws;
mod sort;

pub use laws::{levels, nearest_if, statement_lists, statements};
pub use sort::Sort;
