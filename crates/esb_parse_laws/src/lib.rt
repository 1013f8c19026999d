//! The readers of all productions tied together, and that they read each module's one tree (ECMA-262, clauses 12 to 15): laws, each the
//! contract of a function that does nothing.
#![tactic(auto)]

mod laws;

pub use laws::{module_trees, readers_are_tied, trees_are_one};
