//! The early rules that a module's tree decides alone (ECMA-262, 11th edition, the sections named Static Semantics: Early
//! Errors): a walk over the tree that finds the first breach.
#![tactic(auto)]

mod directives;
mod gathered;
mod items;
mod repeated;
mod walk;

pub use esb_early_checks::{Breach, Rule};
pub use items::first_breach;
