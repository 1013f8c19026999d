//! What it is to read an expression, and that what is read so are exactly the well-formed expressions of a text: laws, each
//! the contract of a function that does nothing.
#![tactic(auto)]

mod laws;

pub use laws::{leaves, lists, operators};
