//! Choices and assignments (ECMA-262, 12.14 and 12.15): the definitions of how they are read, and the laws, each the contract
//! of a function that does nothing.
#![tactic(auto)]

mod laws;

pub use laws::{assignments, choices};
