//! Unary operators, updates and binary operators of all levels (ECMA-262, 12.4 to 12.13): the definitions of how they are
//! read, and the laws, each the contract of a function that does nothing.
#![tactic(auto)]

mod laws;

pub use laws::{binary_operators, unary_operators};
