//! What a declaration binds, with a value or without (ECMA-262, 13.3 and 13.7), is read exactly: a law, the contract of a
//! function that does nothing.
#![tactic(auto)]

mod laws;

pub use laws::loose_bindings;
