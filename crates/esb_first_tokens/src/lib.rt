//! The tokens that expressions begin with (ECMA-262, clause 12), and what is seen where an expression stands: laws, each the
//! contract of a function that does nothing.
#![tactic(auto)]

mod laws;

pub use laws::first_tokens;
