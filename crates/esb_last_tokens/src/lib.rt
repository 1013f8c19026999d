//! The tokens that expressions end with (ECMA-262, clause 12), and which tokens end them: laws, each the contract of a function
//! that does nothing.
#![tactic(auto)]

mod laws;

pub use laws::last_tokens;
