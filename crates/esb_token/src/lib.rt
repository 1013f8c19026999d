//! Tokens of JavaScript: their kinds, and in `specs` how each is spelled.
#![tactic(auto)]

mod goal;
mod kind;
mod laws;
mod token;

pub use goal::Goal;
pub use kind::Kind;
pub use laws::{goals_agree, kinds_tell};
pub use token::Token;

#[cfg(test)]
mod tests;
