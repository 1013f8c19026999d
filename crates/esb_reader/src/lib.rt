//! What the parsers share: single tokens, and in `specs` what it is to read a node from a text.
#![tactic(auto)]

mod fault;
mod laws;
mod node;
mod steps;

pub use fault::Fault;
pub use laws::{goals_agree, tokens_move};
pub use node::{Node, Reading};
pub use steps::{expect, peek, same_kind, take, token_at};

#[cfg(test)]
mod tests;
