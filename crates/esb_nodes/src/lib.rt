//! Nodes that are let go, put in a box, or added to a list. All that drops a node stands here: a crate that reads nodes holds and
//! moves them, and so doesn't have to prove again that trees are dropped rightly.
#![tactic(auto)]

mod discard;
mod listed;
mod nested;
mod nodes;

pub use discard::{Discard, with};
pub use listed::Listed;
pub use nested::Nested;
