//! When readers that are put together of parts read exactly the nodes that stand in a text: laws, each the contract of a
//! function that does nothing.
#![tactic(auto)]

mod laws;

pub use laws::{choices, lists, sequences, single_tokens, what_rules_give};
