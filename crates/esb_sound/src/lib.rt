//! What makes a history right: its work, what it sends, and what the outside gave.
#![tactic(auto)]

mod laws;

pub use laws::{
    builds_are_done, links_are_ready, outcomes_are_right, replies_are_ready,
    serial_histories_are_one,
};
