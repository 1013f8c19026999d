//! Messages, and the places in a text that they tell.
#![tactic(auto)]

mod message;
mod place;
mod places;

pub use message::Message;
pub use place::place_of;
pub use places::Places;

#[cfg(test)]
mod tests;
