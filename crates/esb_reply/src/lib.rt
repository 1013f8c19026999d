//! Replies: the packet of what is owed to the client.
#![tactic(auto)]

mod failed;
mod laws;
mod reply;
mod shown;

pub use laws::{replacement_fits, short_errors_are_sent};
pub use reply::packet_of;

#[cfg(test)]
mod tests;
