//! The machine of the service: events in, and what they tell.
#![tactic(auto)]

mod always;
mod answers;
mod build;
mod contexts;
mod event;
mod machine;
mod opened;
mod out;
mod packets;
mod replies;
mod tables;
mod view;

pub use always::{
    answers_stay, builds_close, builds_stay, contexts_are_known, events_that_may_come,
    jobs_are_in_order, limits_hold, machines_show_their_history, outcomes_stay, replies_are_one,
    settled_tables_stay, told_is_the_history, work_is_claimed_once,
};
pub use event::{Claimed, Event, Job, Journal, Role, Told};
pub use machine::Machine;
pub use out::{Body, Out};
pub use view::View;

#[cfg(test)]
mod tests;
