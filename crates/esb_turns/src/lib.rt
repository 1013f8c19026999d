//! A lock whose callers take turns in the order of their tickets, and the one list of entries that they make under it.
//!
//! What a caller knows of the list is kept by its pass: the beginning of the list that it has seen, which entries are its own, and how many shares of the lock it
//! has. docs/TURN-LOCK.md says what the lock promises and by which steps it keeps it.
#![tactic(auto)]

mod book;
mod entering;
mod fact;
mod held;
mod laws;
mod leaving;
mod lock;
mod opening;
mod pass;
mod rule;
mod sharing;
mod steps;
mod view;

pub use book::Book;
pub use fact::{Fact, Kind};
pub use held::Held;
pub use laws::{
    each_entry_is_owned, entries_of_a_kind, facts_hold_by_induction, facts_hold_of_all,
    facts_of_a_new_entry, facts_of_both, facts_stay, items_of_a_new_entry, items_stay,
    own_entries_stand, places_go_up,
};
pub use lock::TurnLock;
pub use pass::Pass;

#[cfg(test)]
mod tests;
