//! The link of a build: its files, or what is wrong, from the finished table.
#![tactic(auto)]

mod fault;
mod laws;
mod linking;
mod order;
mod scanned;

pub use fault::LinkFault;
pub use laws::{each_entry_has_its_output, files_are_the_outputs, outputs_ascend};
pub use linking::link;

#[cfg(test)]
mod tests;
