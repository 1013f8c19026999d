//! The printing of tokens, one line for each statement.
#![tactic(auto)]

mod gap;
mod laws;
mod lines;

pub use gap::has_gap;
pub use laws::printed_is_read;
pub use lines::{append_line, text_of_lines};

#[cfg(test)]
mod tests;
