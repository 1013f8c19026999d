//! A session from the words of the command line to its end.
#![tactic(auto)]

mod history;
mod output;
mod puts;
mod run;
mod session;
mod words;
mod work;

pub use run::{Session, run_serial};
pub use words::{BadWord, Words, read_words};

#[cfg(test)]
mod printed_tests;
#[cfg(test)]
mod tests;
