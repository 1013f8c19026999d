//! The tree of a file: read, and looked through for breaches of the early rules that a tree decides alone.
#![tactic(auto)]

mod fault;
mod file;

pub use fault::ParseFault;
pub use file::parse_file;

#[cfg(test)]
mod tests;
