//! Paths with slashes: clean, joined, their parents, and the way from one to another.
//!
//! A clean path is absolute, and has no empty segment, no `.` and no `..`.
#![tactic(auto)]

mod calls;
mod laws;
mod names;

pub use calls::{clean, join, parent, relative};
pub use laws::{clean_paths, parents, relative_paths};

#[cfg(test)]
mod tests;
