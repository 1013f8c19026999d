//! The text that is printed of a tree, and why it reads as the tree's tokens again.
#![tactic(auto)]

mod laws;
mod print;

pub use laws::trees_are_printable;
pub use print::print_tree;
