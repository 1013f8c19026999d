//! A node that was read.

use crate::fault::Fault;

/// A node, and how many levels it has.
#[derive(Drop)]
pub struct Node<T> {
    pub tree: T,
    pub levels: usize,
}

/// What was read and the place behind it, in bytes.
pub type Reading<T> = Result<(T, usize), Fault>;
