//! What a caller knows. It exists in proofs alone, and costs nothing at run time.
use std::collections::LinkedList;

/// Where a caller stands: it has no ticket, it has this ticket, or it has the turn.
pub enum Stage {
    Idle,
    Waiting(u64),
    Serving,
}

/// What a seat at the lock's table knows. No value of it is made.
pub struct View<E> {
    pub stage: Stage,
    /// The beginning of the list that was seen.
    pub seen: LinkedList<E>,
    /// A beginning of the list that another caller has seen and that was not compared yet.
    pub told: LinkedList<E>,
    /// The caller's own entries, each with its place in the list.
    pub own: LinkedList<(u64, E)>,
    pub shares: u64,
}
