//! To open a lock and to close it.
ghost use Rattle.std.specs.Prelude.{◌≡◌, ◌≤◌, [], IfOk};
ghost use mathlib.Core.List.{IsPrefix};
ghost use Rattle.esb_turns.specs.Views.{IsWhole};
ghost use Rattle.esb_turns.specs.Passes.{seen_by, own_of, shares_of, callers_of, IsPassOf};

use crate::book::Book;
use crate::lock::TurnLock;
use crate::pass::Pass;
use atomic_table::{Refused, Table};
use esb_base::Memory;
use std::alloc::Global;

impl<B: Book> TurnLock<B> {
    /// A lock over a book at rest with no entry, and a pass with all `callers` shares, which has seen nothing. Where memory is refused the book is dropped.
    pub fn new(alloc: Global, book: B, callers: u32) -> Result<(TurnLock<B>, Pass<B>), Memory>
        requires some { 1 ≤ callers }
        requires rest { B.is_at_rest book }
        requires empty { B.entries book ≡ [] }
        ensures lock { IfOk result (λ r. IsPassOf r.0 r.1 × (callers_of r.0 ≡ callers)) }
        ensures pass { IfOk result (λ r. (seen_by r.1 ≡ []) × (own_of r.1 ≡ []) × (shares_of r.1 ≡ callers)) }
    {
        let mut slots = Vec::with_capacity(alloc, 1)?;
        slots.push_reserved(Some(book));
        match Table::new(alloc, &[0, 0], slots, &callers) {
            Ok((table, seat)) => Ok((TurnLock { table }, Pass { seat })),
            Err(Refused { slots: _ }) => Err(Memory),
        }
    }

    /// Ends the lock, and gives its book at rest. The book's list is the own entries of the pass, each once and at its place, and no others.
    pub fn close(self, last: Pass<B>) -> B
        requires lock { IsPassOf self last }
        requires all { shares_of last ≡ callers_of self }
        ensures rest { B.is_at_rest result }
        ensures whole { IsWhole (B.entries result) (own_of last) }
        ensures seen { IsPrefix (seen_by last) (B.entries result) }
    {
        let TurnLock { table } = self;
        let Pass { seat } = last;
        let mut closed = table.close_with(seat);
        let slot = closed.take(0);
        closed.free();
        match slot {
            Some(book) => book,
            None => unreachable!(),
        }
    }
}
