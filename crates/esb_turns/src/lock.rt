//! The lock itself.
ghost use Rattle.std.specs.Prelude.{◌≡◌};

use crate::book::Book;
use crate::rule::Turns;
use crate::view::View;
use atomic_table::Table;
use std::alloc::Global;

/// A book that callers use one after another, each for a turn.
///
/// Its table has two words, the next ticket to be drawn and the ticket that has the turn, and one slot with the book.
#[derive(Drop)]
pub struct TurnLock<B: Book> {
    pub(crate) table: Table<Option<B>, View<B::Entry>, u32, Turns<B>, Global>,
    ghost sized: { (table.shared.table_id.words ≡ 2) × (table.shared.table_id.slots ≡ 1) },
}
