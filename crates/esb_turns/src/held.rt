//! A caller's turn.
ghost use Rattle.std.specs.Prelude.{◌≡◌, ◌≤◌, [], ◌∷◌, None};
ghost use Rattle.esb_turns.specs.Views.{serves_at, Stands};

use crate::book::Book;
use crate::lock::TurnLock;
use crate::view::View;
use atomic_table::Seat;

/// A caller's turn, in which it has the book and no other caller does.
///
/// It ends by `leave` or `leave_with`, which give the pass back. It can't be dropped, so no turn is forgotten.
pub struct Held<'a, B: Book> {
    pub(crate) lock: &'a TurnLock<B>,
    pub(crate) seat: Seat<Option<B>, View<B::Entry>>,
    pub(crate) book: B,
    ghost here: { seat.table_id ≡ lock.now.table.shared.table_id },
    ghost turn: { serves_at seat.me.0.stage ≡ 1 },
    ghost compared: { seat.me.0.told ≡ [] },
    ghost out: { seat.me.1 ≡ (0, None) ∷ [] },
    ghost stands: { Stands seat.me.0.seen seat.me.0.own },
    ghost live: { 1 ≤ seat.me.0.shares },
}
