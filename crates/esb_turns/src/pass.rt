//! A caller's leave to enter.
ghost use Rattle.std.specs.Prelude.{◌≡◌, ◌≤◌, []};
ghost use Rattle.esb_turns.specs.Views.{Stands};
ghost use Rattle.esb_turns.specs.declared.view.Stage.TheVariants.{Idle};

use crate::book::Book;
use crate::view::View;
use atomic_table::Seat;

/// A caller's leave to enter one lock, with the beginning of the list that it has seen, its own entries with their places, and a number of shares, at least one.
///
/// It takes no bytes. A pass that is dropped takes its shares and its own entries with it, and its lock can't be closed any more.
#[derive(Drop)]
pub struct Pass<B: Book> {
    pub(crate) seat: Seat<Option<B>, View<B::Entry>>,
    ghost idle: { seat.me.0.stage ≡ Idle },
    ghost compared: { seat.me.0.told ≡ [] },
    ghost none_out: { seat.me.1 ≡ [] },
    ghost stands: { Stands seat.me.0.seen seat.me.0.own },
    ghost live: { 1 ≤ seat.me.0.shares },
}
