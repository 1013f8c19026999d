//! The rule that the lock's table keeps at each moment.
use crate::book::Book;
use crate::view::View;
use atomic_table::TableRule;
use std::marker::PhantomData;

/// Word 0 is the next ticket, word 1 the ticket that has the turn, and slot 0 holds the book. The key is the number of shares.
pub struct Turns<B> {
    book: PhantomData<B>,
}

impl<B: Book> TableRule<Option<B>, View<B::Entry>, u32> for Turns<B> {
    ghost use Rattle.esb_turns.specs.Rule.{InTurn};
    ghost use Rattle.esb_turns.specs.Views.{newcomer};

    ghost holds = { λ callers. InTurn B.entries B.is_at_rest callers };

    ghost first = { λ callers. newcomer callers };
}
