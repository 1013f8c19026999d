//! The names of the lock's steps, and what each tells its caller.
ghost use Rattle.std.specs.Prelude.{ℕ};
ghost use Rattle.esb_turns.specs.Views.{fewer, partner, both, spent};
ghost use Rattle.esb_turns.specs.Steps.{Draws, Watches, PassesWith, Passes, Compares};

use crate::book::Book;
use crate::view::View;
use atomic_table::{Join, Play, Split};
use std::marker::{Brand, PhantomData};

/// The caller draws a ticket.
pub struct Draw;

impl<B: Book> Play<Option<B>, View<B::Entry>> for Draw {
    ghost then = { λ _. Draws };
}

/// The caller looks whether its ticket is called, and takes the slot if it is.
pub struct Watch;

impl<B: Book> Play<Option<B>, View<B::Entry>> for Watch {
    ghost then = { λ _. Watches B.entries B.is_at_rest };
}

/// The caller puts the slot back with one entry more in its book, and calls the next ticket.
pub struct PassWith;

impl<B: Book> Play<Option<B>, View<B::Entry>> for PassWith {
    ghost then = { λ _. PassesWith B.entries };
}

/// The caller puts the slot back as it was, and calls the next ticket.
pub struct PassOn;

impl<B: Book> Play<Option<B>, View<B::Entry>> for PassOn {
    ghost then = { λ _. Passes };
}

/// The caller compares what it has seen with what it was told, and keeps the longer.
pub struct Compare;

impl<B: Book> Play<Option<B>, View<B::Entry>> for Compare {
    ghost then = { λ _. Compares };
}

/// How many shares are cut off. Each call picks it.
pub trait Amount {
    ghost amount: { ℕ };
}

impl Amount for Brand {
    ghost amount = { 0 };
}

/// A pass is cut in two.
pub struct Cut<J> {
    amount: PhantomData<J>,
}

impl<E, J: Amount> Split<View<E>> for Cut<J> {
    ghost left = { fewer J.amount };

    ghost right = { partner J.amount };
}

/// Two passes become one.
pub struct Both;

impl<E> Join<View<E>> for Both {
    ghost both = { both };

    ghost spent = { spent };
}
