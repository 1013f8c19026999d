//! To enter a lock.
ghost use Rattle.std.specs.Prelude.{◌≡◌};
ghost use mathlib.Core.List.{IsPrefix};
ghost use Rattle.esb_turns.specs.Passes.{seen_by, own_of, shares_of, seen_in, own_in, shares_within, lock_in, book_in, name_of, IsPassOf};

use crate::book::Book;
use crate::held::Held;
use crate::lock::TurnLock;
use crate::pass::Pass;
use crate::steps::{Draw, Watch};
use crossbeam_utils::Backoff;
use std::sync::Wait;

impl<B: Book> TurnLock<B> {
    /// Draws a ticket, waits until it is called, and takes the book.
    ///
    /// The book is at rest, and its list is the whole list of the lock, which begins with all that the pass had seen. The call may wait forever: nothing says
    /// that the callers in front leave.
    pub fn enter(&self, rt: &impl Wait, pass: Pass<B>) -> Held<'_, B>
        requires lock { IsPassOf self.now pass }
        ensures rest { B.is_at_rest (book_in result) }
        ensures list { B.entries (book_in result) ≡ seen_in result }
        ensures seen { IsPrefix (seen_by pass) (seen_in result) }
        ensures own { own_in result ≡ own_of pass }
        ensures shares { shares_within result ≡ shares_of pass }
        ensures lock { lock_in result ≡ name_of self.now }
    {
        let Pass { mut seat } = pass;
        let shared = &self.table.shared;
        let ticket = shared.fetch_add::<Draw>(&mut seat, 0, 1);
        let backoff = Backoff::new();
        for _ in rt.forever() {
            let called = shared.load::<Watch>(&mut seat, 1);
            if called == ticket {
                let Some(book) = shared.exchange(&mut seat, 0, None) else {
                    unreachable!()
                };
                return Held {
                    lock: self,
                    seat,
                    book,
                };
            }
            backoff.snooze();
        }
        unreachable!()
    }
}
