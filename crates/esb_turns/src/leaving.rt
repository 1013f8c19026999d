//! What a caller does in its turn, and how the turn ends.
ghost use Rattle.std.specs.Prelude.{◌≡◌, [], ◌∷◌, ◌++◌, length};
ghost use Rattle.std.specs.Borrow.{Lends, sem};
ghost use mir.Syntax.{named};
ghost use Rattle.esb_turns.specs.contracts.held.Held.{the_row};
ghost use Rattle.esb_turns.specs.Passes.{seen_by, own_of, shares_of, lock_of, seen_in, own_in, shares_within, lock_in, book_in, with_book};

use crate::book::Book;
use crate::held::Held;
use crate::pass::Pass;
use crate::steps::{PassOn, PassWith};

impl<'a, B: Book> Held<'a, B> {
    /// The book, which is this caller's alone until it leaves.
    pub fn book(&mut self) -> &mut B
        ensures* writes_back { sem 𝓛 (Lends (the_row (record { mir = named 1; lft = [] }) B.row B.Entry.row B.Book) B.row self.entry result (with_book self.old)) }
        ensures value { result.now ≡ book_in self.old }
    {
        &mut self.book
    }

    /// Adds an entry, for which the book is ready, and passes the turn on. The entry stands behind all that was seen, and is the caller's own.
    pub fn leave_with(self, entry: B::Entry) -> Pass<B>
        requires ready { B.is_ready (book_in self) entry }
        requires list { B.entries (book_in self) ≡ seen_in self }
        ensures seen { seen_by result ≡ seen_in self.entry ++ entry ∷ [] }
        ensures own { own_of result ≡ own_in self.entry ++ (length (seen_in self.entry), entry) ∷ [] }
        ensures shares { shares_of result ≡ shares_within self.entry }
        ensures lock { lock_of result ≡ lock_in self.entry }
    {
        let Held {
            lock,
            mut seat,
            mut book,
        } = self;
        book.add(entry);
        let full = Some(book);
        let shared = &lock.table.shared;
        drop(shared.exchange(&mut seat, 0, full));
        shared.fetch_add::<PassWith>(&mut seat, 1, 1);
        Pass { seat }
    }

    /// Passes the turn on with no entry. The book is at rest, and its list is as it was on entering.
    pub fn leave(self) -> Pass<B>
        requires rest { B.is_at_rest (book_in self) }
        requires list { B.entries (book_in self) ≡ seen_in self }
        ensures seen { seen_by result ≡ seen_in self.entry }
        ensures own { own_of result ≡ own_in self.entry }
        ensures shares { shares_of result ≡ shares_within self.entry }
        ensures lock { lock_of result ≡ lock_in self.entry }
    {
        let Held {
            lock,
            mut seat,
            book,
        } = self;
        let shared = &lock.table.shared;
        drop(shared.exchange(&mut seat, 0, Some(book)));
        shared.fetch_add::<PassOn>(&mut seat, 1, 1);
        Pass { seat }
    }
}
