//! What a lock keeps.
ghost use Rattle.std.specs.Prelude.{◌≡◌, [], ◌∷◌, ◌++◌};

/// A value that stands for a list of entries, and may hold more beside it: room for further entries, or a machine whose steps the entries are.
pub trait Book: Drop + Send {
    type Entry;

    ghost use Rattle.std.specs.Prelude.{List};

    ghost entries: { Self → List Self.Entry };

    // It has room for this entry, and all that goes before the entry is done.
    ghost is_ready: { Self → Self.Entry → Type 0 };

    // It can be given to another caller.
    ghost is_at_rest: { Self → Type 0 };

    /// Appends the entry, for which the book is ready, and leaves the book at rest.
    fn add(&mut self, entry: Self::Entry)
        requires ready { is_ready self.old entry }
        ensures list { entries self.new ≡ entries self.old ++ entry ∷ [] }
        ensures rest { is_at_rest self.new };
}
