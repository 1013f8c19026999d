//! What may be said of an entry and of the list before it. These traits have no code, and a type that implements one has no values that matter.

/// A fact on an entry and on the list before it.
pub trait Fact<E> {
    ghost use Rattle.std.specs.Prelude.{List};

    ghost holds: { List E → E → Type 0 };
}

/// A kind of entries, and the items that an entry gives, which may depend on the list before it. Entries of other kinds give none.
pub trait Kind<E> {
    type Item;

    ghost use Rattle.std.specs.Prelude.{◌≡◌, List, [], Bool, false};

    ghost is_of: { E → Bool };

    ghost gives: { List E → E → List Self.Item };

    ghost others_give_none: { (before : List E) (entry : E) → is_of entry ≡ false → gives before entry ≡ [] };
}
