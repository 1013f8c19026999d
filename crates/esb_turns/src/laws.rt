//! What follows from a pass, and from own entries that are all entries of the list. Each function's contract is the law, and its body does nothing.
ghost use Rattle.std.specs.Prelude.{◌≡◌, ◌≤◌, ℕ, true, false, List, [], ◌++◌, All, Contains, Some, length, slice_get};
ghost use mathlib.Core.List.{IsPrefix};
ghost use Rattle.esb_turns.specs.Views.{Stands, IsWhole};
ghost use Rattle.esb_turns.specs.Passes.{seen_by, own_of, shares_of};
ghost use Rattle.esb_turns.specs.OwnEntries.{Made, EachOwn, EachIn, AscendsFrom, gathered, gathered_own};

use crate::book::Book;
use crate::fact::{Fact, Kind};
use crate::pass::Pass;

/// A pass's own entries stand at their places in what it has seen, and it has at least one share.
pub fn own_entries_stand<B: Book>(_pass: &Pass<B>)
    ensures stand { Stands (seen_by _pass.now) (own_of _pass.now) }
    ensures share { 1 ≤ shares_of _pass.now }
{}

/// Own entries that are the whole of a list are as many as the list has entries, and each entry of the list is one of them.
pub fn each_entry_is_owned<E>()
    ensures count { (list : List E) (own : List (ℕ × E)) → IsWhole list own → length own ≡ length list }
    ensures each { (list : List E) (own : List (ℕ × E)) (k : ℕ) (entry : E) → IsWhole list own → slice_get list k ≡ Some entry → Contains own (k, entry) }
{}

/// A fact on own entries stays as the caller sees more.
pub fn facts_stay<E, F: Fact<E>>()
    ensures { (seen later : List E) (own : List (ℕ × E)) → IsPrefix seen later → Stands seen own → EachOwn F.holds seen own → EachOwn F.holds later own }
{}

/// A fact on own entries stays where the caller makes an entry for which it holds.
pub fn facts_of_a_new_entry<E, F: Fact<E>>()
    ensures { (entry : E) (seen : List E) (own : List (ℕ × E)) (seen' : List E) (own' : List (ℕ × E))
        → Made entry (λ before. F.holds before entry) seen own seen' own' → Stands seen own → EachOwn F.holds seen own → EachOwn F.holds seen' own' }
{}

/// A fact on the own entries of two passes is one on those of the two joined.
pub fn facts_of_both<E, F: Fact<E>>()
    ensures { (left right both : List E) (own more : List (ℕ × E)) → IsPrefix left both → IsPrefix right both → Stands left own → Stands right more
        → EachOwn F.holds left own → EachOwn F.holds right more → EachOwn F.holds both (own ++ more) }
{}

/// A fact on own entries that are the whole of a list holds of each entry of the list.
pub fn facts_hold_of_all<E, F: Fact<E>>()
    ensures { (list : List E) (own : List (ℕ × E)) → IsWhole list own → EachOwn F.holds list own → EachIn F.holds list }
{}

/// A fact that each own entry meets, if all entries before it do, holds of each entry once the own entries are the whole of the list.
pub fn facts_hold_by_induction<E, F: Fact<E>>()
    ensures { (list : List E) (own : List (ℕ × E)) → IsWhole list own → EachOwn (λ before entry. EachIn F.holds before → F.holds before entry) list own → EachIn F.holds list }
{}

/// The places of own entries go up, since a new one stands behind all that was seen.
pub fn places_go_up<E, F: Fact<E>>()
    ensures { (entry : E) (seen : List E) (own : List (ℕ × E)) (seen' : List E) (own' : List (ℕ × E))
        → Made entry (λ before. F.holds before entry) seen own seen' own' → Stands seen own → AscendsFrom 0 own → AscendsFrom 0 own' }
{}

/// What own entries give stays as the caller sees more.
pub fn items_stay<E, K: Kind<E>>()
    ensures { (seen later : List E) (own : List (ℕ × E)) → IsPrefix seen later → Stands seen own → gathered_own K.gives later own ≡ gathered_own K.gives seen own }
{}

/// A new own entry adds what it gives behind what the others give.
pub fn items_of_a_new_entry<E, F: Fact<E>, K: Kind<E>>()
    ensures { (entry : E) (seen : List E) (own : List (ℕ × E)) (seen' : List E) (own' : List (ℕ × E))
        → (made : Made entry (λ before. F.holds before entry) seen own seen' own') → Stands seen own
        → gathered_own K.gives seen' own' ≡ gathered_own K.gives seen own ++ K.gives made.before entry }
{}

/// Where all entries of a kind are one caller's own, what the whole list gives of that kind is what that caller's entries give, in its order.
pub fn entries_of_a_kind<E, K: Kind<E>>()
    ensures { (list : List E) (left own right : List (ℕ × E)) → IsWhole list (left ++ (own ++ right)) → AscendsFrom 0 own
        → All (λ p. K.is_of p.1 ≡ true) own → All (λ p. K.is_of p.1 ≡ false) left → All (λ p. K.is_of p.1 ≡ false) right
        → gathered K.gives [] list ≡ gathered_own K.gives list own }
{}
