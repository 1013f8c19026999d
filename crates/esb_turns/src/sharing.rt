//! To split passes and to join them.
ghost use Rattle.std.specs.Prelude.{◌≡◌, ◌+◌, ◌-◌, ◌<◌, ◌≤◌, ◌⊎◌, [], ◌++◌};
ghost use mathlib.Core.List.{IsPrefix};
ghost use Rattle.esb_turns.specs.Passes.{seen_by, own_of, shares_of, lock_of, name_of, IsPassOf};

use crate::book::Book;
use crate::lock::TurnLock;
use crate::pass::Pass;
use crate::steps::{Amount, Both, Compare, Cut};
use std::marker::Brand;

impl<B: Book> TurnLock<B> {
    /// Hands some of a pass's shares to a second pass, which has seen as much and has no own entries.
    pub fn split(&self, pass: Pass<B>, right: u32) -> (Pass<B>, Pass<B>)
        requires lock { IsPassOf self.now pass }
        requires right { (1 ≤ right) × (right < shares_of pass) }
        ensures lock { IsPassOf self.now result.0 × IsPassOf self.now result.1 }
        ensures shares { (shares_of result.0 ≡ shares_of pass - right) × (shares_of result.1 ≡ right) }
        ensures seen { (seen_by result.0 ≡ seen_by pass) × (seen_by result.1 ≡ seen_by pass) }
        ensures own { (own_of result.0 ≡ own_of pass) × (own_of result.1 ≡ []) }
    {
        self.cut::<Brand>(pass, right)
    }

    fn cut<J: Amount>(&self, pass: Pass<B>, right: u32) -> (Pass<B>, Pass<B>)
        requires amount { right ≡ J.amount }
        requires lock { IsPassOf self.now pass }
        requires right { (1 ≤ right) × (right < shares_of pass) }
        ensures lock { IsPassOf self.now result.0 × IsPassOf self.now result.1 }
        ensures shares { (shares_of result.0 ≡ shares_of pass - right) × (shares_of result.1 ≡ right) }
        ensures seen { (seen_by result.0 ≡ seen_by pass) × (seen_by result.1 ≡ seen_by pass) }
        ensures own { (own_of result.0 ≡ own_of pass) × (own_of result.1 ≡ []) }
    {
        let _ = right;
        let Pass { mut seat } = pass;
        let other = self.table.shared.split_seat::<Cut<J>>(&mut seat);
        (Pass { seat }, Pass { seat: other })
    }

    /// Makes two passes one, which has seen what either has seen and has the own entries and the shares of both.
    pub fn join(&self, left: Pass<B>, right: Pass<B>) -> Pass<B>
        requires lock { IsPassOf self.now left × IsPassOf self.now right }
        ensures lock { IsPassOf self.now result }
        ensures shares { shares_of result ≡ shares_of left + shares_of right }
        ensures seen { IsPrefix (seen_by left) (seen_by result) × IsPrefix (seen_by right) (seen_by result) }
        ensures one { (seen_by result ≡ seen_by left) ⊎ (seen_by result ≡ seen_by right) }
        ensures own { own_of result ≡ own_of left ++ own_of right }
    {
        let Pass { mut seat } = left;
        let Pass { seat: other } = right;
        let shared = &self.table.shared;
        shared.join_seat::<Both>(&mut seat, other);
        shared.load::<Compare>(&mut seat, 0);
        Pass { seat }
    }
}
