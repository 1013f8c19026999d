//! Names by the code points that they stand for.

ghost use Rattle.std.specs.Prelude.{◌≡◌, ◌<◌, ◌≤◌, ◌^◌, length, take, drop, min, nat_eq, IfOk};
ghost use Rattle.std.specs.Cmp.Lexicographic.{pointwise};
ghost use Rattle.std.specs.Vec.{vec_items};
ghost use Rattle.esb_names.specs.Names as spec;

use crate::points::{after, first_length, first_point};
use esb_base::{List, Memory};
use esb_token::Token;
use std::alloc::Global;

/// The bytes of a token.
pub fn bytes_of(text: &[u8], t: Token) -> &[u8]
    ensures { result.now ≡ spec.bytes_of text.now t }
{
    let rest = after(text, t.start.min(text.len()));
    let length = t.end.saturating_sub(t.start);
    &rest[..length.min(rest.len())]
}

/// Whether two names have the same code points.
#[tactic(auto, unfolding(crate::specs::Names::points))]
pub fn has_same_points(a: &[u8], b: &[u8]) -> bool
    ensures { result ≡ pointwise nat_eq (spec.points a.now) (spec.points b.now) }
{
    let mut i = 0;
    let mut j = 0;
    while i < a.len() {
        if j >= b.len() {
            return false;
        }
        let first = after(a, i);
        let second = after(b, j);
        let width = first_length(first);
        let other_width = first_length(second);
        if first_point(first) != first_point(second) {
            return false;
        }
        i += width;
        j += other_width;
    }
    j >= b.len()
}

/// Whether a name is written with an escape.
pub fn has_escape(name: &[u8]) -> bool
    ensures { result ≡ spec.has_escape name.now }
{
    for byte in name {
        if *byte == b'\\' {
            return true;
        }
    }
    false
}

/// Whether a token is this name, also where it is written with escapes.
#[tactic(auto, unfolding(crate::specs::Names::is_spelled))]
pub fn is_spelled(text: &[u8], word: &[u8], t: Token) -> bool
    ensures { result ≡ spec.is_spelled text.now word.now t }
{
    has_same_points(bytes_of(text, t), word)
}

/// Whether two tokens are the same name, also where one is written with escapes (ECMA-262, 11.6.1.2).
#[tactic(auto, unfolding(crate::specs::Names::is_same_name))]
pub fn is_same_name(text: &[u8], a: Token, b: Token) -> bool
    ensures { result ≡ spec.is_same_name text.now a b }
{
    has_same_points(bytes_of(text, a), bytes_of(text, b))
}

/// The code points of a name.
///
/// # Errors
/// Where memory was refused.
#[tactic(auto, unfolding(crate::specs::Names::points))]
pub fn points_of(alloc: Global, name: &[u8]) -> Result<Vec<u32>, Memory>
    ensures { IfOk result (λ list. vec_items list ≡ spec.points name.now) }
{
    let mut list = List::new(alloc);
    let mut at = 0;
    while at < name.len() {
        let rest = after(name, at);
        let width = first_length(rest);
        let point = first_point(rest);
        list.push(point)?;
        at += width;
    }
    Ok(list.into_vec())
}
