//! Which lists of Arguments are FormalParameters too (ECMA-262, 14.2): a test of the tree, in one pass.

ghost use Rattle.std.specs.Prelude.{◌≡◌, ◌+◌, ◌<◌, length, drop};
ghost use Rattle.esb_grammar.specs.Kinds as kinds;
ghost use Rattle.esb_grammar.specs.Forms.{is_empty};
ghost use Rattle.esb_literal_laws.specs.ElementLists.{all_placed};
ghost use Rattle.esb_value_laws.specs.Covers as spec;
ghost use Rattle.esb_values.specs.Within.{inner, within, covers_element};

use esb_grammar::is_binding;
use esb_token::Kind;
use esb_tree::{Bracketed, Element, Elements, Expression, NextElement};

fn is_assign(kind: Kind) -> bool
    ensures { result ≡ kinds.is_assign kind }
{
    matches!(kind, Kind::Assign)
}

/// A name that may be bound.
#[tactic(auto, unfolding(esb_value_laws::specs::Covers::is_bound_name))]
fn is_bound_name(x: &Expression) -> bool
    ensures { result ≡ spec.is_bound_name x.now }
{
    match x {
        Expression::Primary(token) => is_binding(token.kind),
        _ => false,
    }
}

/// How many levels the parts of a node may have, and none where it may have no parts.
fn inner_levels(levels: usize) -> Option<usize>
    ensures { result ≡ inner levels }
{
    if levels == 0 { None } else { Some(levels - 1) }
}

fn is_none_behind(rest: &[NextElement]) -> bool
    ensures { result ≡ is_empty rest.now }
{
    match rest {
        [_, ..] => false,
        [] => true,
    }
}

/// Whether nothing stands behind one of a list.
fn is_last(rest: &[NextElement], turn: usize) -> bool
    requires { turn < length rest.now }
    ensures { result ≡ is_empty (drop (turn + 1) rest.now) }
{
    is_none_behind(&rest[turn + 1..])
}

/// A name or a pattern within so many levels, if any.
#[cycle(covers)]
fn covers_within(below: Option<usize>, x: &Expression) -> bool
    ensures { result ≡ within below x.now }
{
    match below {
        Some(levels) => covers_target(levels, x),
        None => false,
    }
}

/// What is bound, and maybe its default. A default is any value.
#[cycle(covers)]
#[tactic(auto, unfolding(esb_value_laws::specs::Covers::covers_binding))]
fn covers_binding(below: Option<usize>, x: &Expression) -> bool
    ensures { result ≡ spec.covers_binding (within below) x.now }
{
    match x {
        Expression::Assignment(target, sign, _) => {
            covers_within(below, target.get()) && is_assign(sign.kind)
        }
        _ => covers_within(below, x),
    }
}

/// An element of parameters and of a pattern in brackets.
#[cycle(covers)]
#[tactic(auto, unfolding(esb_value_laws::specs::Covers::covers_slot))]
fn covers_slot(below: Option<usize>, last: bool, x: &Element) -> bool
    ensures { result ≡ spec.covers_slot (within below) last x.now }
{
    match x {
        Element::Hole => true,
        Element::Value(x) => covers_binding(below, x),
        Element::Spread(_, x) => last && covers_within(below, x),
        _ => false,
    }
}

/// An element of a pattern in braces.
#[cycle(covers)]
#[tactic(auto, unfolding(esb_value_laws::specs::Covers::covers_property))]
fn covers_property(below: Option<usize>, last: bool, x: &Element) -> bool
    ensures { result ≡ spec.covers_property (within below) last x.now }
{
    match x {
        Element::Hole => true,
        Element::Shorthand(name) | Element::Initialized(name, _, _) => is_binding(name.kind),
        Element::Property(_, _, x) => covers_binding(below, x),
        Element::Spread(_, x) => last && is_bound_name(x),
        _ => false,
    }
}

#[cycle(covers)]
fn covers_element_of(braces: bool, below: Option<usize>, last: bool, x: &Element) -> bool
    ensures { result ≡ covers_element braces below last x.now }
{
    if braces {
        covers_property(below, last, x)
    } else {
        covers_slot(below, last, x)
    }
}

#[cycle(covers)]
fn rest_covers(braces: bool, below: Option<usize>, rest: &[NextElement]) -> bool
    ensures { result ≡ all_placed (covers_element braces below) rest.now }
{
    for turn in 0..rest.len() {
        let last = is_last(rest, turn);
        if !covers_element_of(braces, below, last, &rest[turn].element) {
            return false;
        }
    }
    true
}

#[cycle(covers)]
fn elements_cover(braces: bool, below: Option<usize>, list: &Elements) -> bool
    ensures { result ≡ spec.elements_cover (covers_element braces below) list.now }
{
    let rest = list.rest.as_slice();
    covers_element_of(braces, below, is_none_behind(rest), &list.first)
        && rest_covers(braces, below, rest)
}

/// A name or a pattern within so many levels.
#[cycle(covers)]
#[tactic(auto, unfolding(esb_value_laws::specs::Covers::list_covers), using(crate::proofs::Covering::target_at))]
fn covers_target(levels: usize, x: &Expression) -> bool
    ensures { result ≡ spec.covers_target levels x.now }
{
    let below = inner_levels(levels);
    match x {
        Expression::Primary(token) => is_binding(token.kind),
        Expression::ArrayLiteral(list) => elements_cover(false, below, &list.get().list),
        Expression::ObjectLiteral(list) => elements_cover(true, below, &list.get().list),
        _ => false,
    }
}

/// Whether a list of Arguments within so many levels is FormalParameters too (ECMA-262, 14.2).
#[tactic(auto, unfolding(esb_value_laws::specs::Covers::covers_parameters, esb_value_laws::specs::Covers::list_covers))]
pub fn covers_parameters(levels: usize, list: &Bracketed) -> bool
    ensures { result ≡ spec.covers_parameters levels list.now }
{
    elements_cover(false, Some(levels), &list.list)
}
