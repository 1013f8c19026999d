//! Where elements may stand in a list.

ghost use Rattle.std.specs.Prelude.{◌≡◌, not, ◌||◌};
ghost use Rattle.esb_grammar.specs.Forms as forms;
ghost use Rattle.esb_expression_laws.specs.Lists as lists;
ghost use Rattle.esb_literal_laws.specs.Bindings as bindings;
ghost use Rattle.esb_literals.specs.Pieces as pieces;

use crate::kinds::takes_hole;
use esb_base::List;
use esb_grammar::Form;
use esb_nodes::Discard;
use esb_reader::Node;
use esb_tree::{Element, Elements, NextElement};

#[tactic(auto, unfolding(esb_expression_laws::specs::Lists::is_hole))]
fn is_hole(element: &Element) -> bool
    ensures { result ≡ lists.is_hole element.now }
{
    matches!(element, Element::Hole)
}

#[tactic(auto, unfolding(esb_literal_laws::specs::Bindings::is_rest))]
fn is_rest(element: &Element) -> bool
    ensures { result ≡ bindings.is_rest element.now }
{
    matches!(element, Element::Spread(_, _))
}

fn is_empty(rest: &[NextElement]) -> bool
    ensures { result ≡ forms.is_empty rest.now }
{
    match rest {
        [] => true,
        _ => false,
    }
}

/// Whether an element may stand in a place of a list, which is the last or not.
fn fits_place(form: Form, last: bool, element: &Element) -> bool
    ensures { result ≡ lists.fits_place form last element.now }
{
    !is_hole(element) || takes_hole(form, last)
}

/// Whether an element is no rest, or the last.
fn rest_fits(last: bool, element: &Element) -> bool
    ensures { result ≡ (not (bindings.is_rest element.now) || last) }
{
    !is_rest(element) || last
}

/// Whether each element behind the first may stand in its place.
fn all_fit(form: Form, rest: &[NextElement]) -> bool
    ensures { result ≡ lists.all_fit form rest.now }
{
    for turn in 0..rest.len() {
        if !fits_place(form, turn + 1 == rest.len(), &rest[turn].element) {
            return false;
        }
    }
    true
}

/// Whether none of them is a rest but the last.
fn rests_last(rest: &[NextElement]) -> bool
    ensures { result ≡ bindings.rests_last rest.now }
{
    for turn in 0..rest.len() {
        if !rest_fits(turn + 1 == rest.len(), &rest[turn].element) {
            return false;
        }
    }
    true
}

/// Whether the elements of a list may stand in their places.
fn list_fits(form: Form, first: &Element, rest: &[NextElement]) -> bool
    ensures { result ≡ lists.list_fits form (first.now, rest.now) }
{
    fits_place(form, is_empty(rest), first) && all_fit(form, rest)
}

/// A list of its elements, where they may stand in their places.
pub fn make_list(
    form: Form,
    first: Node<Element>,
    rest: Node<List<NextElement>>,
) -> Option<Node<Elements>>
    ensures { result ≡ pieces.list_of_parts form first rest }
{
    let fits = list_fits(form, &first.tree, rest.tree.as_slice());
    if fits {
        let levels = first.levels.max(rest.levels);
        let first = first.tree;
        let rest = rest.tree;
        let tree = Elements { first, rest };
        Some(Node { tree, levels })
    } else {
        first.discard();
        rest.discard();
        None
    }
}

/// Whether those of a list of bindings may, where a rest is the last.
fn bindings_fit(form: Form, first: &Element, rest: &[NextElement]) -> bool
    ensures { result ≡ bindings.bindings_fit form (first.now, rest.now) }
{
    list_fits(form, first, rest) && rest_fits(is_empty(rest), first) && rests_last(rest)
}

/// A list of bindings, where they may stand in their places and a rest is the last.
pub fn make_bound_list(
    form: Form,
    first: Node<Element>,
    rest: Node<List<NextElement>>,
) -> Option<Node<Elements>>
    ensures { result ≡ pieces.list_of_bindings form first rest }
{
    let fits = bindings_fit(form, &first.tree, rest.tree.as_slice());
    if fits {
        let levels = first.levels.max(rest.levels);
        let first = first.tree;
        let rest = rest.tree;
        let tree = Elements { first, rest };
        Some(Node { tree, levels })
    } else {
        first.discard();
        rest.discard();
        None
    }
}
