//! Whether what is bound may stand where it does (ECMA-262, 13.3.1, 13.3.2, 13.7.5).

ghost use Rattle.std.specs.Prelude.{◌≡◌};
ghost use Rattle.esb_grammar.specs.Edges as edges;
ghost use Rattle.esb_grammar.specs.Forms as forms;
ghost use Rattle.esb_statement_laws.specs.Declarations as declarations;
ghost use Rattle.esb_statement_laws.specs.Loops as loops;
ghost use Rattle.esb_tree.specs.declared.patterns.Element.{out-Element};
ghost use Rattle.esb_tree.specs.declared.patterns.Elements.{out-Elements};

use esb_tree::{Element, Elements, Expression, NextElement};

/// A pattern alone, which has no value.
#[tactic(auto, unfolding(esb_statement_laws::specs::Declarations::is_pattern))]
fn is_pattern(x: &Expression) -> bool
    ensures { result ≡ declarations.is_pattern x.now }
{
    matches!(
        x,
        Expression::ArrayLiteral(_) | Expression::ObjectLiteral(_)
    )
}

/// A binding that is no pattern without a value.
#[tactic(auto, unfolding(esb_statement_laws::specs::Declarations::is_bound))]
fn is_bound(element: &Element) -> bool
    ensures { result ≡ declarations.is_bound element.now }
{
    match element {
        Element::Value(x) => !is_pattern(x),
        _ => false,
    }
}

fn all_bound(rest: &[NextElement]) -> bool
    ensures { result ≡ declarations.all_bound rest.now }
{
    for turn in 0..rest.len() {
        if !is_bound(&rest[turn].element) {
            return false;
        }
    }
    true
}

/// Whether each pattern of a declaration has a value.
pub fn list_bound(list: &Elements) -> bool
    ensures { result ≡ loops.list_bound list.now }
{
    is_bound(&list.first) && all_bound(list.rest.as_slice())
}

fn is_empty(rest: &[NextElement]) -> bool
    ensures { result ≡ forms.is_empty rest.now }
{
    match rest {
        [] => true,
        _ => false,
    }
}

fn is_valueless(x: &Expression) -> bool
    ensures { result ≡ loops.valueless_layer (Rattle.esb_tree.specs.declared.expressions.Expression.out-Expression x.now) }
{
    !matches!(x, Expression::Assignment(_, _, _))
}

/// What is bound, without a value.
fn is_target(element: &Element) -> bool
    ensures { result ≡ loops.valueless (edges.value_layer (out-Element element.now)) }
{
    match element {
        Element::Value(x) => is_valueless(x),
        _ => false,
    }
}

/// One binding without a value: a ForBinding (13.7.5).
pub fn one_target(list: &Elements) -> bool
    ensures { result ≡ loops.one_target list.now }
{
    is_empty(list.rest.as_slice()) && is_target(&list.first)
}
