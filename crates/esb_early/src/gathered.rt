//! The names that parameters bind, in their order (BoundNames, ECMA-262, 13.3.1.2, 13.3.3.1, 14.1.3).

ghost use Rattle.std.specs.Prelude.{◌≡◌, [], ◌∷◌, if◌then◌else◌, map};
ghost use Rattle.esb_grammar.specs.Kinds as kinds;
ghost use Rattle.esb_early.specs.Gathered.{Gathers};
ghost use Rattle.esb_early.specs.Parameters.{joined};
ghost use Rattle.esb_early.specs.Rules as spec;

use esb_base::List;
use esb_grammar::is_binding;
use esb_token::Token;
use esb_tree::{Bracketed, Element, Elements, Expression, Link, NextElement};
use std::alloc::Global;

/// The names so far. Once memory was refused, they are not known.
#[derive(Drop)]
pub struct Names {
    pub list: List<Token>,
    pub refused: bool,
}

pub fn no_names(alloc: Global) -> Names
    ensures { result.list ≡ [] }
{
    Names {
        list: List::new(alloc),
        refused: false,
    }
}

#[tactic(auto, unfolding(crate::specs::Gathered::Gathers))]
fn gather_name(name: Token, names: &mut Names)
    ensures { Gathers (name ∷ []) names.old names.new }
{
    if names.list.push(name).is_err() {
        names.refused = true;
    }
}

/// An expression of one token, which may be a name.
fn gather_primary(t: Token, names: &mut Names)
    ensures { Gathers (if kinds.is_binding t.kind then t ∷ [] else []) names.old names.new }
{
    if is_binding(t.kind) {
        gather_name(t, names);
    }
}

/// A name, a pattern, either with a default, or what stands before the arrow of a function.
#[cycle(gather)]
pub fn gather_expression(x: &Expression, names: &mut Names)
    ensures { Gathers (spec.names_of_expression x.now) names.old names.new }
{
    match x {
        Expression::Primary(t) => gather_primary(*t, names),
        Expression::MetaProperty(_, _, _) => {}
        Expression::ArrayLiteral(list) => gather_bracketed(list.get(), names),
        Expression::ObjectLiteral(list) => gather_bracketed(list.get(), names),
        Expression::Parenthesized(list) => gather_bracketed(list.get(), names),
        Expression::TemplateLiteral(_) => {}
        Expression::FunctionExpression(_) => {}
        Expression::ClassExpression(_) => {}
        Expression::Member(_, links) => gather_links(links.as_slice(), names),
        Expression::New(_, _, _) => {}
        Expression::NewPlain(_, _) => {}
        Expression::ImportCall(_, _, _, _) => {}
        Expression::PrefixUpdate(_, _) => {}
        Expression::PostfixUpdate(_, _) => {}
        Expression::Unary(_, _) => {}
        Expression::Await(_, _) => {}
        Expression::Binary(_, _) => {}
        Expression::Conditional(_, _, _, _, _) => {}
        Expression::Assignment(target, _, _) => gather_expression(target.get(), names),
        Expression::Arrow(_, _, _) => {}
        Expression::AsyncArrow(_, _, _, _) => {}
        Expression::Yield(_) => {}
        Expression::YieldValue(_, _) => {}
        Expression::YieldEach(_, _, _) => {}
    }
}

/// The list of an `async` arrow function, behind `async`.
#[cycle(gather)]
pub fn gather_link(x: &Link, names: &mut Names)
    ensures { Gathers (spec.names_of_link x.now) names.old names.new }
{
    match x {
        Link::Dot(_, _) => {}
        Link::Index(_, _, _) => {}
        Link::Call(arguments) => gather_bracketed(arguments, names),
        Link::Tagged(_) => {}
        Link::TaggedTemplate(_) => {}
        Link::OptionalDot(_, _) => {}
        Link::OptionalIndex(_, _, _, _) => {}
        Link::OptionalCall(_, _) => {}
    }
}

/// An element of parameters or of a pattern.
#[cycle(gather)]
pub fn gather_element(x: &Element, names: &mut Names)
    ensures { Gathers (spec.names_of_element x.now) names.old names.new }
{
    match x {
        Element::Hole => {}
        Element::Value(x) => gather_expression(x, names),
        Element::Spread(_, x) => gather_expression(x, names),
        Element::Shorthand(name) => gather_name(*name, names),
        Element::Initialized(name, _, _) => gather_name(*name, names),
        Element::Property(_, _, x) => gather_expression(x, names),
        Element::MethodProperty(_) => {}
    }
}

#[cycle(gather)]
pub fn gather_bracketed(x: &Bracketed, names: &mut Names)
    ensures { Gathers (spec.names_of_bracketed x.now) names.old names.new }
{
    gather_elements(&x.list, names);
}

#[cycle(gather)]
pub fn gather_elements(x: &Elements, names: &mut Names)
    ensures { Gathers (spec.names_of_elements x.now) names.old names.new }
{
    gather_element(&x.first, names);
    gather_next_elements(x.rest.as_slice(), names);
}

#[cycle(gather)]
pub fn gather_next_element(x: &NextElement, names: &mut Names)
    ensures { Gathers (spec.names_of_next_element x.now) names.old names.new }
{
    gather_element(&x.element, names);
}

#[cycle(gather)]
fn gather_links(items: &[Link], names: &mut Names)
    ensures { Gathers (joined (map (λ f. f.names) (map spec.facts_of_link items.now))) names.old names.new }
{
    for item in items {
        gather_link(item, names);
    }
}

#[cycle(gather)]
fn gather_next_elements(items: &[NextElement], names: &mut Names)
    ensures { Gathers (joined (map (λ f. f.names) (map spec.facts_of_next_element items.now))) names.old names.new }
{
    for item in items {
        gather_next_element(item, names);
    }
}
