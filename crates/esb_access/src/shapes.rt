//! What links and what a chain begins with are on the outside.

ghost use Rattle.std.specs.Prelude.{◌≡◌, ◌&&◌, ◌||◌, not, false};
ghost use Rattle.esb_grammar.specs.Edges as edges;
ghost use Rattle.esb_reader.specs.Parts as parts;
ghost use Rattle.esb_access_laws.specs.Links as links;
ghost use Rattle.esb_access_laws.specs.Access as access;

use crate::kinds::is_super;
use esb_tree::{Expression, Link};

/// A NewExpression without arguments.
#[tactic(auto, unfolding(esb_access_laws::specs::Access::is_new_alone))]
pub fn is_new_alone(x: &Expression) -> bool
    ensures { result ≡ access.is_new_alone x.now }
{
    matches!(x, Expression::NewPlain(_, _))
}

/// The word `super`.
#[tactic(auto, unfolding(esb_access_laws::specs::Access::is_super_word))]
pub fn is_super_word(x: &Expression) -> bool
    ensures { result ≡ access.is_super_word x.now }
{
    match x {
        Expression::Primary(token) => is_super(token.kind),
        _ => false,
    }
}

/// A template.
#[tactic(auto, unfolding(esb_access_laws::specs::Links::is_template))]
fn is_template(link: &Link) -> bool
    ensures { result ≡ links.is_template link.now }
{
    matches!(link, Link::Tagged(_) | Link::TaggedTemplate(_))
}

/// What an OptionalChain begins with (12.3.9).
#[tactic(auto, unfolding(esb_grammar::specs::Edges::is_optional))]
fn is_optional(link: &Link) -> bool
    ensures { result ≡ edges.is_optional link.now }
{
    matches!(
        link,
        Link::OptionalDot(_, _) | Link::OptionalIndex(_, _, _, _) | Link::OptionalCall(_, _)
    )
}

/// What may stand behind `super` (12.3.7).
#[tactic(auto, unfolding(esb_grammar::specs::Edges::follows_super))]
fn follows_super(link: &Link) -> bool
    ensures { result ≡ edges.follows_super link.now }
{
    matches!(link, Link::Dot(_, _) | Link::Index(_, _, _) | Link::Call(_))
}

/// Whether a link may stand in a chain, in which an optional one stands before it or not.
fn may_follow(optional: bool, link: &Link) -> bool
    ensures { result ≡ not (optional && links.is_template link.now) }
{
    !(optional && is_template(link))
}

fn opens(optional: bool, link: &Link) -> bool
    ensures { result ≡ (optional || edges.is_optional link.now) }
{
    optional || is_optional(link)
}

/// No template stands in an OptionalChain (12.3.9).
fn templates_fit(list: &[Link]) -> bool
    ensures { result ≡ links.templates_fit false list.now }
{
    let mut optional = false;
    for turn in 0..list.len() {
        let link = &list[turn];
        if !may_follow(optional, link) {
            return false;
        }
        optional = opens(optional, link);
    }
    true
}

fn first_follows(list: &[Link]) -> bool
    ensures { result ≡ access.first_follows list.now }
{
    match list {
        [first, ..] => follows_super(first),
        [] => false,
    }
}

fn is_empty(list: &[Link]) -> bool
    ensures { result ≡ parts.is_empty list.now }
{
    match list {
        [] => true,
        [_, ..] => false,
    }
}

/// Whether a chain may have these links.
pub fn links_fit(object: &Expression, list: &[Link]) -> bool
    ensures { result ≡ access.links_fit object.now list.now }
{
    !is_empty(list) && templates_fit(list) && (!is_super_word(object) || first_follows(list))
}
