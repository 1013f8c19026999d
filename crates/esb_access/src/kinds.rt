//! Classes of tokens, and the parameters of what stands in brackets.

ghost use Rattle.std.specs.Prelude.{◌≡◌};
ghost use Rattle.esb_grammar.specs.Contexts as contexts;
ghost use Rattle.esb_grammar.specs.Kinds as kinds;
ghost use Rattle.esb_access_laws.specs.Links as links;
ghost use Rattle.esb_access_laws.specs.Access as access;

use esb_grammar::Context;
use esb_token::Kind;

/// The parameters of what stands in brackets (5.1.5).
pub fn inside(context: Context) -> Context
    ensures { result ≡ contexts.inside context }
{
    Context {
        has_in: true,
        has_yield: context.has_yield,
        has_await: context.has_await,
    }
}

pub fn is_dot(kind: Kind) -> bool
    ensures { result ≡ links.is_dot kind }
{
    matches!(kind, Kind::Dot)
}

pub fn is_left_bracket(kind: Kind) -> bool
    ensures { result ≡ kinds.is_left_bracket kind }
{
    matches!(kind, Kind::LeftBracket)
}

pub fn is_left_parenthesis(kind: Kind) -> bool
    ensures { result ≡ links.is_left_parenthesis kind }
{
    matches!(kind, Kind::LeftParenthesis)
}

/// A template without substitutions.
pub fn is_whole(kind: Kind) -> bool
    ensures { result ≡ links.is_whole kind }
{
    matches!(kind, Kind::TemplateWhole)
}

/// What a template with substitutions begins with.
pub fn is_head(kind: Kind) -> bool
    ensures { result ≡ links.is_head kind }
{
    matches!(kind, Kind::TemplateHead)
}

pub fn is_new(kind: Kind) -> bool
    ensures { result ≡ access.is_new kind }
{
    matches!(kind, Kind::New)
}

pub fn is_import(kind: Kind) -> bool
    ensures { result ≡ access.is_import kind }
{
    matches!(kind, Kind::Import)
}

pub fn is_super(kind: Kind) -> bool
    ensures { result ≡ access.is_super kind }
{
    matches!(kind, Kind::Super)
}

/// What goes on with a chain of members and calls (12.3).
fn begins_link(kind: Kind) -> bool
    ensures { result ≡ kinds.begins_link kind }
{
    matches!(
        kind,
        Kind::LeftParenthesis
            | Kind::LeftBracket
            | Kind::Dot
            | Kind::QuestionDot
            | Kind::TemplateWhole
            | Kind::TemplateHead
    )
}

/// What goes on with a MemberExpression (12.3).
fn begins_member(kind: Kind) -> bool
    ensures { result ≡ links.begins_member kind }
{
    matches!(
        kind,
        Kind::Dot | Kind::LeftBracket | Kind::TemplateWhole | Kind::TemplateHead
    )
}

/// What goes on with a chain, in which there may be calls or not.
pub fn begins_link_in(calls: bool, kind: Kind) -> bool
    ensures { result ≡ links.begins_link_in calls kind }
{
    if calls {
        begins_link(kind)
    } else {
        begins_member(kind)
    }
}
