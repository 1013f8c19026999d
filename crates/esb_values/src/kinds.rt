//! Classes of tokens.

ghost use Rattle.std.specs.Prelude.{◌≡◌};
ghost use Rattle.esb_token.specs.Goals as goals;
ghost use Rattle.esb_grammar.specs.Grammar as grammar;
ghost use Rattle.esb_grammar.specs.Kinds as kinds;
ghost use Rattle.esb_access_laws.specs.Links as links;
ghost use Rattle.esb_expression_laws.specs.Leaves as leaves;
ghost use Rattle.esb_operator_laws.specs.Unary as unary;
ghost use Rattle.esb_first_tokens.specs.First as first;
ghost use Rattle.esb_value_laws.specs.Arrows as arrows;
ghost use Rattle.esb_value_laws.specs.Yields as yields;
ghost use Rattle.esb_assignment_laws.specs.Values as values;

use esb_grammar::{Context, is_binding, is_literal, is_reference};
use esb_token::{Kind, Token};
use esb_tree::is_unary;

fn is_star(kind: Kind) -> bool
    ensures { result ≡ kinds.is_star kind }
{
    matches!(kind, Kind::Star)
}

pub fn is_left_parenthesis(kind: Kind) -> bool
    ensures { result ≡ links.is_left_parenthesis kind }
{
    matches!(kind, Kind::LeftParenthesis)
}

pub fn is_left_brace(kind: Kind) -> bool
    ensures { result ≡ kinds.is_left_brace kind }
{
    matches!(kind, Kind::LeftBrace)
}

/// What a regular expression shows where an operator may stand.
fn is_division(kind: Kind) -> bool
    ensures { result ≡ goals.is_division kind }
{
    matches!(kind, Kind::Slash | Kind::SlashAssign)
}

fn is_leaf(context: Context, kind: Kind) -> bool
    ensures { result ≡ leaves.is_leaf context kind }
{
    is_reference(context, kind) || is_literal(kind)
}

fn opens_primary(kind: Kind) -> bool
    ensures { result ≡ first.opens_primary kind }
{
    matches!(
        kind,
        Kind::LeftParenthesis
            | Kind::LeftBracket
            | Kind::LeftBrace
            | Kind::TemplateHead
            | Kind::Function
            | Kind::Class
    )
}

fn opens_left(kind: Kind) -> bool
    ensures { result ≡ first.opens_left kind }
{
    matches!(kind, Kind::New | Kind::Import | Kind::Super)
}

fn is_update(kind: Kind) -> bool
    ensures { result ≡ kinds.is_update kind }
{
    matches!(kind, Kind::PlusPlus | Kind::MinusMinus)
}

fn is_await_in(context: Context, kind: Kind) -> bool
    ensures { result ≡ grammar.is_await_in context kind }
{
    match kind {
        Kind::Await => context.has_await,
        _ => false,
    }
}

fn is_prefix(context: Context, kind: Kind) -> bool
    ensures { result ≡ unary.is_prefix context kind }
{
    is_update(kind) || is_unary(kind) || is_await_in(context, kind)
}

fn is_yield_in(context: Context, kind: Kind) -> bool
    ensures { result ≡ first.is_yield_in context kind }
{
    match kind {
        Kind::Yield => context.has_yield,
        _ => false,
    }
}

fn begins_left(context: Context, kind: Kind) -> bool
    ensures { result ≡ first.begins_left context kind }
{
    is_leaf(context, kind) || opens_primary(kind) || opens_left(kind)
}

fn begins_value(context: Context, kind: Kind) -> bool
    ensures { result ≡ first.begins_value context kind }
{
    begins_left(context, kind) || is_prefix(context, kind) || is_yield_in(context, kind)
}

/// What an AssignmentExpression in any context begins with, as it is seen where an operator may stand.
fn shows_value(kind: Kind) -> bool
    ensures { result ≡ first.shows (first.begins_value values.anywhere) kind }
{
    let anywhere = Context {
        has_in: true,
        has_yield: true,
        has_await: true,
    };
    is_division(kind) || begins_value(anywhere, kind)
}

/// `yield`, where it is an operator (14.4).
pub fn is_yield(context: Context, token: Token) -> bool
    ensures { result ≡ yields.is_yield context token }
{
    is_yield_in(context, token.kind)
}

pub fn is_star_on_line(token: Token) -> bool
    ensures { result ≡ yields.is_star_on_line token }
{
    is_star(token.kind) && !token.after_line
}

/// What a `yield` takes on its line: a value, or `*` and a value.
pub fn goes_on_line(token: Token) -> bool
    ensures { result ≡ values.goes_on_line token }
{
    !token.after_line && (is_star(token.kind) || shows_value(token.kind))
}

fn is_arrow(kind: Kind) -> bool
    ensures { result ≡ values.is_arrow kind }
{
    matches!(kind, Kind::Arrow)
}

/// `=>` on the line of what stands before it (14.2).
pub fn is_arrow_on_line(token: Token) -> bool
    ensures { result ≡ arrows.is_arrow_on_line token }
{
    is_arrow(token.kind) && !token.after_line
}

/// A name that may be bound, on the line of what stands before it.
pub fn is_name_on_line(token: Token) -> bool
    ensures { result ≡ arrows.is_name_on_line token }
{
    is_binding(token.kind) && !token.after_line
}

pub fn refers(context: Context, token: Token) -> bool
    ensures { result ≡ arrows.refers context token }
{
    is_reference(context, token.kind)
}
