//! Classes of tokens, and the parameters of what stands in statements.

ghost use Rattle.std.specs.Prelude.{◌≡◌};
ghost use Rattle.esb_grammar.specs.Contexts as contexts;
ghost use Rattle.esb_grammar.specs.Grammar as grammar;
ghost use Rattle.esb_grammar.specs.Kinds as kinds;
ghost use Rattle.esb_statement_laws.specs.Items as items;
ghost use Rattle.esb_statement_laws.specs.Marks as marks;

use esb_grammar::{Context, is_binding, is_reference};
use esb_token::{Kind, Token};

/// The parameters of what stands in brackets (5.1.5).
pub fn inside(context: Context) -> Context
    ensures { result ≡ contexts.inside context }
{
    Context {
        has_in: true,
        has_yield: context.has_yield,
        has_await: context.has_await,
    }
}

/// The parameters of what stands first in the head of a `for` (13.7).
pub fn without_in(context: Context) -> Context
    ensures { result ≡ contexts.without_in context }
{
    Context {
        has_in: false,
        has_yield: context.has_yield,
        has_await: context.has_await,
    }
}

pub fn is_comma(kind: Kind) -> bool
    ensures { result ≡ kinds.is_comma kind }
{
    matches!(kind, Kind::Comma)
}

pub fn is_semicolon(kind: Kind) -> bool
    ensures { result ≡ kinds.is_semicolon kind }
{
    matches!(kind, Kind::Semicolon)
}

pub fn is_right_brace(kind: Kind) -> bool
    ensures { result ≡ kinds.is_right_brace kind }
{
    matches!(kind, Kind::RightBrace)
}

pub(crate) fn is_left_brace(kind: Kind) -> bool
    ensures { result ≡ kinds.is_left_brace kind }
{
    matches!(kind, Kind::LeftBrace)
}

pub(crate) fn is_end(kind: Kind) -> bool
    ensures { result ≡ kinds.is_end kind }
{
    matches!(kind, Kind::End)
}

pub(crate) fn is_assign(kind: Kind) -> bool
    ensures { result ≡ kinds.is_assign kind }
{
    matches!(kind, Kind::Assign)
}

pub(crate) fn is_let(kind: Kind) -> bool
    ensures { result ≡ kinds.is_let kind }
{
    matches!(kind, Kind::Let)
}

pub fn is_function(kind: Kind) -> bool
    ensures { result ≡ kinds.is_function kind }
{
    matches!(kind, Kind::Function)
}

/// The operators of UpdateExpression (12.4).
pub(crate) fn is_update(kind: Kind) -> bool
    ensures { result ≡ kinds.is_update kind }
{
    matches!(kind, Kind::PlusPlus | Kind::MinusMinus)
}

/// What goes on with a chain of members and calls (12.3).
pub(crate) fn begins_link(kind: Kind) -> bool
    ensures { result ≡ kinds.begins_link kind }
{
    matches!(
        kind,
        Kind::LeftParenthesis
            | Kind::LeftBracket
            | Kind::Dot
            | Kind::QuestionDot
            | Kind::TemplateWhole
            | Kind::TemplateHead
    )
}

pub(crate) fn is_colon(kind: Kind) -> bool
    ensures { result ≡ marks.is_colon kind }
{
    matches!(kind, Kind::Colon)
}

pub fn is_else(kind: Kind) -> bool
    ensures { result ≡ marks.is_else kind }
{
    matches!(kind, Kind::Else)
}

pub fn is_if_word(kind: Kind) -> bool
    ensures { result ≡ marks.is_if_word kind }
{
    matches!(kind, Kind::If)
}

pub fn is_case(kind: Kind) -> bool
    ensures { result ≡ marks.is_case kind }
{
    matches!(kind, Kind::Case)
}

/// What begins a clause of `switch` (13.12).
pub fn is_clause(kind: Kind) -> bool
    ensures { result ≡ marks.is_clause kind }
{
    matches!(kind, Kind::Case | Kind::Default)
}

pub fn is_catch(kind: Kind) -> bool
    ensures { result ≡ marks.is_catch kind }
{
    matches!(kind, Kind::Catch)
}

pub fn is_finally(kind: Kind) -> bool
    ensures { result ≡ marks.is_finally kind }
{
    matches!(kind, Kind::Finally)
}

pub fn is_left_parenthesis(kind: Kind) -> bool
    ensures { result ≡ marks.is_parenthesis kind }
{
    matches!(kind, Kind::LeftParenthesis)
}

pub fn is_in(kind: Kind) -> bool
    ensures { result ≡ marks.is_in kind }
{
    matches!(kind, Kind::In)
}

pub fn is_var(kind: Kind) -> bool
    ensures { result ≡ items.is_var kind }
{
    matches!(kind, Kind::Var)
}

/// LetOrConst (13.3.1).
pub fn is_lexical(kind: Kind) -> bool
    ensures { result ≡ kinds.is_lexical kind }
{
    matches!(kind, Kind::Let | Kind::Const)
}

/// `var`, `let` or `const`.
pub fn is_variable(kind: Kind) -> bool
    ensures { result ≡ grammar.is_variable kind }
{
    matches!(kind, Kind::Var | Kind::Let | Kind::Const)
}

/// `await` where it is an operator.
pub fn is_await_in(context: Context, kind: Kind) -> bool
    ensures { result ≡ grammar.is_await_in context kind }
{
    matches!(kind, Kind::Await) && context.has_await
}

/// What ends each expression, wherever it stands.
pub fn ends_expression(kind: Kind) -> bool
    ensures { result ≡ marks.ends_expression kind }
{
    matches!(
        kind,
        Kind::RightParenthesis
            | Kind::RightBracket
            | Kind::RightBrace
            | Kind::Semicolon
            | Kind::Colon
            | Kind::End
    )
}

/// What BindingIdentifier and BindingPattern begin with (12.1, 13.3.3).
pub fn begins_target(kind: Kind) -> bool
    ensures { result ≡ marks.begins_target kind }
{
    match kind {
        Kind::LeftBracket | Kind::LeftBrace => true,
        _ => is_binding(kind),
    }
}

/// What a StatementListItem may begin with (13.2).
pub fn begins_item(kind: Kind) -> bool
    ensures { result ≡ marks.begins_item kind }
{
    !matches!(
        kind,
        Kind::Else
            | Kind::RightBrace
            | Kind::Case
            | Kind::Default
            | Kind::End
            | Kind::Colon
            | Kind::Catch
            | Kind::Finally
    )
}

/// A label behind `break` or `continue`, on their line (13.8, 13.9).
pub fn is_label(context: Context, token: Token) -> bool
    ensures { result ≡ marks.is_label context token }
{
    is_reference(context, token.kind) && !token.after_line
}

/// What stands behind a `return` without an expression (13.10).
pub fn returns_nothing(token: Token) -> bool
    ensures { result ≡ marks.returns_nothing token }
{
    token.after_line || is_semicolon(token.kind) || is_right_brace(token.kind) || is_end(token.kind)
}
