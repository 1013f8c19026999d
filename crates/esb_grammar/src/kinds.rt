//! Classes of tokens by their kinds.

ghost use Rattle.std.specs.Prelude.{◌≡◌};
ghost use Rattle.esb_grammar.specs.Kinds as spec;

use crate::context::Context;
use esb_token::Kind;
use esb_tree::{is_assignment, level_of};

/// Identifier (12.1): a name, or a word that only strict rules reserve.
pub fn is_identifier(kind: Kind) -> bool
    ensures { result ≡ spec.is_identifier kind }
{
    matches!(
        kind,
        Kind::Name
            | Kind::Implements
            | Kind::Interface
            | Kind::Let
            | Kind::Package
            | Kind::Private
            | Kind::Protected
            | Kind::Public
            | Kind::Static
    )
}

/// IdentifierReference and LabelIdentifier (12.1): also `yield` and `await` where they are no operators.
pub fn is_reference(context: Context, kind: Kind) -> bool
    ensures { result ≡ spec.is_reference context kind }
{
    match kind {
        Kind::Yield => !context.has_yield,
        Kind::Await => !context.has_await,
        _ => is_identifier(kind),
    }
}

/// BindingIdentifier (12.1).
pub fn is_binding(kind: Kind) -> bool
    ensures { result ≡ spec.is_binding kind }
{
    match kind {
        Kind::Yield | Kind::Await => true,
        _ => is_identifier(kind),
    }
}

/// `this`, Literal, RegularExpressionLiteral, and a template without substitutions (12.2).
pub fn is_literal(kind: Kind) -> bool
    ensures { result ≡ spec.is_literal kind }
{
    matches!(
        kind,
        Kind::This
            | Kind::Null
            | Kind::True
            | Kind::False
            | Kind::Number
            | Kind::BigInt
            | Kind::Text
            | Kind::RegExp
            | Kind::TemplateWhole
    )
}

/// A reserved word of statements (11.6.2).
fn is_statement_word(kind: Kind) -> bool
    ensures { result ≡ spec.is_statement_word kind }
{
    matches!(
        kind,
        Kind::Break
            | Kind::Case
            | Kind::Catch
            | Kind::Continue
            | Kind::Debugger
            | Kind::Default
            | Kind::Do
            | Kind::Else
            | Kind::Finally
            | Kind::For
            | Kind::If
            | Kind::Return
            | Kind::Switch
            | Kind::Throw
            | Kind::Try
            | Kind::While
            | Kind::With
    )
}

/// A reserved word of declarations.
fn is_declaration_word(kind: Kind) -> bool
    ensures { result ≡ spec.is_declaration_word kind }
{
    matches!(
        kind,
        Kind::Class
            | Kind::Const
            | Kind::Enum
            | Kind::Export
            | Kind::Extends
            | Kind::Function
            | Kind::Import
            | Kind::Let
            | Kind::Static
            | Kind::Var
    )
}

/// A reserved word of expressions.
fn is_expression_word(kind: Kind) -> bool
    ensures { result ≡ spec.is_expression_word kind }
{
    matches!(
        kind,
        Kind::Await
            | Kind::Delete
            | Kind::False
            | Kind::In
            | Kind::Instanceof
            | Kind::New
            | Kind::Null
            | Kind::Super
            | Kind::This
            | Kind::True
            | Kind::Typeof
            | Kind::Void
            | Kind::Yield
    )
}

/// A word that strict rules alone reserve.
fn is_strict_word(kind: Kind) -> bool
    ensures { result ≡ spec.is_strict_word kind }
{
    matches!(
        kind,
        Kind::Implements
            | Kind::Interface
            | Kind::Package
            | Kind::Private
            | Kind::Protected
            | Kind::Public
    )
}

/// IdentifierName (11.6): a name or any reserved word.
pub fn is_identifier_name(kind: Kind) -> bool
    ensures { result ≡ spec.is_identifier_name kind }
{
    match kind {
        Kind::Name => true,
        _ => {
            is_statement_word(kind)
                || is_declaration_word(kind)
                || is_expression_word(kind)
                || is_strict_word(kind)
        }
    }
}

/// LiteralPropertyName (12.2.6).
pub fn is_property_word(kind: Kind) -> bool
    ensures { result ≡ spec.is_property_word kind }
{
    match kind {
        Kind::Text | Kind::Number | Kind::BigInt => true,
        _ => is_identifier_name(kind),
    }
}

/// What goes on with a chain of members and calls (12.3).
fn begins_link(kind: Kind) -> bool
    ensures { result ≡ spec.begins_link kind }
{
    matches!(
        kind,
        Kind::LeftParenthesis
            | Kind::LeftBracket
            | Kind::Dot
            | Kind::QuestionDot
            | Kind::TemplateWhole
            | Kind::TemplateHead
    )
}

/// What goes on with a complete expression, also on the next line.
pub fn goes_on(kind: Kind) -> bool
    ensures { result ≡ spec.goes_on kind }
{
    match kind {
        Kind::Comma | Kind::Question => true,
        _ => begins_link(kind) || is_assignment(kind) || level_of(true, kind) > 0,
    }
}
