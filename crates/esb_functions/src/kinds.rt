//! Classes of tokens, and what the bodies of functions have.

ghost use Rattle.std.specs.Prelude.{◌≡◌};
ghost use Rattle.esb_grammar.specs.Kinds as kinds;
ghost use Rattle.esb_literal_laws.specs.Classes as classes;
ghost use Rattle.esb_literal_laws.specs.Methods as methods;

use esb_grammar::Context;
use esb_token::Kind;

/// The parameters of what stands in a function (5.1.5).
pub fn function_context(is_async: bool, is_generator: bool) -> Context
    ensures { result ≡ methods.function_context is_async is_generator }
{
    Context {
        has_in: true,
        has_yield: is_generator,
        has_await: is_async,
    }
}

pub fn is_semicolon(kind: Kind) -> bool
    ensures { result ≡ kinds.is_semicolon kind }
{
    matches!(kind, Kind::Semicolon)
}

pub fn is_right_brace(kind: Kind) -> bool
    ensures { result ≡ kinds.is_right_brace kind }
{
    matches!(kind, Kind::RightBrace)
}

pub fn is_static(kind: Kind) -> bool
    ensures { result ≡ kinds.is_static kind }
{
    matches!(kind, Kind::Static)
}

pub fn is_extends(kind: Kind) -> bool
    ensures { result ≡ classes.is_extends kind }
{
    matches!(kind, Kind::Extends)
}
