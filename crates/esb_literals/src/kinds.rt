//! Classes of tokens, and what the lists of each form have.

ghost use Rattle.std.specs.Prelude.{◌≡◌};
ghost use Rattle.esb_grammar.specs.Forms as forms;
ghost use Rattle.esb_grammar.specs.Kinds as kinds;
ghost use Rattle.esb_grammar.specs.Contexts as contexts;
ghost use Rattle.esb_expression_laws.specs.Lists as lists;
ghost use Rattle.esb_literal_laws.specs.Bindings as bindings;
ghost use Rattle.esb_literal_laws.specs.Methods as methods;
ghost use Rattle.esb_literal_laws.specs.Objects as objects;
ghost use Rattle.esb_literal_laws.specs.Templates as templates;
ghost use Rattle.esb_literals.specs.Pieces as pieces;

use esb_grammar::{Context, Form, is_property_word};
use esb_token::{Kind, Token};

/// The parameters of what stands in brackets (5.1.5).
pub fn inside(context: Context) -> Context
    ensures { result ≡ contexts.inside context }
{
    Context {
        has_in: true,
        has_yield: context.has_yield,
        has_await: context.has_await,
    }
}

pub fn takes_spread(form: Form) -> bool
    ensures { result ≡ forms.takes_spread form }
{
    matches!(form, Form::Arguments | Form::Array | Form::Object)
}

pub fn is_comma(kind: Kind) -> bool
    ensures { result ≡ kinds.is_comma kind }
{
    matches!(kind, Kind::Comma)
}

pub fn is_dots(kind: Kind) -> bool
    ensures { result ≡ lists.is_dots kind }
{
    matches!(kind, Kind::Ellipsis)
}

fn is_closer(kind: Kind) -> bool
    ensures { result ≡ lists.is_closer kind }
{
    matches!(
        kind,
        Kind::RightParenthesis | Kind::RightBracket | Kind::RightBrace
    )
}

pub fn ends_element(token: Token) -> bool
    ensures { result ≡ lists.ends_element token }
{
    is_comma(token.kind) || is_closer(token.kind)
}

pub fn is_middle(kind: Kind) -> bool
    ensures { result ≡ templates.is_middle kind }
{
    matches!(kind, Kind::TemplateMiddle)
}

pub fn is_assign(kind: Kind) -> bool
    ensures { result ≡ kinds.is_assign kind }
{
    matches!(kind, Kind::Assign)
}

/// What a property that is a name alone, or with `=`, has behind it.
pub fn stands_alone(token: Token) -> bool
    ensures { result ≡ bindings.stands_alone token }
{
    ends_element(token) || is_assign(token.kind)
}

pub fn is_left_bracket(kind: Kind) -> bool
    ensures { result ≡ kinds.is_left_bracket kind }
{
    matches!(kind, Kind::LeftBracket)
}

pub fn is_star(kind: Kind) -> bool
    ensures { result ≡ kinds.is_star kind }
{
    matches!(kind, Kind::Star)
}

/// What goes on with a method behind its word.
pub fn begins_name(token: Token) -> bool
    ensures { result ≡ methods.begins_name token }
{
    is_property_word(token.kind) || is_left_bracket(token.kind) || is_star(token.kind)
}

pub fn opener(form: Form) -> Kind
    ensures { result ≡ forms.opener form }
{
    match form {
        Form::Array | Form::ArrayPattern => Kind::LeftBracket,
        Form::Object | Form::ObjectPattern => Kind::LeftBrace,
        _ => Kind::LeftParenthesis,
    }
}

pub fn closer(form: Form) -> Kind
    ensures { result ≡ forms.closer form }
{
    match form {
        Form::Array | Form::ArrayPattern => Kind::RightBracket,
        Form::Object | Form::ObjectPattern => Kind::RightBrace,
        _ => Kind::RightParenthesis,
    }
}

/// Patterns in braces.
pub fn is_braced(form: Form) -> bool
    ensures { result ≡ pieces.is_braced form }
{
    matches!(form, Form::ObjectPattern)
}

pub fn takes_hole(form: Form, last: bool) -> bool
    ensures { result ≡ forms.takes_hole form last }
{
    match form {
        Form::Array | Form::ArrayPattern => true,
        Form::Values | Form::Bindings => false,
        _ => last,
    }
}

pub fn is_ending(kind: Kind) -> bool
    ensures { result ≡ templates.is_ending kind }
{
    matches!(kind, Kind::TemplateTail)
}

pub fn is_left_brace(kind: Kind) -> bool
    ensures { result ≡ kinds.is_left_brace kind }
{
    matches!(kind, Kind::LeftBrace)
}

pub fn is_colon(kind: Kind) -> bool
    ensures { result ≡ objects.is_colon kind }
{
    matches!(kind, Kind::Colon)
}
