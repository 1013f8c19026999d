//! Which PrimaryExpression stands at a place.

ghost use Rattle.std.specs.Prelude.{◌≡◌};
ghost use Rattle.esb_access_laws.specs.Links as links;
ghost use Rattle.esb_grammar.specs.Kinds as kinds;
ghost use Rattle.esb_literal_laws.specs.Forks as forks;
ghost use Rattle.esb_value_laws.specs.Primaries as spec;

use esb_base::Text;
use esb_literals::is_async;
use esb_reader::peek;
use esb_token::{Goal, Kind, Token};

pub fn is_left_parenthesis(kind: Kind) -> bool
    ensures { result ≡ links.is_left_parenthesis kind }
{
    matches!(kind, Kind::LeftParenthesis)
}

pub fn is_class(kind: Kind) -> bool
    ensures { result ≡ kinds.is_class kind }
{
    matches!(kind, Kind::Class)
}

/// What begins a template with substitutions.
pub fn is_head(kind: Kind) -> bool
    ensures { result ≡ links.is_head kind }
{
    matches!(kind, Kind::TemplateHead)
}

/// The token behind the next one.
#[tactic(auto, unfolding(esb_literal_laws::specs::Forks::second))]
fn second(text: &Text, at: usize) -> Token
    ensures { result ≡ forks.second text.now at }
{
    peek(text, Goal::Div, peek(text, Goal::Div, at).end)
}

fn is_function_on_line(token: Token) -> bool
    ensures { result ≡ spec.is_function_on_line token }
{
    matches!(token.kind, Kind::Function) && !token.after_line
}

/// `function`, or `async` and it on one line.
#[tactic(auto, unfolding(esb_value_laws::specs::Primaries::at_function))]
pub fn at_function(text: &Text, at: usize) -> bool
    ensures { result ≡ spec.at_function text.now at }
{
    let token = peek(text, Goal::Div, at);
    matches!(token.kind, Kind::Function)
        || (is_async(text, token) && is_function_on_line(second(text, at)))
}
