//! Single tokens.

ghost use Rattle.std.specs.Prelude.{◌≡◌, ◌≢◌, true, false};
ghost use Rattle.esb_reader.specs.Kinds as kinds;
ghost use Rattle.esb_reader.specs.Reader as spec;
ghost use Rattle.esb_reader.specs.Reader.{Gives};
ghost use Rattle.esb_reader.specs.Places as places;

use crate::fault::Fault;
use crate::node::Reading;
use esb_base::Text;
use esb_lex::next;
use esb_token::{Goal, Kind, Token};

/// Whether two kinds are the same.
pub fn same_kind(a: Kind, b: Kind) -> bool
    ensures value { result ≡ kinds.same_kind a b }
    ensures same { result ≡ true → a ≡ b }
    ensures other { result ≡ false → a ≢ b }
{
    a == b
}

/// The next token from a place on, and none where no token of the goal stands or the place lies behind the text.
#[tactic(auto, unfolding(crate::specs::Places::token_at))]
pub fn token_at(text: &Text, goal: Goal, at: usize) -> Option<Token>
    ensures { result ≡ places.token_at text.now goal at }
{
    if at <= text.as_bytes().len() {
        match next(text, at, goal) {
            Ok(token) => Some(token),
            Err(_) => None,
        }
    } else {
        None
    }
}

/// The token that a parser looks at before it decides: the next one, and where there is none one of the kind `End`.
#[tactic(auto, unfolding(crate::specs::Places::peek))]
pub fn peek(text: &Text, goal: Goal, at: usize) -> Token
    ensures { result ≡ places.peek text.now goal at }
{
    match token_at(text, goal, at) {
        Some(token) => token,
        None => Token {
            kind: Kind::End,
            start: 0,
            end: 0,
            after_line: false,
        },
    }
}

/// The next token, whatever it is.
#[tactic(auto, unfolding(crate::specs::Reader::take))]
pub fn take(text: &Text, goal: Goal, at: usize) -> Reading<Token>
    ensures { Gives result (spec.take text.now goal at) }
{
    match token_at(text, goal, at) {
        Some(token) => Ok((token, token.end)),
        None => Err(Fault::NoTree(at)),
    }
}

/// The next token, which has to be of a kind that is read under `Div`.
#[tactic(auto, unfolding(crate::specs::Reader::expect))]
pub fn expect(text: &Text, kind: Kind, at: usize) -> Reading<Token>
    ensures { Gives result (spec.expect text.now kind at) }
{
    let (token, end) = take(text, Goal::Div, at)?;
    if same_kind(token.kind, kind) {
        Ok((token, end))
    } else {
        Err(Fault::NoTree(token.start))
    }
}
