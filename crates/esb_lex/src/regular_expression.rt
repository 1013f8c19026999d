//! Regular expression literals.

ghost use Rattle.std.specs.Prelude.{◌≡◌, ◌+◌, ◌≤◌, length, IfSome};
ghost use Rattle.esb_token.specs.RegExps as spec;
ghost use Rattle.esb_lex.specs.Pieces.{IsPiece};

use crate::bytes::{after, at_line_end, byte_at};
use crate::name::IdentifierCharacter;
use crate::run::{Part, run};
use esb_token::Kind;

/// A backslash and the byte that it escapes, from that byte on. It is 0 where the line or the text ends.
fn escaped_byte(rest: &[u8]) -> usize
    ensures value { result ≡ spec.escaped_byte rest.now }
    ensures within { result ≤ length rest.now + 1 }
{
    if rest.is_empty() || at_line_end(rest) {
        0
    } else {
        2
    }
}

struct ClassPiece;

impl Part for ClassPiece {
    ghost part = { λ _ text. spec.class_piece text };

    #[tactic(auto, unfolding(esb_token::specs::RegExps::class_piece))]
    fn length(&self, text: &[u8]) -> usize {
        let line_end = at_line_end(text);
        match text {
            [] => 0,
            [b']', ..] => 0,
            _ if line_end => 0,
            [b'\\', rest @ ..] => escaped_byte(rest),
            _ => 1,
        }
    }
}

/// A class from its `[`, and 0 where it isn't closed.
#[tactic(auto, unfolding(esb_token::specs::RegExps::class))]
fn class(text: &[u8]) -> usize
    requires { 1 ≤ length text.now }
    ensures value { result ≡ spec.class text.now }
    ensures within { result ≤ length text.now }
{
    let body = run(&ClassPiece, after(text, 1));
    if byte_at(text, 1 + body) == b']' {
        body + 2
    } else {
        0
    }
}

struct BodyPiece;

impl Part for BodyPiece {
    ghost part = { λ _ text. spec.body_piece text };

    #[tactic(auto, unfolding(esb_token::specs::RegExps::body_piece))]
    fn length(&self, text: &[u8]) -> usize {
        let line_end = at_line_end(text);
        match text {
            [] => 0,
            [b'/', ..] => 0,
            _ if line_end => 0,
            [b'\\', rest @ ..] => escaped_byte(rest),
            [b'[', ..] => class(text),
            _ => 1,
        }
    }
}

/// A regular expression from its first `/` to its last flag.
#[tactic(auto, unfolding(esb_token::specs::RegExps::regular_expression))]
pub fn regular_expression(text: &[u8]) -> Option<(Kind, usize)>
    requires { 1 ≤ length text.now }
    ensures value { result ≡ spec.regular_expression text.now }
    ensures within { IfSome result (IsPiece text.now) }
{
    let body = run(&BodyPiece, after(text, 1));
    if body == 0 || byte_at(text, 1) == b'*' {
        return None;
    }
    if byte_at(text, 1 + body) != b'/' {
        return None;
    }
    let flags = run(&IdentifierCharacter, after(text, body + 2));
    Some((Kind::RegExp, body + 2 + flags))
}
