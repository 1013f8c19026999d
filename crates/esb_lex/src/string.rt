//! String literals.

ghost use Rattle.std.specs.Prelude.{◌≡◌, ◌<◌, ◌≤◌, length, slice_index, IfSome};
ghost use Rattle.esb_token.specs.Strings as spec;
ghost use Rattle.esb_lex.specs.Pieces.{IsPiece};

use crate::bytes::{after, byte_at, character, is_digit, is_hex_digit};
use crate::name::unicode_escape;
use crate::run::{Part, run};
use esb_token::Kind;

/// An escape or a line continuation, from its backslash, and 0 where it is none.
#[tactic(auto, unfolding(esb_token::specs::Strings::string_escape))]
fn string_escape(text: &[u8]) -> usize
    ensures value { result ≡ spec.string_escape text.now }
    ensures within { result ≤ length text.now }
{
    let letter = byte_at(text, 1);
    if letter == b'x' {
        return if is_hex_digit(byte_at(text, 2)) && is_hex_digit(byte_at(text, 3)) {
            4
        } else {
            0
        };
    }
    if letter == b'u' {
        return match unicode_escape(text) {
            Some((_, length)) => length,
            None => 0,
        };
    }
    if letter == b'0' {
        return if is_digit(byte_at(text, 2)) { 0 } else { 2 };
    }
    if is_digit(letter) {
        return 0;
    }
    if letter == b'\r' && byte_at(text, 2) == b'\n' {
        return 3;
    }
    if text.len() <= 1 {
        return 0;
    }
    1 + character(after(text, 1))
}

/// A character of a string literal or an escape, and 0 at the closing quote and where a line ends.
#[tactic(auto, unfolding(esb_token::specs::Strings::string_piece))]
pub fn string_piece(quote: u8, text: &[u8]) -> usize
    ensures value { result ≡ spec.string_piece quote text.now }
    ensures within { result ≤ length text.now }
{
    let first = byte_at(text, 0);
    if first == quote || first == b'\n' || first == b'\r' {
        0
    } else if first == b'\\' {
        string_escape(text)
    } else {
        character(text)
    }
}

#[derive(Clone, Copy)]
struct StringPiece {
    quote: u8,
}

impl Part for StringPiece {
    ghost part = { λ s text. spec.string_piece s.quote text };

    fn length(&self, text: &[u8]) -> usize {
        string_piece(self.quote, text)
    }
}

/// A string literal from its first quote.
#[tactic(auto, unfolding(esb_token::specs::Strings::string))]
pub fn string(text: &[u8]) -> Option<(Kind, usize)>
    requires { 0 < slice_index text.now 0 }
    ensures value { result ≡ spec.string text.now }
    ensures within { IfSome result (IsPiece text.now) }
{
    let quote = byte_at(text, 0);
    let body = run(&StringPiece { quote }, after(text, 1));
    if byte_at(text, 1 + body) == quote {
        Some((Kind::Text, body + 2))
    } else {
        None
    }
}
