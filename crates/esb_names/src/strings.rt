//! What a string stands for, compared with a word and not written out (ECMA-262, 11.8.4.1).

ghost use Rattle.std.specs.Prelude.{◌≡◌, ◌<◌, ◌≤◌, length, slice_index, nat_eq};
ghost use Rattle.std.specs.Cmp.Lexicographic.{pointwise};
ghost use Rattle.esb_token.specs.Characters as characters;
ghost use Rattle.esb_token.specs.Strings as tokens;
ghost use Rattle.esb_names.specs.Strings as spec;

use crate::points::{
    after, byte_at, character, code_point, hex_digit, is_hex_digit, unicode_escape,
};

fn is_digit(byte: u8) -> bool
    ensures { result ≡ characters.is_digit byte }
{
    48 <= byte && byte <= 57
}

/// Whether a line ends at the front.
#[tactic(auto, unfolding(esb_token::specs::Characters::at_line_end))]
fn at_line_end(text: &[u8]) -> bool
    ensures { result ≡ characters.at_line_end text.now }
{
    let first = byte_at(text, 0);
    first == b'\n'
        || first == b'\r'
        || first == 226 && byte_at(text, 1) == 128 && matches!(byte_at(text, 2), 168 | 169)
}

/// How many bytes spell an escape or a line continuation, from its backslash: 0 where it is none.
#[tactic(auto, unfolding(esb_token::specs::Strings::string_escape))]
fn escape_length(text: &[u8]) -> usize
    ensures value { result ≡ tokens.string_escape text.now }
    ensures within { result ≤ length text.now }
{
    let letter = byte_at(text, 1);
    if letter == b'x' {
        return if is_hex_digit(byte_at(text, 2)) && is_hex_digit(byte_at(text, 3)) {
            4
        } else {
            0
        };
    }
    if letter == b'u' {
        return match unicode_escape(text) {
            Some((_, length)) => length,
            None => 0,
        };
    }
    if letter == b'0' {
        return if is_digit(byte_at(text, 2)) { 0 } else { 2 };
    }
    if is_digit(letter) {
        return 0;
    }
    if letter == b'\r' && byte_at(text, 2) == b'\n' {
        return 3;
    }
    if text.len() <= 1 {
        return 0;
    }
    1 + character(after(text, 1))
}

/// How many bytes the piece at the front has: 0 at the closing quote.
#[tactic(auto, unfolding(esb_token::specs::Strings::string_piece))]
fn piece_length(quote: u8, text: &[u8]) -> usize
    requires { 1 ≤ length text.now }
    ensures value { result ≡ tokens.string_piece quote text.now }
    ensures within { result ≤ length text.now }
{
    let first = byte_at(text, 0);
    if first == quote || first == b'\n' || first == b'\r' {
        0
    } else if first == b'\\' {
        escape_length(text)
    } else {
        character(text)
    }
}

/// The first code unit of a code point.
fn first_of_point(point: u32) -> Option<u32>
    ensures { result ≡ spec.first_unit (tokens.utf16 point) }
{
    if point < 0x1_0000 {
        Some(point)
    } else {
        Some(0xD800 + (point - 0x1_0000) / 0x400)
    }
}

fn first_unescaped(text: &[u8]) -> Option<u32>
    ensures { result ≡ spec.first_unit (tokens.unescaped_units text.now) }
{
    if at_line_end(text) {
        None
    } else {
        first_of_point(code_point(text))
    }
}

fn first_of_unicode(text: &[u8]) -> Option<u32>
    ensures { result ≡ spec.first_unit (tokens.unicode_units text.now) }
{
    match unicode_escape(text) {
        Some((value, _)) => first_of_point(value),
        None => None,
    }
}

#[tactic(auto, unfolding(esb_token::specs::Strings::string_escape_units))]
fn first_of_escape(text: &[u8]) -> Option<u32>
    requires { 1 ≤ length text.now }
    ensures { result ≡ spec.first_unit (tokens.string_escape_units text.now) }
{
    match byte_at(text, 1) {
        b'x' => Some(16 * hex_digit(byte_at(text, 2)) + hex_digit(byte_at(text, 3))),
        b'u' => first_of_unicode(text),
        b'0' => Some(0),
        b'b' => Some(8),
        b'f' => Some(12),
        b'n' => Some(10),
        b'r' => Some(13),
        b't' => Some(9),
        b'v' => Some(11),
        _ => first_unescaped(after(text, 1)),
    }
}

/// The first code unit of a piece, which a line continuation has not.
#[tactic(auto, unfolding(esb_token::specs::Strings::piece_units))]
fn first_of_piece(text: &[u8]) -> Option<u32>
    ensures { result ≡ spec.first_unit (tokens.piece_units text.now) }
{
    if byte_at(text, 0) == b'\\' {
        first_of_escape(text)
    } else {
        first_of_point(code_point(text))
    }
}

/// The code unit of a word at a place.
fn unit_at(word: &[u8], at: usize) -> u32
    ensures value { result ≡ slice_index word.now at }
    ensures within { result < 256 }
{
    u32::from(byte_at(word, at))
}

/// Whether the string up to its closing quote stands for this word.
fn is_body_of(quote: u8, body: &[u8], word: &[u8]) -> bool
    ensures { result ≡ pointwise nat_eq (tokens.units_from quote 0 body.now) word.now }
{
    let mut at = 0;
    let mut count = 0;
    while at < body.len() {
        let rest = after(body, at);
        let width = piece_length(quote, rest);
        if width == 0 {
            return count >= word.len();
        }
        let first = first_of_piece(rest);
        match first {
            Some(unit) => {
                if count >= word.len() {
                    return false;
                }
                let wanted = unit_at(word, count);
                if unit != wanted {
                    return false;
                }
                count += 1;
            }
            None => {}
        }
        at += width;
    }
    count >= word.len()
}

/// Whether the string at the front of a text stands for this word.
#[tactic(auto, unfolding(esb_token::specs::Strings::string_value))]
pub fn is_string_of(text: &[u8], word: &[u8]) -> bool
    ensures { result ≡ pointwise nat_eq (tokens.string_value text.now) word.now }
{
    let quote = byte_at(text, 0);
    is_body_of(quote, after(text, text.len().min(1)), word)
}
