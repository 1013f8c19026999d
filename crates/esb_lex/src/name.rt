//! Identifier names.

ghost use Rattle.std.specs.Prelude.{◌≡◌, ◌+◌, ◌<◌, ◌≤◌, ◌^◌, min, length, take, drop, IfSome, Some};
ghost use Rattle.std.specs.List.{prefix_len};
ghost use Rattle.esb_token.specs.Names as spec;
ghost use Rattle.esb_token.specs.Characters as characters;
ghost use Rattle.esb_lex.specs.Pieces.{IsPiece};

use crate::bytes::{after, byte_at, character, code_point, hex_digit, is_hex_digit};
use crate::reserved::reserved;
use crate::run::{Part, run};
use esb_token::Kind;
use unicode_ident::{is_xid_continue, is_xid_start};

/// The greatest code point.
const LAST: u32 = 0x10_FFFF;

/// How many hexadecimal digits are at the front, and the number that they spell, up to one more than `LAST`.
fn hex_digits(text: &[u8]) -> (usize, u32)
    ensures count { result.0 ≡ prefix_len characters.is_hex_digit text.now }
    ensures value { result.1 ≡ min (spec.hex_value (take result.0 text.now)) 0x110000 }
    ensures within { result.0 ≤ length text.now }
{
    let mut count = 0;
    let mut value = 0u32;
    while count < text.len() && is_hex_digit(text[count]) {
        value = (16 * value + hex_digit(text[count])).min(LAST + 1);
        count += 1;
    }
    (count, value)
}

/// `\uXXXX`, from its backslash: the code point, and how many bytes spell it.
#[tactic(auto, unfolding(esb_token::specs::Names::four_digits))]
fn four_digits(text: &[u8]) -> Option<(u32, usize)>
    ensures value { result ≡ spec.four_digits text.now }
    ensures small { IfSome result (λ p. p.0 < 2 ^ 23) }
    ensures within { IfSome result (IsPiece text.now) }
{
    let (first, second) = (byte_at(text, 2), byte_at(text, 3));
    let (third, fourth) = (byte_at(text, 4), byte_at(text, 5));
    if is_hex_digit(first) && is_hex_digit(second) && is_hex_digit(third) && is_hex_digit(fourth) {
        let high = hex_digit(first) * 16 + hex_digit(second);
        Some(((high * 16 + hex_digit(third)) * 16 + hex_digit(fourth), 6))
    } else {
        None
    }
}

/// `\u{X}`, from its backslash.
#[tactic(auto, unfolding(esb_token::specs::Names::braced_digits))]
fn braced_digits(text: &[u8]) -> Option<(u32, usize)>
    requires { 3 ≤ length text.now }
    ensures value { result ≡ spec.braced_digits text.now }
    ensures small { IfSome result (λ p. p.0 < 2 ^ 23) }
    ensures within { IfSome result (IsPiece text.now) }
{
    let (digits, value) = hex_digits(after(text, 3));
    if 0 < digits && byte_at(text, 3 + digits) == b'}' && value <= LAST {
        Some((value, digits + 4))
    } else {
        None
    }
}

/// A `\u` escape: its code point, and how many bytes spell it.
#[tactic(auto, unfolding(esb_token::specs::Names::unicode_escape))]
pub fn unicode_escape(text: &[u8]) -> Option<(u32, usize)>
    ensures value { result ≡ spec.unicode_escape text.now }
    ensures small { IfSome result (λ p. p.0 < 2 ^ 23) }
    ensures within { IfSome result (IsPiece text.now) }
{
    if byte_at(text, 0) == b'\\' && byte_at(text, 1) == b'u' {
        if byte_at(text, 2) == b'{' {
            braced_digits(text)
        } else {
            four_digits(text)
        }
    } else {
        None
    }
}

fn is_identifier_start(code_point: u32) -> bool
    ensures { result ≡ characters.is_identifier_start code_point }
{
    match code_point {
        0..128 => matches!(code_point, 97..=122 | 65..=90 | 36 | 95),
        _ => match char::from_u32(code_point) {
            Some(c) => is_xid_start(c),
            None => false,
        },
    }
}

fn is_identifier_part(code_point: u32) -> bool
    ensures { result ≡ characters.is_identifier_part code_point }
{
    match code_point {
        0..128 => matches!(code_point, 97..=122 | 65..=90 | 48..=57 | 36 | 95),
        _ => match char::from_u32(code_point) {
            Some(c) => is_xid_continue(c) || code_point == 0x200C || code_point == 0x200D,
            None => false,
        },
    }
}

/// A piece of a name that may begin one.
#[tactic(auto, unfolding(esb_token::specs::Names::identifier_start))]
pub fn identifier_start(text: &[u8]) -> usize
    ensures value { result ≡ spec.identifier_start text.now }
    ensures within { result ≤ length text.now }
{
    if byte_at(text, 0) == b'\\' {
        return match unicode_escape(text) {
            Some((value, length)) if is_identifier_start(value) => length,
            _ => 0,
        };
    }
    if is_identifier_start(code_point(text)) {
        character(text)
    } else {
        0
    }
}

struct IdentifierPart;

impl Part for IdentifierPart {
    ghost part = { λ _ text. spec.identifier_part text };

    #[tactic(auto, unfolding(esb_token::specs::Names::identifier_part, esb_token::specs::Characters::code_point, esb_token::specs::Characters::character))]
    fn length(&self, text: &[u8]) -> usize {
        if let [b'a'..=b'z' | b'A'..=b'Z' | b'0'..=b'9' | b'_' | b'$', ..] = text {
            return 1;
        }
        if byte_at(text, 0) == b'\\' {
            return match unicode_escape(text) {
                Some((value, length)) if is_identifier_part(value) => length,
                _ => 0,
            };
        }
        if is_identifier_part(code_point(text)) {
            character(text)
        } else {
            0
        }
    }
}

/// A character that may go on with a name.
pub struct IdentifierCharacter;

impl Part for IdentifierCharacter {
    ghost part = { λ _ text. spec.identifier_character text };

    #[tactic(auto, unfolding(esb_token::specs::Names::identifier_character))]
    fn length(&self, text: &[u8]) -> usize {
        if is_identifier_part(code_point(text)) {
            character(text)
        } else {
            0
        }
    }
}

fn word_kind(word: &[u8]) -> Kind
    ensures { result ≡ spec.word_kind (spec.reserved word.now) }
{
    match reserved(word) {
        Some(kind) => kind,
        None => Kind::Name,
    }
}

/// The name at the front, a reserved word or not.
#[tactic(auto, unfolding(esb_token::specs::Names::name))]
pub fn name(text: &[u8]) -> Option<(Kind, usize)>
    ensures value { result ≡ spec.name text.now }
    ensures within { IfSome result (IsPiece text.now) }
{
    let start = identifier_start(text);
    if start == 0 {
        return None;
    }
    let length = start + run(&IdentifierPart, after(text, start));
    Some((word_kind(&text[..length]), length))
}
