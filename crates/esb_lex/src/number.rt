//! Numeric literals.

ghost use Rattle.std.specs.Prelude.{◌≡◌, ◌≢◌, ◌+◌, ◌≤◌, true, length, drop, slice_index, IfSome};
ghost use Rattle.std.specs.List.{prefix_len};
ghost use Rattle.esb_token.specs.Numbers as spec;
ghost use Rattle.esb_lex.specs.Bases.{is_digit_of};
ghost use Rattle.esb_lex.specs.Pieces.{IsPiece, begins_number};
ghost use Rattle.esb_token.specs.Characters.{is_digit};

use crate::bytes::{after, byte_at, is_digit, is_hex_digit};
use crate::name::identifier_start;
use esb_token::Kind;

#[derive(Clone, Copy)]
enum Base {
    Binary,
    Octal,
    Decimal,
    Hexadecimal,
}

fn is_digit_of(base: Base, byte: u8) -> bool
    ensures { result ≡ is_digit_of base byte }
{
    match base {
        Base::Binary => 48 <= byte && byte <= 49,
        Base::Octal => 48 <= byte && byte <= 55,
        Base::Decimal => is_digit(byte),
        Base::Hexadecimal => is_hex_digit(byte),
    }
}

/// How many digits are at the front.
fn digits(base: Base, text: &[u8]) -> usize
    ensures value { result ≡ prefix_len (is_digit_of base) text.now }
    ensures some { is_digit_of base (slice_index text.now 0) ≡ true → 1 ≤ result }
    ensures within { result ≤ length text.now }
{
    let mut end = 0;
    while end < text.len() && is_digit_of(base, text[end]) {
        end += 1;
    }
    end
}

#[tactic(auto, unfolding(esb_token::specs::Numbers::digits_at))]
fn digits_at(text: &[u8], at: usize) -> usize
    requires { at ≤ length text.now }
    ensures value { result ≡ spec.digits_at text.now at }
    ensures some { at ≡ 0 → is_digit (slice_index text.now 0) ≡ true → 1 ≤ result }
    ensures within { at + result ≤ length text.now }
{
    digits(Base::Decimal, after(text, at))
}

/// The number or the BigInt of this size.
fn with_suffix(text: &[u8], size: usize) -> (Kind, usize)
    requires some { 1 ≤ size }
    requires within { size ≤ length text.now }
    ensures value { result ≡ spec.with_suffix text.now size }
    ensures within { IsPiece text.now result }
{
    if byte_at(text, size) == b'n' {
        (Kind::BigInt, size + 1)
    } else {
        (Kind::Number, size)
    }
}

fn sign(text: &[u8], at: usize) -> usize
    requires { at ≤ length text.now }
    ensures value { result ≡ spec.sign text.now at }
    ensures within { at + result ≤ length text.now }
{
    if byte_at(text, at) == b'+' || byte_at(text, at) == b'-' {
        1
    } else {
        0
    }
}

/// An exponent from a place on, and 0 where none is.
#[tactic(auto, unfolding(esb_token::specs::Numbers::exponent))]
fn exponent(text: &[u8], at: usize) -> usize
    requires { at ≤ length text.now }
    ensures value { result ≡ spec.exponent text.now at }
    ensures within { at + result ≤ length text.now }
{
    if byte_at(text, at) == b'e' || byte_at(text, at) == b'E' {
        let sign = sign(text, at + 1);
        let digits = digits_at(text, at + 1 + sign);
        if 0 < digits {
            return 1 + sign + digits;
        }
    }
    0
}

#[tactic(auto, unfolding(esb_token::specs::Numbers::integer_part))]
fn integer_part(text: &[u8]) -> usize
    requires { begins_number text.now ≡ true }
    ensures value { result ≡ spec.integer_part text.now }
    ensures some { slice_index text.now 0 ≢ 46 → 1 ≤ result }
    ensures within { result ≤ length text.now }
{
    if byte_at(text, 0) == b'0' {
        1
    } else {
        digits_at(text, 0)
    }
}

#[tactic(auto, unfolding(esb_token::specs::Numbers::decimal))]
fn decimal(text: &[u8]) -> (Kind, usize)
    requires { begins_number text.now ≡ true }
    ensures value { result ≡ spec.decimal text.now }
    ensures within { IsPiece text.now result }
{
    let whole = integer_part(text);
    if byte_at(text, whole) == b'.' {
        let fraction = whole + 1 + digits_at(text, whole + 1);
        return (Kind::Number, fraction + exponent(text, fraction));
    }
    let power = exponent(text, whole);
    if power == 0 {
        with_suffix(text, whole)
    } else {
        (Kind::Number, whole + power)
    }
}

/// A literal in another base, after the base's letter. Without digits it is the `0` alone.
#[tactic(auto, unfolding(esb_token::specs::Numbers::based))]
fn based(base: Base, text: &[u8]) -> (Kind, usize)
    requires { 2 ≤ length text.now }
    ensures value { result ≡ spec.based (is_digit_of base) text.now }
    ensures within { IsPiece text.now result }
{
    let digits = digits(base, after(text, 2));
    if digits == 0 {
        (Kind::Number, 1)
    } else {
        with_suffix(text, digits + 2)
    }
}

#[tactic(auto, unfolding(esb_token::specs::Numbers::numeric))]
fn numeric(text: &[u8]) -> (Kind, usize)
    requires { begins_number text.now ≡ true }
    ensures value { result ≡ spec.numeric text.now }
    ensures within { IsPiece text.now result }
{
    if byte_at(text, 0) != b'0' {
        return decimal(text);
    }
    match byte_at(text, 1) {
        b'x' | b'X' => based(Base::Hexadecimal, text),
        b'o' | b'O' => based(Base::Octal, text),
        b'b' | b'B' => based(Base::Binary, text),
        _ => decimal(text),
    }
}

/// The number at the front. Neither a digit nor the start of an identifier follows it.
#[tactic(auto, unfolding(esb_token::specs::Numbers::number))]
pub fn number(text: &[u8]) -> Option<(Kind, usize)>
    requires { begins_number text.now ≡ true }
    ensures value { result ≡ spec.number text.now }
    ensures within { IfSome result (IsPiece text.now) }
{
    let literal = numeric(text);
    let rest = after(text, literal.1);
    if is_digit(byte_at(rest, 0)) || 0 < identifier_start(rest) {
        None
    } else {
        Some(literal)
    }
}
