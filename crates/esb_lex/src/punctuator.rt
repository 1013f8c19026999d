//! Punctuators.

ghost use Rattle.std.specs.Prelude.{◌≡◌, ◌+◌, ◌^◌, ◌<◌, ◌≤◌, length, slice_index, IfSome};
ghost use Rattle.esb_token.specs.Punctuators as spec;
ghost use Rattle.esb_lex.specs.Pieces.{IsPiece};

use crate::bytes::{byte_at, is_digit};
use esb_token::Kind;

/// A punctuator of this size, or a longer one where a `=` follows.
pub fn with_equals(plain: Kind, assigned: Kind, size: usize, text: &[u8]) -> (Kind, usize)
    requires some { 1 ≤ size }
    requires within { size ≤ length text.now }
    ensures value { result ≡ spec.with_equals plain assigned size text.now }
    ensures within { IsPiece text.now result }
{
    if byte_at(text, size) == b'=' {
        (assigned, size + 1)
    } else {
        (plain, size)
    }
}

/// A punctuator of one byte, or that byte twice, or the byte with a `=`.
fn twice_or_equals(plain: Kind, twice: Kind, assigned: Kind, text: &[u8]) -> (Kind, usize)
    requires { 0 < slice_index text.now 0 }
    ensures value { result ≡ spec.twice_or_equals plain twice assigned text.now }
    ensures within { IsPiece text.now result }
{
    let first = byte_at(text, 0);
    if byte_at(text, 1) == first {
        (twice, 2)
    } else {
        with_equals(plain, assigned, 1, text)
    }
}

#[tactic(auto, unfolding(esb_token::specs::Punctuators::star))]
fn star(text: &[u8]) -> (Kind, usize)
    requires { 1 ≤ length text.now }
    ensures value { result ≡ spec.star text.now }
    ensures within { IsPiece text.now result }
{
    if byte_at(text, 1) == b'*' {
        with_equals(Kind::StarStar, Kind::StarStarAssign, 2, text)
    } else {
        with_equals(Kind::Star, Kind::StarAssign, 1, text)
    }
}

#[tactic(auto, unfolding(esb_token::specs::Punctuators::less))]
fn less(text: &[u8]) -> (Kind, usize)
    requires { 1 ≤ length text.now }
    ensures value { result ≡ spec.less text.now }
    ensures within { IsPiece text.now result }
{
    if byte_at(text, 1) == b'<' {
        with_equals(Kind::ShiftLeft, Kind::ShiftLeftAssign, 2, text)
    } else {
        with_equals(Kind::Less, Kind::LessEqual, 1, text)
    }
}

#[tactic(auto, unfolding(esb_token::specs::Punctuators::greater))]
fn greater(text: &[u8]) -> (Kind, usize)
    requires { 1 ≤ length text.now }
    ensures value { result ≡ spec.greater text.now }
    ensures within { IsPiece text.now result }
{
    if byte_at(text, 1) != b'>' {
        return with_equals(Kind::Greater, Kind::GreaterEqual, 1, text);
    }
    if byte_at(text, 2) == b'>' {
        with_equals(
            Kind::ShiftRightUnsigned,
            Kind::ShiftRightUnsignedAssign,
            3,
            text,
        )
    } else {
        with_equals(Kind::ShiftRight, Kind::ShiftRightAssign, 2, text)
    }
}

#[tactic(auto, unfolding(esb_token::specs::Punctuators::equals))]
fn equals(text: &[u8]) -> (Kind, usize)
    requires { 1 ≤ length text.now }
    ensures value { result ≡ spec.equals text.now }
    ensures within { IsPiece text.now result }
{
    match byte_at(text, 1) {
        b'=' => with_equals(Kind::Equal, Kind::StrictEqual, 2, text),
        b'>' => (Kind::Arrow, 2),
        _ => (Kind::Assign, 1),
    }
}

#[tactic(auto, unfolding(esb_token::specs::Punctuators::exclamation))]
fn exclamation(text: &[u8]) -> (Kind, usize)
    requires { 1 ≤ length text.now }
    ensures value { result ≡ spec.exclamation text.now }
    ensures within { IsPiece text.now result }
{
    if byte_at(text, 1) == b'=' {
        with_equals(Kind::NotEqual, Kind::StrictNotEqual, 2, text)
    } else {
        (Kind::Exclamation, 1)
    }
}

/// `??`, `?.` with no digit behind it, or `?`.
#[tactic(auto, unfolding(esb_token::specs::Punctuators::question))]
fn question(text: &[u8]) -> (Kind, usize)
    requires { 1 ≤ length text.now }
    ensures value { result ≡ spec.question text.now }
    ensures within { IsPiece text.now result }
{
    match byte_at(text, 1) {
        b'?' => (Kind::QuestionQuestion, 2),
        b'.' if !is_digit(byte_at(text, 2)) => (Kind::QuestionDot, 2),
        _ => (Kind::Question, 1),
    }
}

#[tactic(auto, unfolding(esb_token::specs::Punctuators::dot))]
fn dot(text: &[u8]) -> (Kind, usize)
    requires { 1 ≤ length text.now }
    ensures value { result ≡ spec.dot text.now }
    ensures within { IsPiece text.now result }
{
    if byte_at(text, 1) == b'.' && byte_at(text, 2) == b'.' {
        (Kind::Ellipsis, 3)
    } else {
        (Kind::Dot, 1)
    }
}

/// A punctuator that may go on with a further byte.
#[tactic(auto, unfolding(esb_token::specs::Punctuators::operator))]
fn operator(text: &[u8]) -> Option<(Kind, usize)>
    ensures value { result ≡ spec.operator text.now }
    ensures within { IfSome result (IsPiece text.now) }
{
    let found = match byte_at(text, 0) {
        b'+' => twice_or_equals(Kind::Plus, Kind::PlusPlus, Kind::PlusAssign, text),
        b'-' => twice_or_equals(Kind::Minus, Kind::MinusMinus, Kind::MinusAssign, text),
        b'&' => twice_or_equals(Kind::Ampersand, Kind::AndAnd, Kind::AmpersandAssign, text),
        b'|' => twice_or_equals(Kind::Bar, Kind::BarBar, Kind::BarAssign, text),
        b'*' => star(text),
        b'<' => less(text),
        b'>' => greater(text),
        b'=' => equals(text),
        b'!' => exclamation(text),
        b'?' => question(text),
        b'%' => with_equals(Kind::Percent, Kind::PercentAssign, 1, text),
        b'^' => with_equals(Kind::Caret, Kind::CaretAssign, 1, text),
        _ => return None,
    };
    Some(found)
}

/// The longest punctuator at the front, but for `/`, `/=` and `}`.
#[tactic(auto, unfolding(esb_token::specs::Punctuators::punctuator))]
pub fn punctuator(text: &[u8]) -> Option<(Kind, usize)>
    ensures value { result ≡ spec.punctuator text.now }
    ensures within { IfSome result (IsPiece text.now) }
{
    match byte_at(text, 0) {
        b'(' => Some((Kind::LeftParenthesis, 1)),
        b')' => Some((Kind::RightParenthesis, 1)),
        b',' => Some((Kind::Comma, 1)),
        b'.' => Some(dot(text)),
        b':' => Some((Kind::Colon, 1)),
        b';' => Some((Kind::Semicolon, 1)),
        b'[' => Some((Kind::LeftBracket, 1)),
        b']' => Some((Kind::RightBracket, 1)),
        b'{' => Some((Kind::LeftBrace, 1)),
        b'~' => Some((Kind::Tilde, 1)),
        _ => operator(text),
    }
}
