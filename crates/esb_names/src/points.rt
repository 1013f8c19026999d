//! The code points at the front of a name.

ghost use Rattle.std.specs.Prelude.{◌≡◌, ◌<◌, ◌≤◌, ◌^◌, min, length, take, drop, slice_index, IfSome};
ghost use Rattle.std.specs.List.{prefix_len};
ghost use Rattle.esb_token.specs.Characters as characters;
ghost use Rattle.esb_token.specs.Names as tokens;
ghost use Rattle.esb_names.specs.Names as spec;
ghost use Rattle.esb_names.specs.Names.{IsPiece};

/// The greatest code point.
const LAST: u32 = 0x10_FFFF;

/// The byte at a place, and 0 past the end.
pub fn byte_at(text: &[u8], at: usize) -> u8
    ensures value { result ≡ slice_index text.now at }
    ensures within { 0 < result → at < length text.now }
{
    if at < text.len() { text[at] } else { 0 }
}

/// The text from a place on.
pub fn after(text: &[u8], at: usize) -> &[u8]
    requires { at ≤ length text.now }
    ensures { result.now ≡ drop at text.now }
{
    &text[at..]
}

fn width(first: u8) -> usize
    ensures value { result ≡ characters.width first }
    ensures some { 1 ≤ result }
{
    if first < 128 {
        1
    } else if first < 224 {
        2
    } else if first < 240 {
        3
    } else {
        4
    }
}

/// How many bytes the character at the front has.
#[tactic(auto, unfolding(esb_token::specs::Characters::character))]
pub fn character(text: &[u8]) -> usize
    requires { 1 ≤ length text.now }
    ensures value { result ≡ characters.character text.now }
    ensures some { 1 ≤ result }
    ensures within { result ≤ length text.now }
{
    width(byte_at(text, 0)).min(text.len())
}

/// The low six bits of a byte that goes on with a character.
fn low_bits(text: &[u8], at: usize) -> u32
    ensures value { result ≡ characters.low_bits text.now at }
    ensures within { result < 128 }
{
    u32::from(byte_at(text, at).saturating_sub(128))
}

/// The code point at the front.
#[tactic(auto, unfolding(esb_token::specs::Characters::code_point))]
pub fn code_point(text: &[u8]) -> u32
    ensures value { result ≡ characters.code_point text.now }
{
    let first = byte_at(text, 0);
    let lead = u32::from(first);
    if first < 128 {
        lead
    } else if first < 224 {
        lead.saturating_sub(192) * 64 + low_bits(text, 1)
    } else if first < 240 {
        ((lead - 224) * 64 + low_bits(text, 1)) * 64 + low_bits(text, 2)
    } else {
        (((lead - 240) * 64 + low_bits(text, 1)) * 64 + low_bits(text, 2)) * 64 + low_bits(text, 3)
    }
}

/// Whether a byte is a hexadecimal digit.
pub fn is_hex_digit(byte: u8) -> bool
    ensures { result ≡ characters.is_hex_digit byte }
{
    48 <= byte && byte <= 57 || 97 <= byte && byte <= 102 || 65 <= byte && byte <= 70
}

/// The number that a hexadecimal digit stands for.
pub fn hex_digit(byte: u8) -> u32
    ensures value { result ≡ characters.hex_digit byte }
    ensures within { result < 256 }
{
    let byte = u32::from(byte);
    if byte <= 57 {
        byte.saturating_sub(48)
    } else if byte <= 70 {
        byte - 55
    } else {
        byte.saturating_sub(87)
    }
}

/// How many hexadecimal digits are at the front, and the number that they spell, up to one more than `LAST`.
fn hex_digits(text: &[u8]) -> (usize, u32)
    ensures count { result.0 ≡ prefix_len characters.is_hex_digit text.now }
    ensures value { result.1 ≡ min (tokens.hex_value (take result.0 text.now)) 0x110000 }
    ensures within { result.0 ≤ length text.now }
{
    let mut count = 0;
    let mut value = 0u32;
    while count < text.len() && is_hex_digit(text[count]) {
        value = (16 * value + hex_digit(text[count])).min(LAST + 1);
        count += 1;
    }
    (count, value)
}

/// `\uXXXX`, from its backslash: the code point, and how many bytes spell it.
#[tactic(auto, unfolding(esb_token::specs::Names::four_digits))]
fn four_digits(text: &[u8]) -> Option<(u32, usize)>
    ensures value { result ≡ tokens.four_digits text.now }
    ensures within { IfSome result (IsPiece text.now) }
{
    let (first, second) = (byte_at(text, 2), byte_at(text, 3));
    let (third, fourth) = (byte_at(text, 4), byte_at(text, 5));
    if is_hex_digit(first) && is_hex_digit(second) && is_hex_digit(third) && is_hex_digit(fourth) {
        let high = hex_digit(first) * 16 + hex_digit(second);
        Some(((high * 16 + hex_digit(third)) * 16 + hex_digit(fourth), 6))
    } else {
        None
    }
}

/// `\u{X}`, from its backslash.
#[tactic(auto, unfolding(esb_token::specs::Names::braced_digits))]
fn braced_digits(text: &[u8]) -> Option<(u32, usize)>
    requires { 3 ≤ length text.now }
    ensures value { result ≡ tokens.braced_digits text.now }
    ensures within { IfSome result (IsPiece text.now) }
{
    let (digits, value) = hex_digits(after(text, 3));
    if 0 < digits && byte_at(text, 3 + digits) == b'}' && value <= LAST {
        Some((value, digits + 4))
    } else {
        None
    }
}

/// A `\u` escape: its code point, and how many bytes spell it.
#[tactic(auto, unfolding(esb_token::specs::Names::unicode_escape))]
pub fn unicode_escape(text: &[u8]) -> Option<(u32, usize)>
    ensures value { result ≡ tokens.unicode_escape text.now }
    ensures within { IfSome result (IsPiece text.now) }
{
    if byte_at(text, 0) == b'\\' && byte_at(text, 1) == b'u' {
        if byte_at(text, 2) == b'{' {
            braced_digits(text)
        } else {
            four_digits(text)
        }
    } else {
        None
    }
}

/// The first code point of a name.
#[tactic(auto, unfolding(crate::specs::Names::first_point))]
pub fn first_point(name: &[u8]) -> u32
    ensures { result ≡ spec.first_point name.now }
{
    if byte_at(name, 0) == b'\\' {
        match unicode_escape(name) {
            Some((value, _)) => value,
            None => 92,
        }
    } else {
        code_point(name)
    }
}

/// How many bytes stand for it.
#[tactic(auto, unfolding(crate::specs::Names::first_length))]
pub fn first_length(name: &[u8]) -> usize
    requires { 1 ≤ length name.now }
    ensures value { result ≡ spec.first_length name.now }
    ensures some { 1 ≤ result }
    ensures within { result ≤ length name.now }
{
    if byte_at(name, 0) == b'\\' {
        match unicode_escape(name) {
            Some((_, length)) => length,
            None => 1,
        }
    } else {
        character(name)
    }
}
