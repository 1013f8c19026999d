//! Bytes and characters at the front of a text.

ghost use Rattle.std.specs.Prelude.{◌≡◌, IsTrue, ◌^◌, ◌<◌, ◌≤◌, length, drop, slice_index};
ghost use Rattle.esb_token.specs.Characters as spec;
ghost use Rattle.esb_token.specs.Gaps.{begins_with_two};

/// The byte at a place, and 0 past the end. No token has a byte 0 that decides what it is.
pub fn byte_at(text: &[u8], at: usize) -> u8
    ensures value { result ≡ slice_index text.now at }
    ensures ascii { 0 < result → at < length text.now }
{
    if at < text.len() { text[at] } else { 0 }
}

/// The text from a place on.
pub fn after(text: &[u8], at: usize) -> &[u8]
    requires { at ≤ length text.now }
    ensures { result.now ≡ drop at text.now }
{
    &text[at..]
}

pub fn begins_with(text: &[u8], first: u8, second: u8) -> bool
    requires { 0 < second }
    ensures value { result ≡ begins_with_two first second text.now }
    ensures long { IsTrue result → 2 ≤ length text.now }
{
    byte_at(text, 0) == first && byte_at(text, 1) == second
}

/// How many bytes the character at the front has.
#[tactic(auto, unfolding(esb_token::specs::Characters::character))]
pub fn character(text: &[u8]) -> usize
    ensures value { result ≡ spec.character text.now }
    ensures within { result ≤ length text.now }
{
    width(byte_at(text, 0)).min(text.len())
}

fn width(first: u8) -> usize
    ensures { result ≡ spec.width first }
{
    if first < 128 {
        1
    } else if first < 224 {
        2
    } else if first < 240 {
        3
    } else {
        4
    }
}

/// The low six bits of a byte that goes on with a character.
fn low_bits(text: &[u8], at: usize) -> u32
    ensures value { result ≡ spec.low_bits text.now at }
    ensures within { result < 128 }
{
    u32::from(byte_at(text, at).saturating_sub(128))
}

#[tactic(auto, unfolding(esb_token::specs::Characters::code_point))]
pub fn code_point(text: &[u8]) -> u32
    ensures value { result ≡ spec.code_point text.now }
    ensures within { result < 2 ^ 23 }
{
    let first = byte_at(text, 0);
    let lead = u32::from(first);
    if first < 128 {
        lead
    } else if first < 224 {
        lead.saturating_sub(192) * 64 + low_bits(text, 1)
    } else if first < 240 {
        ((lead - 224) * 64 + low_bits(text, 1)) * 64 + low_bits(text, 2)
    } else {
        (((lead - 240) * 64 + low_bits(text, 1)) * 64 + low_bits(text, 2)) * 64 + low_bits(text, 3)
    }
}

/// Whether LF, CR, U+2028 or U+2029 is at the front.
#[tactic(auto, unfolding(esb_token::specs::Characters::at_line_end))]
pub fn at_line_end(text: &[u8]) -> bool
    ensures { result ≡ spec.at_line_end text.now }
{
    let first = byte_at(text, 0);
    first == b'\n'
        || first == b'\r'
        || first == 226 && byte_at(text, 1) == 128 && matches!(byte_at(text, 2), 168 | 169)
}

pub fn is_digit(byte: u8) -> bool
    ensures { result ≡ spec.is_digit byte }
{
    48 <= byte && byte <= 57
}

pub fn is_hex_digit(byte: u8) -> bool
    ensures { result ≡ spec.is_hex_digit byte }
{
    48 <= byte && byte <= 57 || 97 <= byte && byte <= 102 || 65 <= byte && byte <= 70
}

/// The number that a hexadecimal digit stands for.
pub fn hex_digit(byte: u8) -> u32
    ensures value { result ≡ spec.hex_digit byte }
    ensures within { result < 256 }
{
    let byte = u32::from(byte);
    if byte <= 57 {
        byte.saturating_sub(48)
    } else if byte <= 70 {
        byte - 55
    } else {
        byte.saturating_sub(87)
    }
}

pub fn is_space(code_point: u32) -> bool
    ensures { result ≡ spec.is_space code_point }
{
    match code_point {
        0..128 => matches!(code_point, 32 | 9 | 11 | 12),
        _ => matches!(
            code_point,
            0xA0 | 0x1680 | 0x2000..=0x200A | 0x202F | 0x205F | 0x3000 | 0xFEFF
        ),
    }
}
