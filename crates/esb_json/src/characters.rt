ghost use Rattle.std.specs.Prelude.{◌≡◌, ◌+◌, ◌*◌, ◌<◌, ◌≤◌, ◌^◌, IfOk};
ghost use Rattle.esb_json.specs.Reading.{Reads, more_at, three_at, four_at, wide_at, hex_at, unit_at, escape_at, character_at};

use crate::stop::Stop;

/// `high`, and six bits more of a character of UTF-8.
#[tactic(auto, unfolding(crate::specs::Reading::more_at))]
fn more_of(high: u32, bytes: &[u8]) -> Result<(u32, &[u8]), Stop>
    requires { high < 2 ^ 20 }
    ensures read { Reads (λ x. (x.0, x.1.now)) result (more_at high bytes.now) }
    ensures bound { IfOk result (λ x. x.0 < high * 64 + 64) }
{
    match bytes {
        [byte @ 0x80..=0xBF, rest @ ..] => Ok((high * 64 + (u32::from(*byte) - 0x80), rest)),
        _ => Err(Stop::Unread(bytes.len())),
    }
}

#[tactic(auto, unfolding(crate::specs::Reading::three_at))]
fn three_of(high: u32, bytes: &[u8]) -> Result<(u32, &[u8]), Stop>
    requires { high < 16 }
    ensures read { Reads (λ x. (x.0, x.1.now)) result (three_at high bytes.now) }
    ensures bound { IfOk result (λ x. x.0 < 0x11_0000) }
{
    let (next, rest) = more_of(high, bytes)?;
    let (code, rest) = more_of(next, rest)?;
    if code < 0x800 || (0xD800..=0xDFFF).contains(&code) {
        return Err(Stop::Unread(bytes.len()));
    }
    Ok((code, rest))
}

#[tactic(auto, unfolding(crate::specs::Reading::four_at))]
fn four_of(high: u32, bytes: &[u8]) -> Result<(u32, &[u8]), Stop>
    requires { high < 8 }
    ensures read { Reads (λ x. (x.0, x.1.now)) result (four_at high bytes.now) }
    ensures bound { IfOk result (λ x. x.0 < 0x11_0000) }
{
    let (next, rest) = more_of(high, bytes)?;
    let (third, rest) = more_of(next, rest)?;
    let (code, rest) = more_of(third, rest)?;
    if (0x1_0000..=0x10_FFFF).contains(&code) {
        Ok((code, rest))
    } else {
        Err(Stop::Unread(bytes.len()))
    }
}

/// The character past ASCII that begins with this byte (RFC 3629, section 4).
#[tactic(auto, unfolding(crate::specs::Reading::wide_at))]
fn wide_of(lead: u8, bytes: &[u8]) -> Result<(u32, &[u8]), Stop>
    ensures read { Reads (λ x. (x.0, x.1.now)) result (wide_at lead bytes.now) }
    ensures bound { IfOk result (λ x. x.0 < 0x11_0000) }
{
    match lead {
        0xC2..=0xDF => more_of(u32::from(lead) - 0xC0, bytes),
        0xE0..=0xEF => three_of(u32::from(lead) - 0xE0, bytes),
        0xF0..=0xF4 => four_of(u32::from(lead) - 0xF0, bytes),
        _ => Err(Stop::Unread(bytes.len())),
    }
}

#[tactic(auto, unfolding(crate::specs::Reading::hex_at))]
fn hex_of(bytes: &[u8]) -> Result<(u32, &[u8]), Stop>
    ensures read { Reads (λ x. (x.0, x.1.now)) result (hex_at bytes.now) }
    ensures bound { IfOk result (λ x. x.0 < 16) }
{
    let [byte, rest @ ..] = bytes else {
        return Err(Stop::Unread(0));
    };
    match char::from(*byte).to_digit(16) {
        Some(digit) => Ok((digit, rest)),
        None => Err(Stop::Unread(bytes.len())),
    }
}

/// The code unit that four hexadecimal digits are.
#[tactic(auto, unfolding(crate::specs::Reading::unit_at))]
fn unit_of(bytes: &[u8]) -> Result<(u32, &[u8]), Stop>
    ensures read { Reads (λ x. (x.0, x.1.now)) result (unit_at bytes.now) }
    ensures bound { IfOk result (λ x. x.0 < 0x1_0000) }
{
    let (a, rest) = hex_of(bytes)?;
    let (b, rest) = hex_of(rest)?;
    let (c, rest) = hex_of(rest)?;
    let (d, rest) = hex_of(rest)?;
    Ok((((a * 16 + b) * 16 + c) * 16 + d, rest))
}

/// What stands behind a backslash.
#[tactic(auto, unfolding(crate::specs::Reading::escape_at))]
fn escape_of(bytes: &[u8]) -> Result<(u32, &[u8]), Stop>
    ensures read { Reads (λ x. (x.0, x.1.now)) result (escape_at bytes.now) }
    ensures bound { IfOk result (λ x. x.0 < 0x1_0000) }
{
    let [letter, rest @ ..] = bytes else {
        return Err(Stop::Unread(0));
    };
    match *letter {
        b'u' => unit_of(rest),
        b'"' | b'\\' | b'/' => Ok((u32::from(*letter), rest)),
        b'b' => Ok((0x08, rest)),
        b'f' => Ok((0x0C, rest)),
        b'n' => Ok((0x0A, rest)),
        b'r' => Ok((0x0D, rest)),
        b't' => Ok((0x09, rest)),
        _ => Err(Stop::Unread(bytes.len())),
    }
}

/// The character of a string that begins with this byte: its code, or the code unit that an escape is.
#[tactic(auto, unfolding(crate::specs::Reading::character_at))]
pub(crate) fn character_of(first: u8, bytes: &[u8]) -> Result<(u32, &[u8]), Stop>
    ensures read { Reads (λ x. (x.0, x.1.now)) result (character_at first bytes.now) }
    ensures bound { IfOk result (λ x. x.0 < 0x11_0000) }
{
    match first {
        b'\\' => escape_of(bytes),
        b'"' | ..0x20 => Err(Stop::Unread(bytes.len() + 1)),
        0x20..0x80 => Ok((u32::from(first), bytes)),
        _ => wide_of(first, bytes),
    }
}
