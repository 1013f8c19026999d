ghost use Rattle.std.specs.Prelude.{◌≡◌, ◌+◌, ◌*◌, ◌<◌, ◌==◌, ◌&&◌, [], ◌∷◌, true, false, length, MatchOption, codes};
ghost use Rattle.std.specs.Char.{digit_value};
ghost use Rattle.esb_exports.specs.Segments.{is_hex, is_separator, lowered, unescaped, reads_as, is_bad, has_bad};

/// The value of a hexadecimal digit of either case.
fn hex_value(unit: u16) -> Option<u16>
    ensures { MatchOption result (is_hex unit ≡ false) (λ value. (is_hex unit ≡ true) × (value ≡ digit_value unit) × (value < 16)) }
{
    match unit {
        0x30..=0x39 => Some(unit - 0x30),
        0x41..=0x46 => Some(unit - 0x37),
        0x61..=0x66 => Some(unit - 0x57),
        _ => None,
    }
}

/// The byte of a `%` with two hexadecimal digits.
fn escaped(percent: u16, high: u16, low: u16) -> Option<u16>
    ensures { MatchOption result (((percent == 37) && (is_hex high && is_hex low)) ≡ false)
        (λ byte. (((percent == 37) && (is_hex high && is_hex low)) ≡ true) × (byte ≡ digit_value high * 16 + digit_value low)) }
{
    if percent != 0x25 {
        return None;
    }
    let high = hex_value(high)?;
    let low = hex_value(low)?;
    Some(high * 16 + low)
}

/// The first unit, where there is no room for an escape, and what stands behind it.
fn short_read(units: &[u16]) -> Option<(u16, &[u16])>
    requires { length units.now < 3 }
    ensures { MatchOption result (units.now ≡ []) (λ read. unescaped units.now ≡ read.0 ∷ unescaped read.1.now) }
{
    match units.split_first() {
        Some((first, rest)) => Some((*first, rest)),
        None => None,
    }
}

/// The unit that the front stands for, where an escape is its byte, and what stands behind it.
fn next_read(units: &[u16]) -> Option<(u16, &[u16])>
    ensures { MatchOption result (units.now ≡ []) (λ read. unescaped units.now ≡ read.0 ∷ unescaped read.1.now) }
{
    if units.len() < 3 {
        return short_read(units);
    }
    match escaped(units[0], units[1], units[2]) {
        Some(byte) => Some((byte, &units[3..])),
        None => Some((units[0], &units[1..])),
    }
}

fn lowered(unit: u16) -> u16
    ensures { result ≡ lowered unit }
{
    if 0x41 <= unit && unit <= 0x5A {
        unit + 32
    } else {
        unit
    }
}

/// Whether a segment is this name, with escapes read and the case of ASCII letters disregarded.
#[tactic(auto, unfolding(crate::specs::Segments::reads_as))]
fn reads_as(segment: &[u16], name: &[u8]) -> bool
    ensures { result ≡ reads_as segment.now name.now }
{
    let mut rest = segment;
    for byte in name {
        let Some((unit, after)) = next_read(rest) else {
            return false;
        };
        if lowered(unit) != u16::from(*byte) {
            return false;
        }
        rest = after;
    }
    rest.is_empty()
}

/// Whether a segment is empty, or a folder's own name, the folder above or that of other packages.
#[tactic(auto, unfolding(crate::specs::Segments::is_bad))]
fn is_bad(segment: &[u16]) -> bool
    ensures { result ≡ is_bad segment.now }
{
    segment.is_empty()
        || reads_as(segment, b".")
        || reads_as(segment, b"..")
        || reads_as(segment, b"node_modules")
}

/// Whether one of the segments between slashes and backslashes is bad.
#[tactic(auto, unfolding(crate::specs::Segments::has_bad))]
pub(crate) fn has_bad(units: &[u16]) -> bool
    ensures { result ≡ has_bad units.now }
{
    units
        .split(|unit| *unit == 0x2F || *unit == 0x5C)
        .any(|segment| is_bad(segment))
}
