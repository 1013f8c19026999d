ghost use Rattle.std.specs.Prelude.{◌≡◌, ◌++◌, ◌<◌, OnOk, OnErr};
ghost use Rattle.std.specs.Char.Escape.{encode_utf16};
ghost use Rattle.esb_json.specs.Reading.{Reads, string_at, name_at};

use crate::characters::character_of;
use crate::skipping::past;
use crate::stop::Stop;
use esb_base::{List, Memory};
use std::alloc::Global;

/// Adds the one or two code units of a character.
fn push_units(units: &mut List<u16>, code: u32) -> Result<(), Memory>
    requires { code < 0x11_0000 }
    ensures ok { OnOk result (units.new ≡ units.old ++ encode_utf16 code) }
{
    if code < 0x1_0000 {
        return units.push(code as u16);
    }
    let high = (code - 0x1_0000) / 0x400;
    let low = (code - 0x1_0000) % 0x400;
    units.push((0xD800 + high) as u16)?;
    units.push((0xDC00 + low) as u16)
}

/// The code units of the string that goes on behind its quotation mark.
#[tactic(auto, unfolding(crate::specs::Reading::string_at))]
pub(crate) fn string_of(alloc: Global, bytes: &[u8]) -> Result<(List<u16>, &[u8]), Stop>
    ensures { Reads (λ x. (x.0, x.1.now)) result (string_at bytes.now) }
{
    let mut units = List::new(alloc);
    let mut rest = bytes;
    for _ in 0..bytes.len() {
        let Some((first, after)) = rest.split_first() else {
            return Err(Stop::Unread(0));
        };
        if *first == b'"' {
            return Ok((units, after));
        }
        let (code, after) = character_of(*first, after)?;
        push_units(&mut units, code)?;
        rest = after;
    }
    Err(Stop::Unread(rest.len()))
}

#[tactic(auto, unfolding(crate::specs::Reading::name_at))]
pub(crate) fn name_of(alloc: Global, bytes: &[u8]) -> Result<(List<u16>, &[u8]), Stop>
    ensures { Reads (λ x. (x.0, x.1.now)) result (name_at bytes.now) }
{
    string_of(alloc, past(b'"', bytes)?)
}
