ghost use Rattle.std.specs.Prelude.{◌≡◌, [], ◌∷◌, ◌++◌, map, IfOk, OnOk};
ghost use Rattle.std.specs.Char.Escape.{encode_utf16};
ghost use Rattle.esb_exports.specs.Units.{units_of, text_of, active_names};

use esb_base::{List, Memory, Text};
use std::alloc::Global;

/// Adds the one or two code units of a character.
fn push_units(units: &mut List<u16>, character: char) -> Result<(), Memory>
    ensures { OnOk result (units.new ≡ units.old ++ encode_utf16 character) }
{
    let code = u32::from(character);
    if code < 0x1_0000 {
        return units.push(code as u16);
    }
    let high = (code - 0x1_0000) / 0x400;
    let low = (code - 0x1_0000) % 0x400;
    units.push((0xD800 + high) as u16)?;
    units.push((0xDC00 + low) as u16)
}

/// The code units of a text.
pub(crate) fn units_of(alloc: Global, text: &str) -> Result<List<u16>, Memory>
    ensures { IfOk result (λ units. units ≡ units_of text.now) }
{
    let mut units = List::new(alloc);
    for character in text.chars() {
        push_units(&mut units, character)?;
    }
    Ok(units)
}

/// The text that these code units spell, unless a surrogate among them has no partner.
pub(crate) fn text_of(alloc: Global, units: &[u16]) -> Result<Option<Text>, Memory>
    ensures { IfOk result (λ text. text ≡ text_of units.now) }
{
    match String::from_utf16(alloc, units)? {
        Ok(text) => Ok(Some(Text::of(alloc, text.as_str())?)),
        Err(_unpaired) => Ok(None),
    }
}

/// The names of the conditions that are active: `default` and those that are given.
#[tactic(auto, unfolding(crate::specs::Units::active_names))]
pub(crate) fn active_names(alloc: Global, conditions: &[Text]) -> Result<List<List<u16>>, Memory>
    ensures { IfOk result (λ names. names ≡ active_names conditions.now) }
{
    let mut names = List::new(alloc);
    names.push(units_of(alloc, "default")?)?;
    for condition in conditions {
        names.push(units_of(alloc, condition.as_str())?)?;
    }
    Ok(names)
}
