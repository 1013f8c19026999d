ghost use Rattle.std.specs.Prelude.{◌≡◌, ◌≤◌, IfOk, IfErr, MatchResult, length};
ghost use Rattle.esb_json.specs.declared.value.Json.{Json};
ghost use Rattle.esb_json.specs.Reading.{Reads, spaced_at, name_at, member_at, items_at, list_at, value_at, json_at};
ghost use Rattle.esb_json.specs.Texts.{levels, most_levels, Spells, SpellsNone, IsWithin};

use crate::fault::JsonFault;
use crate::number::number_of;
use crate::skipping::{past, past_word, skip_space};
use crate::stop::Stop;
use crate::strings::{name_of, string_of};
use crate::value::Json;
use esb_base::{List, Text};
use std::alloc::Global;

/// The most values that stand in one another: one, and the 200 above it.
const MOST_NESTED: u32 = 201;

#[tactic(auto, unfolding(crate::specs::Reading::spaced_at))]
fn spaced_name(alloc: Global, bytes: &[u8]) -> Result<(List<u16>, &[u8]), Stop>
    ensures { Reads (λ x. (x.0, x.1.now)) result (spaced_at name_at bytes.now) }
{
    let (name, rest) = name_of(alloc, skip_space(bytes))?;
    Ok((name, skip_space(rest)))
}

#[cycle(value)]
#[tactic(auto, unfolding(crate::specs::Reading::spaced_at))]
fn spaced_value(alloc: Global, depth: u32, bytes: &[u8]) -> Result<(Json, &[u8]), Stop>
    ensures { Reads (λ x. (x.0, x.1.now)) result (spaced_at (value_at depth) bytes.now) }
{
    let (value, rest) = value_of(alloc, depth, skip_space(bytes))?;
    Ok((value, skip_space(rest)))
}

#[cycle(value)]
#[tactic(auto, unfolding(crate::specs::Reading::member_at))]
fn member_of(alloc: Global, depth: u32, bytes: &[u8]) -> Result<((List<u16>, Json), &[u8]), Stop>
    ensures { Reads (λ x. (x.0, x.1.now)) result (member_at (value_at depth) bytes.now) }
{
    let (name, rest) = spaced_name(alloc, bytes)?;
    let rest = past(b':', rest)?;
    let (value, rest) = spaced_value(alloc, depth, rest)?;
    Ok(((name, value), rest))
}

#[cycle(value)]
fn values_of(alloc: Global, depth: u32, bytes: &[u8]) -> Result<(List<Json>, &[u8]), Stop>
    ensures { Reads (λ x. (x.0, x.1.now)) result (items_at (spaced_at (value_at depth)) 0x5D (length bytes.now) bytes.now) }
{
    let mut values = List::new(alloc);
    let mut rest = bytes;
    for _ in 0..bytes.len() {
        let (value, after) = spaced_value(alloc, depth, rest)?;
        values.push(value)?;
        let Some((next, more)) = after.split_first() else {
            return Err(Stop::Unread(0));
        };
        match *next {
            b',' => rest = more,
            b']' => return Ok((values, more)),
            _ => return Err(Stop::Unread(after.len())),
        }
    }
    Err(Stop::Unread(rest.len()))
}

#[cycle(value)]
#[tactic(auto, unfolding(crate::specs::Reading::list_at))]
fn array_of(alloc: Global, depth: u32, bytes: &[u8]) -> Result<(List<Json>, &[u8]), Stop>
    ensures { Reads (λ x. (x.0, x.1.now)) result (list_at (spaced_at (value_at depth)) 0x5D bytes.now) }
{
    match skip_space(bytes) {
        [] => Err(Stop::Unread(0)),
        [b']', rest @ ..] => Ok((List::new(alloc), rest)),
        rest => values_of(alloc, depth, rest),
    }
}

#[cycle(value)]
fn members_of(
    alloc: Global,
    depth: u32,
    bytes: &[u8],
) -> Result<(List<(List<u16>, Json)>, &[u8]), Stop>
    ensures { Reads (λ x. (x.0, x.1.now)) result (items_at (member_at (value_at depth)) 0x7D (length bytes.now) bytes.now) }
{
    let mut members = List::new(alloc);
    let mut rest = bytes;
    for _ in 0..bytes.len() {
        let (member, after) = member_of(alloc, depth, rest)?;
        members.push(member)?;
        let Some((next, more)) = after.split_first() else {
            return Err(Stop::Unread(0));
        };
        match *next {
            b',' => rest = more,
            b'}' => return Ok((members, more)),
            _ => return Err(Stop::Unread(after.len())),
        }
    }
    Err(Stop::Unread(rest.len()))
}

#[cycle(value)]
#[tactic(auto, unfolding(crate::specs::Reading::list_at))]
fn object_of(
    alloc: Global,
    depth: u32,
    bytes: &[u8],
) -> Result<(List<(List<u16>, Json)>, &[u8]), Stop>
    ensures { Reads (λ x. (x.0, x.1.now)) result (list_at (member_at (value_at depth)) 0x7D bytes.now) }
{
    match skip_space(bytes) {
        [] => Err(Stop::Unread(0)),
        [b'}', rest @ ..] => Ok((List::new(alloc), rest)),
        rest => members_of(alloc, depth, rest),
    }
}

#[cycle(value)]
#[tactic(auto, unfolding(crate::specs::Reading::value_at, crate::specs::Reading::node_at))]
fn value_of(alloc: Global, depth: u32, bytes: &[u8]) -> Result<(Json, &[u8]), Stop>
    ensures { Reads (λ x. (x.0, x.1.now)) result (value_at depth bytes.now) }
{
    if depth == 0 {
        return Err(Stop::Unread(bytes.len()));
    }
    let [first, rest @ ..] = bytes else {
        return Err(Stop::Unread(0));
    };
    match *first {
        b'"' => {
            let (units, rest) = string_of(alloc, rest)?;
            Ok((Json::Str(units), rest))
        }
        b'[' => {
            let (values, rest) = array_of(alloc, depth - 1, rest)?;
            Ok((Json::Array(values), rest))
        }
        b'{' => {
            let (members, rest) = object_of(alloc, depth - 1, rest)?;
            Ok((Json::Object(members), rest))
        }
        b'n' => Ok((Json::Null, past_word(b"ull", rest)?)),
        b't' => Ok((Json::Bool(true), past_word(b"rue", rest)?)),
        b'f' => Ok((Json::Bool(false), past_word(b"alse", rest)?)),
        _ => {
            let (spelling, rest) = number_of(alloc, bytes)?;
            Ok((Json::Number(spelling), rest))
        }
    }
}

#[tactic(auto, unfolding(crate::specs::Reading::json_at))]
fn whole_value(alloc: Global, bytes: &[u8]) -> Result<Json, Stop>
    ensures { Reads (λ value. value) result (json_at 201 bytes.now) }
{
    let (value, rest) = spaced_value(alloc, MOST_NESTED, bytes)?;
    if !rest.is_empty() {
        return Err(Stop::Unread(rest.len()));
    }
    Ok(value)
}

/// The value that the whole text spells: members in written order, with those whose name stands
/// again, numbers by their spelling, strings by their code units.
///
/// # Errors
///
/// `NoJson` exactly where the text spells no value in which nothing stands in more than 200 arrays
/// and objects. Its place is the byte at which reading failed.
pub fn read_json(alloc: Global, contents: &Text) -> Result<Json, JsonFault>
    ensures found { IfOk result (λ value. Spells value contents.now) }
    ensures shallow { IfOk result (λ value. levels value ≤ most_levels) }
    // A text that spells such a value is read to it, unless memory is refused.
    ensures only { (value : Json) → Spells value contents.now → levels value ≤ most_levels
        → MatchResult result (λ found. found ≡ value) (λ fault. fault ≡ JsonFault.Memory) }
    ensures none { IfErr result (SpellsNone contents.now) }
    ensures place { IfErr result (IsWithin contents.now) }
{
    let bytes = contents.as_bytes();
    match whole_value(alloc, bytes) {
        Ok(value) => Ok(value),
        Err(Stop::Unread(left)) => Err(JsonFault::NoJson(bytes.len().saturating_sub(left))),
        Err(Stop::Memory) => Err(JsonFault::Memory),
    }
}
