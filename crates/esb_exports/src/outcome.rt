ghost use Rattle.std.specs.Prelude.{◌≡◌, ◌≤◌, false, IsTrue, length, map, IfOk};
ghost use Rattle.esb_exports.specs.Outcomes.{begins, replaced, found_file, found_bare, file_outcome, text_outcome, items_outcome, array_outcome, is_small_decimal, is_array_index, is_active, members_outcome, object_outcome, target_outcome};
ghost use Rattle.std.specs.List.{list_any};

use crate::segments::has_bad;
use crate::units::text_of;
use esb_base::{List, Memory, Text};
use esb_json::Json;
use std::alloc::Global;

/// What a path of a package leads to.
#[derive(PartialEq, Eq, Drop)]
pub enum Target {
    /// A file of the package, by its path from the package's folder, which begins with `./`.
    File(Text),
    /// The specifier of another package or of its file.
    Bare(Text),
}

/// What one value comes to as a target.
#[derive(Drop)]
pub(crate) enum Outcome {
    /// No condition of it is active.
    Undefined,
    /// It is `null`.
    Nothing,
    Found(Target),
    BadTarget,
    BadConfig,
    BadSpecifier,
}

/// What a target is looked for with.
#[derive(Clone, Copy)]
pub(crate) struct Request<'a> {
    /// Whether it is a target of `imports`, which may be another package's.
    pub imports: bool,
    /// What stands for the stars. It is empty for a key without one.
    pub matched: &'a [u16],
    /// The names of the conditions that are active.
    pub active: &'a [List<u16>],
}

/// The units with the match in place of each star, if there is a match.
#[tactic(auto, unfolding(crate::specs::Outcomes::replaced))]
fn replaced(alloc: Global, matched: &[u16], units: &[u16]) -> Result<List<u16>, Memory>
    ensures { IfOk result (λ list. list ≡ replaced matched.now units.now) }
{
    if matched.is_empty() {
        return List::of(alloc, units);
    }
    let mut list = List::new(alloc);
    for unit in units {
        if *unit == 0x2A {
            list.extend_from_slice(matched)?;
        } else {
            list.push(*unit)?;
        }
    }
    Ok(list)
}

#[tactic(auto, unfolding(crate::specs::Outcomes::found_file))]
fn found_file(text: Option<Text>) -> Outcome
    ensures { result ≡ found_file text }
{
    match text {
        Some(text) => Outcome::Found(Target::File(text)),
        None => Outcome::BadTarget,
    }
}

#[tactic(auto, unfolding(crate::specs::Outcomes::found_bare))]
fn found_bare(text: Option<Text>) -> Outcome
    ensures { result ≡ found_bare text }
{
    match text {
        Some(text) => Outcome::Found(Target::Bare(text)),
        None => Outcome::BadTarget,
    }
}

/// A text that begins with `./`: its own segments are looked at before those of the match.
#[tactic(auto, unfolding(crate::specs::Outcomes::file_outcome))]
fn file_outcome(alloc: Global, matched: &[u16], units: &[u16]) -> Result<Outcome, Memory>
    requires { 2 ≤ length units.now }
    ensures { IfOk result (λ outcome. outcome ≡ file_outcome matched.now units.now) }
{
    if has_bad(&units[2..]) {
        return Ok(Outcome::BadTarget);
    }
    if !matched.is_empty() && has_bad(matched) {
        return Ok(Outcome::BadSpecifier);
    }
    let units = replaced(alloc, matched, units)?;
    let text = text_of(alloc, units.as_slice())?;
    Ok(found_file(text))
}

fn begins(units: &[u16], front: &[u16]) -> bool
    ensures begins { result ≡ begins units.now front.now }
    ensures bound { IsTrue result → length front.now ≤ length units.now }
{
    units.starts_with(front)
}

/// A text as a target. Only imports may lead to another package.
#[tactic(auto, unfolding(crate::specs::Outcomes::text_outcome))]
fn text_outcome(alloc: Global, request: &Request<'_>, units: &[u16]) -> Result<Outcome, Memory>
    ensures { IfOk result (λ outcome. outcome ≡ text_outcome request.now.imports request.now.matched.now units.now) }
{
    if begins(units, &[0x2E, 0x2F]) {
        return file_outcome(alloc, request.matched, units);
    }
    if request.imports && !begins(units, &[0x2E, 0x2E, 0x2F]) && !begins(units, &[0x2F]) {
        let units = replaced(alloc, request.matched, units)?;
        let text = text_of(alloc, units.as_slice())?;
        return Ok(found_bare(text));
    }
    Ok(Outcome::BadTarget)
}

/// Whether a name is a decimal number below 2^32 - 1, as JavaScript writes it.
fn is_array_index(name: &[u16]) -> bool
    ensures { result ≡ is_array_index name.now }
{
    if name.is_empty() {
        return false;
    }
    let first = name[0];
    if first == 0x30 {
        return name.len() == 1;
    }
    is_small_decimal(name)
}

/// Whether a name has digits alone, and is a number below 2^32 - 1.
fn is_small_decimal(name: &[u16]) -> bool
    ensures { result ≡ is_small_decimal name.now }
{
    let mut value: u64 = 0;
    for unit in name {
        if *unit < 0x30 || 0x39 < *unit {
            return false;
        }
        value = value * 10 + u64::from(*unit - 0x30);
        if value >= 0xFFFF_FFFF {
            return false;
        }
    }
    true
}

fn is_active(active: &[List<u16>], name: &List<u16>) -> bool
    ensures { result ≡ is_active active.now name.now }
{
    active.contains(name)
}

fn has_array_index(members: &[(List<u16>, Json)]) -> bool
    ensures { result ≡ list_any (λ member. is_array_index member.0) members.now }
{
    members
        .iter()
        .any(|member| is_array_index(member.0.as_slice()))
}

/// The first item that comes to more than a bad target or nothing.
#[cycle(target)]
fn items_outcome(alloc: Global, request: &Request<'_>, items: &[Json]) -> Result<Outcome, Memory>
    ensures { IfOk result (λ outcome. outcome ≡ items_outcome false (map (target_outcome request.now.imports request.now.matched.now request.now.active.now) items.now)) }
{
    let mut bad = false;
    for item in items {
        match target_outcome(alloc, request, item)? {
            Outcome::Undefined => {}
            Outcome::BadTarget => bad = true,
            outcome => return Ok(outcome),
        }
    }
    if bad {
        Ok(Outcome::BadTarget)
    } else {
        Ok(Outcome::Undefined)
    }
}

/// The first member, in written order, whose condition is active and which comes to more than nothing.
#[cycle(target)]
fn members_outcome(
    alloc: Global,
    request: &Request<'_>,
    members: &[(List<u16>, Json)],
) -> Result<Outcome, Memory>
    ensures { IfOk result (λ outcome. outcome ≡ members_outcome request.now.active.now (map (λ member. (member.0, target_outcome request.now.imports request.now.matched.now request.now.active.now member.1)) members.now)) }
{
    for (name, value) in members {
        if is_active(request.active, name) {
            match target_outcome(alloc, request, value)? {
                Outcome::Undefined => {}
                outcome => return Ok(outcome),
            }
        }
    }
    Ok(Outcome::Undefined)
}

/// What a value comes to as a target.
#[cycle(target)]
pub(crate) fn target_outcome(
    alloc: Global,
    request: &Request<'_>,
    value: &Json,
) -> Result<Outcome, Memory>
    ensures { IfOk result (λ outcome. outcome ≡ target_outcome request.now.imports request.now.matched.now request.now.active.now value.now) }
{
    match value {
        Json::Null => Ok(Outcome::Nothing),
        Json::Bool(_) | Json::Number(_) => Ok(Outcome::BadTarget),
        Json::Str(units) => text_outcome(alloc, request, units.as_slice()),
        Json::Array(items) if items.is_empty() => Ok(Outcome::Nothing),
        Json::Array(items) => items_outcome(alloc, request, items.as_slice()),
        Json::Object(members) => {
            let listed = members.as_slice();
            if has_array_index(listed) {
                return Ok(Outcome::BadConfig);
            }
            members_outcome(alloc, request, listed)
        }
    }
}
