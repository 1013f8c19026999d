ghost use Rattle.std.specs.Prelude.{◌≡◌, ◌≤◌, [], ◌∷◌, ◌++◌, length, map, IfOk, OnOk, string_bytes};
ghost use Rattle.std.specs.List.{flat_map, join_with_byte};
ghost use Rattle.esb_path.specs.Segments.{slash, entered, walked};
ghost use Rattle.esb_path.specs.Paths.{absolute, shared_count, way};

use esb_base::{Memory, Text};
use std::alloc::Global;

/// Goes one segment further.
#[tactic(auto, unfolding(crate::specs::Segments::entered))]
fn enter<'a>(names: &mut Vec<&'a str>, segment: &'a str) -> Result<(), Memory>
    ensures { OnOk result (map (λ name. name.now) names.new.items ≡ entered (map (λ name. name.now) names.old.items) segment.now) }
{
    match segment {
        "" | "." => {}
        ".." => {
            let _left = names.pop();
        }
        _ => names.push(segment)?,
    }
    Ok(())
}

/// Follows the path from the place that the names lead to.
pub(crate) fn walk<'a>(names: &mut Vec<&'a str>, path: &'a str) -> Result<(), Memory>
    ensures { OnOk result (map (λ name. name.now) names.new.items ≡ walked (map (λ name. name.now) names.old.items) path.now) }
{
    for segment in path.split('/') {
        enter(names, segment)?;
    }
    Ok(())
}

/// The names that lead from the root to the path.
pub(crate) fn names_of<'a>(alloc: Global, path: &'a str) -> Result<Vec<&'a str>, Memory>
    ensures { IfOk result (λ names. map (λ name. name.now) names.items ≡ walked [] path.now) }
{
    let mut names = Vec::new(alloc);
    walk(&mut names, path)?;
    Ok(names)
}

/// Writes each segment behind a slash.
fn push_segments(text: &mut String, segments: &[&str]) -> Result<(), Memory>
    ensures { OnOk result (string_bytes text.new ≡ string_bytes text.old ++ flat_map (λ segment. slash ∷ segment) (map (λ segment. segment.now) segments.now)) }
{
    for segment in segments {
        text.push('/')?;
        text.push_str(segment)?;
    }
    Ok(())
}

/// The path from the root by these names. `room` is how many bytes are reserved for it.
pub(crate) fn absolute(alloc: Global, names: &[&str], room: usize) -> Result<Text, Memory>
    ensures { IfOk result (λ text. text ≡ absolute (map (λ name. name.now) names.now)) }
{
    if names.is_empty() {
        return Text::of(alloc, "/");
    }
    let mut text = String::with_capacity(alloc, room)?;
    push_segments(&mut text, names)?;
    Text::of(alloc, text.as_str())
}

/// The segments with a slash between each two. `room` is how many bytes are reserved for them.
pub(crate) fn joined(alloc: Global, segments: &[&str], room: usize) -> Result<Text, Memory>
    ensures { IfOk result (λ text. text ≡ join_with_byte slash (map (λ segment. segment.now) segments.now)) }
{
    let Some((first, others)) = segments.split_first() else {
        return Text::of(alloc, "");
    };
    let mut text = String::with_capacity(alloc, room)?;
    text.push_str(first)?;
    push_segments(&mut text, others)?;
    Text::of(alloc, text.as_str())
}

/// How many names both begin with.
fn shared_count(names: &[&str], others: &[&str]) -> usize
    ensures bound { result ≤ length names.now }
    ensures bound_too { result ≤ length others.now }
    ensures shared { result ≡ shared_count (map (λ name. name.now) names.now) (map (λ name. name.now) others.now) }
{
    let mut count = 0;
    while count < names.len() && count < others.len() && names[count] == others[count] {
        count += 1;
    }
    count
}

/// A step up for each name of `from` that `to` does not share, and then the other names of `to`.
pub(crate) fn way<'a>(alloc: Global, from: &[&str], to: &[&'a str]) -> Result<Vec<&'a str>, Memory>
    ensures { IfOk result (λ steps. map (λ step. step.now) steps.items ≡ way (map (λ name. name.now) from.now) (map (λ name. name.now) to.now)) }
{
    let shared = shared_count(from, to);
    let mut steps = Vec::with_capacity(alloc, from.len().max(to.len()))?;
    for _left in &from[shared..] {
        steps.push("..")?;
    }
    steps.extend_from_slice(&to[shared..])?;
    Ok(steps)
}
