//! The builds that this version takes: files of one folder, each to an output in one folder of it.

ghost use Rattle.std.specs.Prelude.{◌≡◌, ◌==◌, map, IfOk};
ghost use Rattle.std.specs.List.{list_all, slice_split};
ghost use Rattle.std.specs.Option.{option_copied};
ghost use Rattle.esb_flags.specs.Unbuilt.{is_segment, is_folder, is_name, is_plain, all_differ, is_flag, if_name, is_placed, has_hash, if_unhashed, is_unsplit, is_built};

use crate::fields::Fields;
use crate::flag::front;
use crate::kind::Kind;
use crate::words::behind;
use esb_base::{Memory, Text};
use std::alloc::Global;
use std::collections::BTreeMap;

fn is_segment(segment: &str) -> bool
    ensures { result ≡ is_segment segment.now }
{
    !segment.is_empty() && segment != "." && segment != ".."
}

fn has_segments(path: &str) -> bool
    ensures { result ≡ list_all is_segment (slice_split (λ b. b == 47) path.now) }
{
    path.split('/').all(|segment| is_segment(segment))
}

fn is_folder(path: &str) -> bool
    ensures { result ≡ is_folder path.now }
{
    match path.strip_prefix('/') {
        Some(rest) => has_segments(rest),
        None => false,
    }
}

fn is_name(chars: &str) -> bool
    ensures { result ≡ is_name chars.now }
{
    is_segment(chars) && !chars.as_bytes().contains(&b'/')
}

fn is_plain(entry: &(Text, Text)) -> bool
    ensures { result ≡ is_plain entry.now }
{
    entry.0.as_str().is_empty() && is_name(entry.1.as_str())
}

fn are_plain(entries: &[(Text, Text)]) -> bool
    ensures { result ≡ list_all is_plain entries.now }
{
    entries.iter().all(|entry| is_plain(entry))
}

/// Whether no path stands twice.
fn paths_differ(alloc: Global, entries: &[(Text, Text)]) -> Result<bool, Memory>
    ensures { IfOk result (λ differ. differ ≡ all_differ (map (λ entry. entry.1) entries.now)) }
{
    let mut seen = BTreeMap::new(alloc);
    for entry in entries {
        if seen.insert(entry.1.as_str(), ())?.is_some() {
            return Ok(false);
        }
    }
    Ok(true)
}

fn is_flag(kind: Kind, word: &str) -> bool
    ensures { result ≡ is_flag kind word.now }
{
    behind(front(kind), word).is_some()
}

/// Whether the value of a flag, where there is one, is a name.
fn if_name(value: Option<&str>) -> bool
    ensures { result ≡ if_name (option_copied value.entry) }
{
    match value {
        Some(value) => is_name(value),
        None => true,
    }
}

fn is_placed(word: &str) -> bool
    ensures { result ≡ is_placed word.now }
{
    !is_flag(Kind::Outfile, word)
        && !is_flag(Kind::EntryNames, word)
        && if_name(behind(front(Kind::Outdir), word))
}

fn are_placed(words: &[Text]) -> bool
    ensures { result ≡ list_all is_placed words.now }
{
    words.iter().all(|word| is_placed(word.as_str()))
}

fn has_hash(value: &str) -> bool
    ensures { result ≡ has_hash value.now }
{
    value
        .split('[')
        .skip(1)
        .any(|rest| rest.starts_with("hash]"))
}

/// Whether the value of a flag, where there is one, has no hash.
fn if_unhashed(value: Option<&str>) -> bool
    ensures { result ≡ if_unhashed (option_copied value.entry) }
{
    match value {
        Some(value) => !has_hash(value),
        None => true,
    }
}

fn is_unsplit(word: &str) -> bool
    ensures { result ≡ is_unsplit word.now }
{
    word != front(Kind::Splitting)
        && if_unhashed(behind(front(Kind::EntryNames), word))
        && if_unhashed(behind(front(Kind::ChunkNames), word))
}

fn are_unsplit(words: &[Text]) -> bool
    ensures { result ≡ list_all is_unsplit words.now }
{
    words.iter().all(|word| is_unsplit(word.as_str()))
}

/// Whether this version takes the build.
#[tactic(auto, unfolding(crate::specs::Unbuilt::is_built))]
pub(crate) fn is_built(alloc: Global, fields: &Fields) -> Result<bool, Memory>
    ensures { IfOk result (λ built. built ≡ is_built fields.now) }
{
    if !fields.plugins.is_empty() || !is_folder(fields.cwd.as_str()) {
        return Ok(false);
    }
    let entries = fields.entries.as_slice();
    if !are_plain(entries) || !paths_differ(alloc, entries)? {
        return Ok(false);
    }
    let words = fields.flags.as_slice();
    Ok(are_placed(words) && are_unsplit(words))
}
