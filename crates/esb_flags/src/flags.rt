//! The flags of a build.

ghost use Rattle.std.specs.Prelude.{◌≡◌, [], filter_map, IfOk};
ghost use Rattle.std.specs.Option.{option_copied};
ghost use Rattle.esb_flags.specs.Flags.{listed, first_fault, values_of, value_of, has_splitting, loader_of, or_text, or_listed, flags_of, needs_outdir, read, AnswersFlags};

use crate::fault::FlagFault;
use crate::flag::{front, loader_of, once};
use crate::kind::Kind;
use crate::words::behind;
use esb_base::{Flags, List, Loader, Memory, Text};
use std::alloc::Global;
use std::collections::BTreeMap;

/// A place that is above the greatest `u32` is refused as one that there is no memory for.
fn place_of(index: usize) -> Result<u32, Memory>
    ensures { IfOk result (λ place. place ≡ index) }
{
    u32::try_from(index).map_err(|_| Memory)
}

/// What is wrong with the first word that is bad or a repeat.
fn first_fault(alloc: Global, words: &[Text]) -> Result<Option<FlagFault>, Memory>
    ensures { IfOk result (λ fault. fault ≡ first_fault [] words.now) }
{
    let mut seen = BTreeMap::new(alloc);
    for (index, word) in words.iter().enumerate() {
        let Some(shared) = once(word.as_str()) else {
            return Ok(Some(FlagFault::BadFlag(place_of(index)?)));
        };
        if let Some(shared) = shared {
            if seen.insert(shared, ())?.is_some() {
                return Ok(Some(FlagFault::Repeated(place_of(index)?)));
            }
        }
    }
    Ok(None)
}

fn value_of<'a>(front: &str, words: &'a [Text]) -> Option<&'a str>
    ensures { option_copied result ≡ value_of front.now words.now }
{
    for word in words {
        if let Some(value) = behind(front, word.as_str()) {
            return Some(value);
        }
    }
    None
}

fn values_of(alloc: Global, front: &str, words: &[Text]) -> Result<List<Text>, Memory>
    ensures { IfOk result (λ values. values ≡ values_of front.now words.now) }
{
    let mut values = List::new(alloc);
    for word in words {
        if let Some(value) = behind(front, word.as_str()) {
            let value = Text::of(alloc, value)?;
            values.push(value)?;
        }
    }
    Ok(values)
}

fn has_splitting(words: &[Text]) -> bool
    ensures { result ≡ has_splitting words.now }
{
    words.iter().any(|word| word.as_str() == "--splitting")
}

fn loaders_of(alloc: Global, words: &[Text]) -> Result<List<(Text, Loader)>, Memory>
    ensures { IfOk result (λ loaders. loaders ≡ filter_map loader_of words.now) }
{
    let mut loaders = List::new(alloc);
    for word in words {
        if let Some((extension, loader)) = loader_of(word.as_str()) {
            let extension = Text::of(alloc, extension)?;
            loaders.push((extension, loader))?;
        }
    }
    Ok(loaders)
}

/// The texts between commas.
fn listed(alloc: Global, value: &str) -> Result<List<Text>, Memory>
    ensures { IfOk result (λ parts. parts ≡ listed value.now) }
{
    let mut parts = List::new(alloc);
    for part in value.split(',') {
        let part = Text::of(alloc, part)?;
        parts.push(part)?;
    }
    Ok(parts)
}

fn or_listed(alloc: Global, value: Option<&str>) -> Result<List<Text>, Memory>
    ensures { IfOk result (λ parts. parts ≡ or_listed (option_copied value.entry)) }
{
    match value {
        Some(value) => listed(alloc, value),
        None => Ok(List::new(alloc)),
    }
}

fn maybe_text(alloc: Global, value: Option<&str>) -> Result<Option<Text>, Memory>
    ensures { IfOk result (λ text. text ≡ option_copied value.entry) }
{
    match value {
        Some(value) => Ok(Some(Text::of(alloc, value)?)),
        None => Ok(None),
    }
}

fn or_text(alloc: Global, absent: &str, value: Option<&str>) -> Result<Text, Memory>
    ensures { IfOk result (λ text. text ≡ or_text absent.now (option_copied value.entry)) }
{
    match value {
        Some(value) => Text::of(alloc, value),
        None => Text::of(alloc, absent),
    }
}

#[tactic(auto, unfolding(crate::specs::Flags::flags_of))]
fn flags_of(alloc: Global, words: &[Text]) -> Result<Flags, Memory>
    ensures { IfOk result (λ flags. flags ≡ flags_of words.now) }
{
    Ok(Flags {
        outdir: maybe_text(alloc, value_of(front(Kind::Outdir), words))?,
        outfile: maybe_text(alloc, value_of(front(Kind::Outfile), words))?,
        splitting: has_splitting(words),
        loaders: loaders_of(alloc, words)?,
        externals: values_of(alloc, front(Kind::External), words)?,
        conditions: or_listed(alloc, value_of(front(Kind::Conditions), words))?,
        entry_names: or_text(
            alloc,
            "[dir]/[name]",
            value_of(front(Kind::EntryNames), words),
        )?,
        chunk_names: or_text(
            alloc,
            "[name]-[hash]",
            value_of(front(Kind::ChunkNames), words),
        )?,
    })
}

#[tactic(auto, unfolding(crate::specs::Flags::needs_outdir))]
fn needs_outdir(entries: u32, flags: &Flags) -> bool
    ensures { result ≡ needs_outdir entries flags.now }
{
    flags.outdir.is_none() && !(flags.outfile.is_some() && entries == 1 && !flags.splitting)
}

/// What the flags of a build with so many entries ask for.
///
/// The first word that is bad or a repeat is refused, and then a build with no folder for its
/// outputs: one without `--outdir=`, and not with `--outfile=`, one entry and no `--splitting`.
/// Paths are kept as written.
#[tactic(auto, unfolding(crate::specs::Flags::read))]
pub fn read_flags(alloc: Global, flags: &[Text], entries: u32) -> Result<Flags, FlagFault>
    ensures { AnswersFlags result (read entries flags.now) }
{
    if let Some(fault) = first_fault(alloc, flags)? {
        return Err(fault);
    }
    let read = flags_of(alloc, flags)?;
    if needs_outdir(entries, &read) {
        return Err(FlagFault::NeedsOutdir);
    }
    Ok(read)
}
