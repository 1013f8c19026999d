//! The order of outputs, and which of them share a path.

ghost use Rattle.std.specs.Prelude.{◌≡◌, [], map, IfOk};
ghost use Rattle.esb_wire.specs.Written.{by_key};
ghost use Rattle.esb_scan.specs.Messages.{unplaced};
ghost use Rattle.esb_link.specs.SerialLink.{is_other, out_file, path_messages, shared_from, shares_path};

use esb_ask::{Message, OutFile};
use esb_base::{Blob, List, Memory, Text};
use std::alloc::Global;
use std::collections::BTreeMap;

/// Outputs by their paths.
#[derive(Drop)]
pub(crate) struct ByPath {
    /// The contents of each path.
    by_path: BTreeMap<Text, Blob>,
    /// The paths of which there were other contents before.
    shared: BTreeMap<Text, ()>,
}

/// Whether an output has other contents than the one before it with its path, if there is one.
fn is_other(earlier: &Option<Blob>, contents: &Blob) -> bool
    ensures { result ≡ is_other earlier.now contents.now }
{
    match earlier {
        Some(earlier) => earlier != contents,
        None => false,
    }
}

/// Sorts outputs.
fn sort(alloc: Global, outputs: List<(Text, Blob)>) -> Result<ByPath, Memory>
    ensures by_path { IfOk result (λ sorted. sorted.by_path.entries ≡ by_key outputs) }
    ensures shared { IfOk result (λ sorted. sorted.shared.entries ≡ by_key (shared_from [] outputs)) }
{
    let mut by_path = BTreeMap::new(alloc);
    let mut shared = BTreeMap::new(alloc);
    for (path, contents) in outputs.into_vec() {
        let key = path.share()?;
        let own = contents.share()?;
        let earlier = by_path.insert(path, contents)?;
        if is_other(&earlier, &own) {
            shared.insert(key, ())?;
        }
    }
    Ok(ByPath { by_path, shared })
}

fn shares_path(alloc: Global, path: &Text) -> Result<Message, Memory>
    ensures { IfOk result (λ message. message ≡ shares_path path.now) }
{
    let path = path.as_str();
    let text = format!(in alloc; "Two output files share the path {path}")?;
    let text = Text::of(alloc, text.as_str())?;
    let file = Text::of(alloc, "")?;
    Ok(Message {
        text,
        file,
        line: 0,
        column: 0,
        length: 0,
    })
}

/// The message of each path that outputs share with other contents, in the order of the paths.
fn path_messages(alloc: Global, shared: BTreeMap<Text, ()>) -> Result<List<Message>, Memory>
    ensures { IfOk result (λ messages. messages ≡ map (λ pair. shares_path pair.0) shared.entries) }
{
    let mut messages = List::new(alloc);
    for (path, ()) in shared {
        messages.push(shares_path(alloc, &path)?)?;
    }
    Ok(messages)
}

fn files(alloc: Global, by_path: BTreeMap<Text, Blob>) -> Result<List<OutFile>, Memory>
    ensures { IfOk result (λ files. files ≡ map out_file by_path.entries) }
{
    let mut files = List::new(alloc);
    for (path, contents) in by_path {
        files.push(OutFile { path, contents })?;
    }
    Ok(files)
}

/// The files in the order of their paths, where outputs with one path are one file, and the messages of the paths that outputs share
/// with other contents.
pub(crate) fn sorted(
    alloc: Global,
    outputs: List<(Text, Blob)>,
) -> Result<(List<OutFile>, List<Message>), Memory>
    ensures files { IfOk result (λ sorted. sorted.0 ≡ map out_file (by_key outputs)) }
    ensures messages { IfOk result (λ sorted. sorted.1 ≡ path_messages outputs) }
{
    let ByPath { by_path, shared } = sort(alloc, outputs)?;
    let files = files(alloc, by_path)?;
    let messages = path_messages(alloc, shared)?;
    Ok((files, messages))
}
