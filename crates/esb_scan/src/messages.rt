//! What the scan says is wrong.

ghost use Rattle.std.specs.Prelude.{◌≡◌, IfOk};
ghost use Rattle.esb_scan.specs.Messages.{unplaced, cannot_read, not_found, shown, of_file, no_loader, not_utf8, of_place, early_error, syntax_error};

use esb_ask::Message;
use esb_base::{FileName, Memory, Text};
use esb_msgs::place_of;
use esb_path::relative;
use std::alloc::Global;

fn unplaced(alloc: Global, text: &str) -> Result<Message, Memory>
    ensures { IfOk result (λ message. message ≡ unplaced text.now) }
{
    let text = Text::of(alloc, text)?;
    let file = Text::of(alloc, "")?;
    Ok(Message {
        text,
        file,
        line: 0,
        column: 0,
        length: 0,
    })
}

pub(crate) fn cannot_read(alloc: Global, path: &Text) -> Result<Message, Memory>
    ensures { IfOk result (λ message. message ≡ cannot_read path.now) }
{
    let path = path.as_str();
    let text = format!(in alloc; "Cannot read {path}")?;
    unplaced(alloc, text.as_str())
}

pub(crate) fn not_found(alloc: Global, spec: &Text) -> Result<Message, Memory>
    ensures { IfOk result (λ message. message ≡ not_found spec.now) }
{
    let spec = spec.as_str();
    let text = format!(in alloc; "Could not resolve \"{spec}\": not found")?;
    unplaced(alloc, text.as_str())
}

/// The file as messages name it.
fn shown(alloc: Global, cwd: &Text, name: &FileName) -> Result<Text, Memory>
    ensures { IfOk result (λ file. file ≡ shown cwd.now name.now) }
{
    let namespace = name.namespace.as_str();
    let path = name.path.as_str();
    if namespace == "file" {
        return relative(alloc, cwd.as_str(), path);
    }
    let file = format!(in alloc; "{namespace}:{path}")?;
    Text::of(alloc, file.as_str())
}

/// A message of a whole file.
pub(crate) fn of_file(
    alloc: Global,
    cwd: &Text,
    name: &FileName,
    text: &str,
) -> Result<Message, Memory>
    ensures { IfOk result (λ message. message ≡ of_file cwd.now name.now text.now) }
{
    let text = Text::of(alloc, text)?;
    let file = shown(alloc, cwd, name)?;
    Ok(Message {
        text,
        file,
        line: 1,
        column: 0,
        length: 0,
    })
}

pub(crate) fn no_loader(alloc: Global, cwd: &Text, name: &FileName) -> Result<Message, Memory>
    ensures { IfOk result (λ message. message ≡ no_loader cwd.now name.now) }
{
    let path = name.path.as_str();
    let text = format!(in alloc; "No loader for {path}")?;
    of_file(alloc, cwd, name, text.as_str())
}

pub(crate) fn not_utf8(alloc: Global, cwd: &Text, name: &FileName) -> Result<Message, Memory>
    ensures { IfOk result (λ message. message ≡ not_utf8 cwd.now name.now) }
{
    of_file(alloc, cwd, name, "Not UTF-8")
}

/// A message of a place in a file. One behind the end of the contents counts as their end.
fn of_place(
    alloc: Global,
    cwd: &Text,
    name: &FileName,
    contents: &[u8],
    at: usize,
    text: &str,
) -> Result<Message, Memory>
    ensures { IfOk result (λ message. message ≡ of_place cwd.now name.now contents.now at text.now) }
{
    let (line, column) = place_of(contents, at.min(contents.len()));
    let text = Text::of(alloc, text)?;
    let file = shown(alloc, cwd, name)?;
    Ok(Message {
        text,
        file,
        line,
        column,
        length: 0,
    })
}

/// The message of a file in which an early rule is broken first at a place.
pub(crate) fn early_error(
    alloc: Global,
    cwd: &Text,
    name: &FileName,
    contents: &[u8],
    at: usize,
    rule: u8,
) -> Result<Message, Memory>
    ensures { IfOk result (λ message. message ≡ early_error cwd.now name.now contents.now at rule) }
{
    let text = format!(in alloc; "Early error {rule}")?;
    of_place(alloc, cwd, name, contents, at, text.as_str())
}

/// The message of a file that has no tree, told at a place.
pub(crate) fn syntax_error(
    alloc: Global,
    cwd: &Text,
    name: &FileName,
    contents: &[u8],
    at: usize,
) -> Result<Message, Memory>
    ensures { IfOk result (λ message. message ≡ syntax_error cwd.now name.now contents.now at) }
{
    of_place(alloc, cwd, name, contents, at, "Syntax error")
}
