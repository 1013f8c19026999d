//! What the loading gives of a JavaScript file.

ghost use Rattle.std.specs.Prelude.{◌≡◌, ◌≤◌, ℕ, IfOk, length};
ghost use Rattle.esb_module.specs.Files.{module_of};
ghost use Rattle.esb_scan.specs.Likeness.{normal_loaded};
ghost use Rattle.esb_scan.specs.Scripts.{printed_by, script_by, script, IsPlacedScript};

use crate::messages::{early_error, not_utf8, syntax_error};
use crate::unbuilt::{has_links, not_built};
use esb_ask::Loaded;
use esb_base::{Blob, FileName, Memory, Steps, Text};
use esb_module::{ParseFault, parse_file};
use esb_nodes::Discard;
use esb_print_tree::print_tree;
use esb_tree::Tree;
use std::alloc::Global;

/// What a tree gives: its text is printed, or the file is one that this version lacks.
fn printed_by(
    alloc: Global,
    cwd: &Text,
    name: &FileName,
    contents: &Text,
    tree: &Tree,
) -> Result<Loaded, Memory>
    ensures { IfOk result (λ loaded. loaded ≡ printed_by cwd.now name.now contents.now tree.now) }
{
    if has_links(alloc, contents.as_bytes(), tree)? {
        return Ok(Loaded::Refused(not_built(alloc, cwd, name)?));
    }
    let text = print_tree(alloc, contents, tree)?;
    Ok(Loaded::Copied(Blob::of(alloc, text.as_slice())?))
}

/// What a text gives: it is parsed, and its tree printed.
fn script_by(alloc: Global, cwd: &Text, name: &FileName, contents: &Text) -> Result<Loaded, Memory>
    ensures alike { IfOk result (λ loaded. normal_loaded loaded ≡ script_by cwd.now name.now contents.now (module_of contents.now)) }
    ensures placed { IfOk result (IsPlacedScript cwd.now name.now contents.now) }
{
    let mut steps = Steps::new();
    match parse_file(alloc, contents, &mut steps) {
        Ok(tree) => {
            let loaded = printed_by(alloc, cwd, name, contents, &tree);
            tree.items.discard();
            loaded
        }
        Err(ParseFault::NoTree(at)) => {
            let message = syntax_error(alloc, cwd, name, contents.as_bytes(), at)?;
            Ok(Loaded::Refused(message))
        }
        Err(ParseFault::Early(at, rule)) => {
            let message = early_error(alloc, cwd, name, contents.as_bytes(), at, rule)?;
            Ok(Loaded::Refused(message))
        }
        Err(ParseFault::Memory) => Err(Memory),
    }
}

/// What the contents of a JavaScript file give.
pub(crate) fn script(
    alloc: Global,
    cwd: &Text,
    name: &FileName,
    contents: &Blob,
) -> Result<Loaded, Memory>
    ensures alike { IfOk result (λ loaded. normal_loaded loaded ≡ script cwd.now name.now contents.now) }
    ensures placed { IfOk result (IsPlacedScript cwd.now name.now contents.now) }
{
    match str::from_utf8(contents.as_slice()) {
        Ok(text) => {
            let text = Text::of(alloc, text)?;
            script_by(alloc, cwd, name, &text)
        }
        Err(_) => Ok(Loaded::Refused(not_utf8(alloc, cwd, name)?)),
    }
}
