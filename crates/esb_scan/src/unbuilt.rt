//! What this version lacks: the loaders `json` and `text`, and JavaScript files that are linked to others.

ghost use Rattle.std.specs.Prelude.{◌≡◌, IfOk};
ghost use Rattle.std.specs.List.{list_any};
ghost use Rattle.esb_scan.specs.Scripts.{has_links, is_link, is_linking};
ghost use Rattle.esb_scan.specs.Unbuilt.{not_built};
ghost use Rattle.esb_print.specs.Lines as lines;

use crate::messages::of_file;
use esb_ask::Message;
use esb_base::{FileName, Memory, Text};
use esb_token::Token;
use esb_tree::{Tree, yield_of_item};
use std::alloc::Global;

/// The message of a file that this version lacks.
pub(crate) fn not_built(alloc: Global, cwd: &Text, name: &FileName) -> Result<Message, Memory>
    ensures { IfOk result (λ message. message ≡ not_built cwd.now name.now) }
{
    of_file(alloc, cwd, name, "Not built yet")
}

/// The bytes from one place up to another, as far as there are any.
fn between(bytes: &[u8], start: usize, end: usize) -> &[u8]
    ensures { result.now ≡ lines.between bytes.now start end }
{
    let end = end.min(bytes.len());
    let start = start.min(end);
    &bytes[start..end]
}

/// Whether files are linked to others by the word.
fn is_linking(word: &[u8]) -> bool
    ensures { result ≡ is_linking word.now }
{
    word == b"import".as_slice()
        || word == b"export".as_slice()
        || word == b"require".as_slice()
        || word == b"module".as_slice()
        || word == b"exports".as_slice()
}

fn is_link(contents: &[u8], token: &Token) -> bool
    ensures { result ≡ is_link contents.now token.now }
{
    is_linking(between(contents, token.start, token.end))
}

fn any_link(contents: &[u8], tokens: &[Token]) -> bool
    ensures { result ≡ list_any (is_link contents.now) tokens.now }
{
    for token in tokens {
        if is_link(contents, token) {
            return true;
        }
    }
    false
}

/// Whether a token of the tree is spelled as a word by which files are linked to others.
pub(crate) fn has_links(alloc: Global, contents: &[u8], tree: &Tree) -> Result<bool, Memory>
    ensures { IfOk result (λ linked. linked ≡ has_links contents.now tree.now) }
{
    for item in tree.items.as_slice() {
        let tokens = yield_of_item(alloc, item)?;
        if any_link(contents, tokens.as_slice()) {
            return Ok(true);
        }
    }
    Ok(false)
}
