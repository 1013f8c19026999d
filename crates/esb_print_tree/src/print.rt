//! The text of a tree.

ghost use Rattle.std.specs.Prelude.{◌≡◌, IfOk};
ghost use Rattle.esb_grammar.specs.Modules.{IsTreeOf};
ghost use Rattle.esb_print.specs.Lines.{text_of};
ghost use Rattle.esb_print.specs.Again.{ReadsAgain};
ghost use Rattle.esb_print_tree.specs.Laws.{lines_of};

use esb_base::{List, Memory, Text};
use esb_print::append_line;
use esb_tree::{Tree, yield_of_item};
use std::alloc::Global;

/// The text of a module: a line for each of its items, with the spellings of the item's tokens and `;` for each semicolon that
/// was left out. Where the tree is that of the contents, the text reads as the tree's tokens again, line by line. `Err` says
/// that memory was refused.
#[tactic(auto, unfolding(esb_print::specs::Lines::text_of))]
pub fn print_tree(alloc: Global, contents: &Text, tree: &Tree) -> Result<List<u8>, Memory>
    ensures text { IfOk result (λ text. text ≡ text_of contents.now (lines_of tree.now)) }
    ensures again { IfOk result (λ text. IsTreeOf contents.now tree.now → ReadsAgain contents.now (lines_of tree.now) text) }
{
    let bytes = contents.as_bytes();
    let mut out = List::from_vec(Vec::with_capacity(alloc, bytes.len())?);
    for item in tree.items.as_slice() {
        let tokens = yield_of_item(alloc, item)?;
        append_line(contents, tokens.as_slice(), &mut out)?;
    }
    Ok(out)
}
