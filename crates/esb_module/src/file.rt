//! The tree of a file.

ghost use Rattle.std.specs.Prelude.{◌≡◌, ◌+◌, min};
ghost use Rattle.esb_module.specs.Files.{ParsesFile, ReadsFile};

use crate::fault::ParseFault;
use esb_base::{Memory, Steps, Text};
use esb_early::first_breach;
use esb_nodes::Discard;
use esb_parse::parse_items;
use esb_reader::Fault;
use esb_tree::Tree;
use std::alloc::Global;

/// The tree of a file's contents as a module (ECMA-262, 15.2), where they have one of at most 200 levels that breaks no early rule
/// of those that `first_breach` looks for. Each call adds one to the counter, whatever it answers.
///
/// # Errors
/// `NoTree` and `Early` as [`ParseFault`] says, and `Memory` where memory was refused.
#[tactic(auto, unfolding(crate::specs::Files::module_of))]
pub fn parse_file(alloc: Global, contents: &Text, steps: &mut Steps) -> Result<Tree, ParseFault>
    ensures tree { ParsesFile contents.now result }
    ensures read { ReadsFile contents.now result }
    ensures counted { steps.new ≡ min (steps.old + 1) u64.MAX }
{
    steps.add();
    let tree = match parse_items(alloc, contents) {
        Ok(tree) => tree,
        Err(Fault::NoTree(at)) => {
            return Err(ParseFault::NoTree(at.min(contents.as_bytes().len())));
        }
        Err(Fault::Memory) => return Err(ParseFault::Memory),
    };
    match first_breach(alloc, contents, &tree) {
        Ok(None) => Ok(tree),
        Ok(Some(breach)) => {
            tree.items.discard();
            Err(ParseFault::Early(breach.at, breach.rule))
        }
        Err(Memory) => {
            tree.items.discard();
            Err(ParseFault::Memory)
        }
    }
}
