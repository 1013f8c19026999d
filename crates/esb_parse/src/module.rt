//! Modules (ECMA-262, 15.2).

ghost use Rattle.std.specs.Prelude.{◌≡◌, false};
ghost use Rattle.esb_tree.specs.declared.modules.Tree.{Tree};
ghost use Rattle.esb_grammar.specs.Contexts as contexts;
ghost use Rattle.esb_grammar.specs.Modules.{IsTreeOf};
ghost use Rattle.esb_reader.specs.Reader.{Gives};
ghost use Rattle.esb_module_items.specs.Parts.{GivesTree};
ghost use Rattle.esb_module_laws.specs.Module.{handed_items};
ghost use Rattle.esb_parse_laws.specs.Readers.{nameless, parts};
ghost use Rattle.esb_parse.specs.Trees.{tree_of, Parses};

use crate::knot::{Knot, expression, items, left, statement, value_below};
use esb_base::{List, Text};
use esb_functions::Functions;
use esb_grammar::Context;
use esb_inner::Parser;
use esb_module_items::ItemParts;
use esb_reader::{Fault, Node, Reading};
use esb_tree::{Class, Expression, Function, Statement, Tree};
use std::alloc::Global;
use std::marker::PhantomData;

/// How many nodes of a tree may stand in one another.
const LEVELS: usize = 200;

/// In a module neither `yield` nor `await` is an operator.
fn of_module() -> Context
    ensures { result ≡ contexts.of_module }
{
    Context {
        has_in: true,
        has_yield: false,
        has_await: false,
    }
}

/// StatementListItem.
fn item(alloc: Global, text: &Text, levels: usize, at: usize) -> Reading<Node<Statement>>
    ensures { Gives result ((handed_items text.now (parts text.now) (nameless text.now) levels).statement at) }
{
    statement(alloc, text, of_module(), true, levels, at)
}

/// AssignmentExpression.
fn value(alloc: Global, text: &Text, levels: usize, at: usize) -> Reading<Node<Expression>>
    ensures { Gives result ((handed_items text.now (parts text.now) (nameless text.now) levels).value at) }
{
    value_below(alloc, text, false, of_module(), levels, at)
}

/// A function whose name may be absent.
fn function(alloc: Global, text: &Text, levels: usize, at: usize) -> Reading<Node<Function>>
    ensures { Gives result ((handed_items text.now (parts text.now) (nameless text.now) levels).function at) }
{
    let parser: Parser<Knot, _, _> = Parser {
        alloc,
        text,
        levels,
        expression,
        items,
        readers: PhantomData,
    };
    let functions = Functions { parser: &parser };
    functions.function(false, levels, at)
}

/// A class whose name may be absent.
fn class(alloc: Global, text: &Text, levels: usize, at: usize) -> Reading<Node<Class>>
    ensures { Gives result ((handed_items text.now (parts text.now) (nameless text.now) levels).class at) }
{
    let parser: Parser<Knot, _, _> = Parser {
        alloc,
        text,
        levels,
        expression,
        items,
        readers: PhantomData,
    };
    let functions = Functions { parser: &parser };
    functions.class(&left, false, of_module(), levels, at)
}

/// The tree of a module (15.2), where the contents have one of at most 200 levels: at most 200 nodes stand in one another. Early
/// errors are not looked for.
///
/// # Errors
/// `NoTree` says that there is none, and names a place at which none goes on; `Memory` that memory was refused.
#[tactic(auto, unfolding(esb_module_items::specs::Reads::ReadsStatements, esb_module_items::specs::Reads::ReadsValues, esb_module_items::specs::Reads::ReadsFunctions, esb_module_items::specs::Reads::ReadsClasses))]
pub fn parse_items(alloc: Global, contents: &Text) -> Result<Tree, Fault>
    ensures tree { Parses contents.now result }
    ensures read { GivesTree result (tree_of contents.now) }
    ensures one { (tree other : Tree) → IsTreeOf contents.now tree → IsTreeOf contents.now other → tree ≡ other }
{
    let parts: ItemParts<Knot, _, _, _, _> = ItemParts {
        alloc,
        text: contents,
        levels: LEVELS + 1,
        statement: item,
        value,
        function,
        class,
        readers: PhantomData,
    };
    parts.module()
}
