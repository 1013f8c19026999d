//! Nodes that are made of parts that were read.

ghost use Rattle.std.specs.Prelude.{◌≡◌, true, false, [], ◌∷◌, IfOk};
ghost use Rattle.esb_tree.specs.declared.expressions.Link.TheVariants as l;
ghost use Rattle.esb_reader.specs.Reader.{Gives, pure, node};
ghost use Rattle.esb_access.specs.Handed as handed;

use crate::shapes::{is_new_alone, is_super_word, links_fit};
use crate::words::is_word;
use esb_base::{List, Memory, Text};
use esb_nodes::{Discard, Listed, Nested, with};
use esb_reader::{Fault, Node, Reading, expect, take};
use esb_token::{Goal, Kind, Token};
use esb_tree::{Bracketed, Expression, Link};
use std::alloc::Global;

/// `.` and a word.
pub fn dot_word(text: &Text, word: &[u8], at: usize) -> Reading<Node<(Token, Token)>>
    ensures { Gives result (handed.dot_word text.now word.now at) }
{
    let (dot, at) = expect(text, Kind::Dot, at)?;
    let (name, at) = take(text, Goal::Div, at)?;
    if !is_word(text, word, name) {
        return Err(Fault::NoTree(name.start));
    }
    let tree = (dot, name);
    Ok((Node { tree, levels: 0 }, at))
}

/// A node that isn't `super` alone.
pub fn plain(x: Node<Expression>, at: usize) -> Reading<Node<Expression>>
    ensures { Gives result (handed.plain (pure x) at) }
{
    if is_super_word(&x.tree) {
        x.discard();
        return Err(Fault::NoTree(at));
    }
    Ok((x, at))
}

/// The chain of a node and its links.
pub fn chained(
    alloc: Global,
    levels: usize,
    first: Node<Expression>,
    links: Node<List<Link>>,
    at: usize,
) -> Reading<Node<Expression>>
    ensures { Gives result (handed.chained levels first links at) }
{
    let deepest = first.levels.max(links.levels);
    if !links_fit(&first.tree, links.tree.as_slice()) || deepest >= levels {
        first.discard();
        links.discard();
        return Err(Fault::NoTree(at));
    }
    let (links, object) = with(links, first.tree.boxed(alloc))?;
    let tree = Expression::Member(object, links.tree);
    let levels = deepest + 1;
    plain(Node { tree, levels }, at)
}

/// A list of one call.
pub fn one_call(alloc: Global, arguments: Node<Bracketed>) -> Result<Node<List<Link>>, Memory>
    ensures { IfOk result (λ x. x ≡ node (l.Call arguments.tree ∷ []) arguments.levels) }
{
    let levels = arguments.levels;
    let tree = Link::Call(arguments.tree).added_to(List::new(alloc))?;
    Ok(Node { tree, levels })
}

/// `new` with arguments.
pub fn new_with(
    alloc: Global,
    levels: usize,
    word: Token,
    callee: Node<Expression>,
    arguments: Node<Bracketed>,
    at: usize,
) -> Reading<Node<Expression>>
    ensures { Gives result (handed.new_with levels word callee arguments at) }
{
    let deepest = callee.levels.max(arguments.levels);
    if is_new_alone(&callee.tree) || deepest >= levels {
        callee.discard();
        arguments.discard();
        return Err(Fault::NoTree(at));
    }
    let (arguments, object) = with(arguments, callee.tree.boxed(alloc))?;
    let (object, list) = with(object, arguments.tree.boxed(alloc))?;
    let tree = Expression::New(word, object, list);
    let levels = deepest + 1;
    Ok((Node { tree, levels }, at))
}

/// `new` without arguments.
pub fn new_plain(
    alloc: Global,
    levels: usize,
    word: Token,
    callee: Node<Expression>,
    at: usize,
) -> Reading<Node<Expression>>
    ensures { Gives result (handed.new_plain levels word callee at) }
{
    if callee.levels >= levels {
        callee.discard();
        return Err(Fault::NoTree(at));
    }
    let levels = callee.levels + 1;
    let object = callee.tree.boxed(alloc)?;
    let tree = Expression::NewPlain(word, object);
    Ok((Node { tree, levels }, at))
}
