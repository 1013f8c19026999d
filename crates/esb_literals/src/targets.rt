//! Nodes of patterns, made of what was read (ECMA-262, 13.3.3).

ghost use Rattle.std.specs.Prelude.{◌≡◌, ◌≤◌, max};
ghost use Rattle.esb_reader.specs.Reader.{Gives, node};
ghost use Rattle.esb_inner.specs.Inner.{ReadsExpressions};
ghost use Rattle.esb_literal_laws.specs.Bindings as bindings;
ghost use Rattle.esb_literals.specs.Pieces as pieces;

use crate::literals::Literals;
use esb_base::{List, Text};
use esb_grammar::Context;
use esb_inner::Readers;
use esb_nodes::{Discard, Nested, with};
use esb_reader::{Fault, Node, Reading};
use esb_token::{Kind, Token};
use esb_tree::{Bracketed, Element, Expression, PropertyName, Statement};
use std::alloc::Global;

/// A target, `=`, and its value, one level above them and within a number of levels.
#[tactic(auto, unfolding(crate::specs::Pieces::assignment_of))]
fn make_assignment(
    alloc: Global,
    levels: usize,
    target: Node<Expression>,
    value: Node<(Token, Expression)>,
    at: usize,
) -> Reading<Node<Expression>>
    ensures { Gives result (pieces.assignment_of levels target value at) }
{
    let deepest = target.levels.max(value.levels);
    let (sign, value) = value.tree;
    if deepest >= levels {
        target.discard();
        value.discard();
        return Err(Fault::NoTree(at));
    }
    let levels = deepest + 1;
    let (value, target) = with(value, target.tree.boxed(alloc))?;
    let (target, value) = with(target, value.boxed(alloc))?;
    let tree = Expression::Assignment(target, sign, value);
    Ok((Node { tree, levels }, at))
}

/// A pattern in brackets, one level above its list and within a number of levels.
#[tactic(auto, unfolding(crate::specs::Pieces::array_of))]
pub fn make_array(
    alloc: Global,
    levels: usize,
    list: Node<Bracketed>,
    at: usize,
) -> Reading<Node<Expression>>
    ensures { Gives result (pieces.array_of levels list at) }
{
    if list.levels >= levels {
        list.discard();
        return Err(Fault::NoTree(at));
    }
    let levels = list.levels + 1;
    let list = list.tree.boxed(alloc)?;
    let tree = Expression::ArrayLiteral(list);
    Ok((Node { tree, levels }, at))
}

/// A pattern in braces, one level above its list and within a number of levels.
#[tactic(auto, unfolding(crate::specs::Pieces::object_of))]
pub fn make_object(
    alloc: Global,
    levels: usize,
    list: Node<Bracketed>,
    at: usize,
) -> Reading<Node<Expression>>
    ensures { Gives result (pieces.object_of levels list at) }
{
    if list.levels >= levels {
        list.discard();
        return Err(Fault::NoTree(at));
    }
    let levels = list.levels + 1;
    let list = list.tree.boxed(alloc)?;
    let tree = Expression::ObjectLiteral(list);
    Ok((Node { tree, levels }, at))
}

/// A property of its name, and `:` and its value.
pub fn make_property(name: Node<PropertyName>, value: Node<(Token, Expression)>) -> Node<Element>
    ensures { result ≡ node (bindings.make_property (name.tree, value.tree)) (max name.levels value.levels) }
{
    let levels = name.levels.max(value.levels);
    let (colon, value) = value.tree;
    let tree = Element::Property(name.tree, colon, value);
    Node { tree, levels }
}

impl<
    'a,
    R: Readers,
    F: Fn(Global, &Text, bool, Context, usize, usize) -> Reading<Node<Expression>>,
    S: Fn(Global, &Text, Context, usize, usize) -> Reading<Node<List<Statement>>>,
> Literals<'a, R, F, S> {
    /// What is behind a target: `=` and its value, whose context is given.
    pub(crate) fn valued(
        &self,
        target: Node<Expression>,
        context: Context,
        levels: usize,
        at: usize,
    ) -> Reading<Node<Expression>>
        requires inner { ReadsExpressions R.expression self.now.parser.now.levels (F.pre self.now.parser.now.expression) (F.post self.now.parser.now.expression) }
        requires fits { levels ≤ self.now.parser.now.levels }
        ensures { Gives result (pieces.valued self.now.parser.now.text.now R.expression target context levels at) }
    {
        let (target, (x, at)) = with(target, self.signed(Kind::Assign, context, levels, at))?;
        make_assignment(self.parser.alloc, levels, target, x, at)
    }
}
