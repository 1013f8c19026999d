//! Operators between operands (ECMA-262, 12.6 to 12.13). Each has a level: 1 is that of `**`, which binds tightest, and 12 that
//! of `??`.

ghost use Rattle.std.specs.Prelude.{◌≡◌, ◌<◌, ◌≤◌, suc};
ghost use Rattle.esb_tree.specs.declared.expressions.Expression.TheVariants as e;
ghost use Rattle.esb_reader.specs.Reader.{Gives, choose, fail, pure};
ghost use Rattle.esb_reader.specs.Parts.{behind, over};
ghost use Rattle.esb_inner.specs.Inner.{ReadsWithin};
ghost use Rattle.esb_expression_laws.specs.Operators as operands;
ghost use Rattle.esb_operator_laws.specs.Unary as unary;
ghost use Rattle.esb_operator_laws.specs.Ladder as spec;

use crate::fits::fits_level;
use crate::kinds::is_operator;
use crate::operators::Operators;
use esb_base::{List, Text};
use esb_grammar::Context;
use esb_inner::Readers;
use esb_nodes::{Discard, Listed, Nested, with};
use esb_reader::{Fault, Node, Reading, peek, take};
use esb_token::{Goal, Token};
use esb_tree::{Expression, Operand};
use std::alloc::Global;

/// A first operand and those behind it as a node, where there are any.
fn chained(
    alloc: Global,
    levels: usize,
    first: Node<Expression>,
    rest: Node<List<Operand>>,
    at: usize,
) -> Reading<Node<Expression>>
    ensures { Gives result (over levels e.Binary first rest at) }
{
    if rest.tree.is_empty() {
        rest.discard();
        return Ok((first, at));
    }
    let deepest = first.levels.max(rest.levels);
    if deepest >= levels {
        (first, rest).discard();
        return Err(Fault::NoTree(at));
    }
    let (rest, first) = with(rest.tree, first.tree.boxed(alloc))?;
    Ok((
        Node {
            tree: Expression::Binary(first, rest),
            levels: deepest + 1,
        },
        at,
    ))
}

/// A node that has to be what a level takes.
fn fitting(own: u8, x: Node<Expression>, at: usize) -> Reading<Node<Expression>>
    ensures { Gives result (choose (spec.fits_level own x.tree) (pure x) fail at) }
{
    if !fits_level(own, &x.tree) {
        x.discard();
        return Err(Fault::NoTree(at));
    }
    Ok((x, at))
}

/// A first operand and those behind it, which have to be what their level takes.
fn joined(
    alloc: Global,
    levels: usize,
    own: u8,
    first: Node<Expression>,
    rest: Node<List<Operand>>,
    at: usize,
) -> Reading<Node<Expression>>
    ensures { Gives result (spec.joined levels own first rest at) }
{
    let (x, at) = chained(alloc, levels, first, rest, at)?;
    fitting(own, x, at)
}

/// Whether an operator one level looser than `tight` stands at a place.
#[tactic(auto, unfolding(esb_operator_laws::specs::Ladder::at_operator))]
fn at_operator(text: &Text, context: Context, tight: u8, at: usize) -> bool
    requires { tight < 255 }
    ensures { result ≡ spec.at_operator text.now context (suc tight) at }
{
    is_operator(context, tight, peek(text, Goal::Div, at))
}

impl<
    'a,
    R: Readers,
    L: Fn(Global, &Text, Context, usize, usize) -> Reading<Node<Expression>>,
> Operators<'a, R, L> {
    /// An operator one level looser than `tight`, and its operand.
    #[cycle(binary)]
    #[tactic(auto, unfolding(esb_expression_laws::specs::Operators::operand))]
    fn operand(
        &self,
        context: Context,
        levels: usize,
        tight: u8,
        at: usize,
    ) -> Reading<Node<Operand>>
        requires left { ReadsWithin R.left self.now.levels (L.pre self.now.left) (L.post self.now.left) }
        requires fits { levels ≤ self.now.levels }
        requires small { tight < 255 }
        ensures { Gives result (operands.operand self.now.text.now context (suc tight) (spec.binary self.now.text.now levels context (unary.unary self.now.text.now context (R.left context self.now.text.now) levels) tight) at) }
    {
        let (operator, at) = take(self.text, Goal::Div, at)?;
        if !is_operator(context, tight, operator) {
            return Err(Fault::NoTree(operator.start));
        }
        let (x, at) = self.binary(context, levels, tight, at)?;
        let levels = x.levels;
        let tree = Operand {
            operator,
            value: x.tree,
        };
        Ok((Node { tree, levels }, at))
    }

    /// Operators one level looser than `tight`, each with its operand.
    #[cycle(binary)]
    #[tactic(auto, unfolding(esb_operator_laws::specs::Ladder::items, esb_reader::specs::Reader::repeated))]
    fn items(
        &self,
        context: Context,
        levels: usize,
        tight: u8,
        start: usize,
    ) -> Reading<Node<List<Operand>>>
        requires left { ReadsWithin R.left self.now.levels (L.pre self.now.left) (L.post self.now.left) }
        requires fits { levels ≤ self.now.levels }
        requires small { tight < 255 }
        ensures { Gives result (spec.items self.now.text.now context (suc tight) (spec.binary self.now.text.now levels context (unary.unary self.now.text.now context (R.left context self.now.text.now) levels) tight) start) }
    {
        let mut at = start;
        let mut tree = List::new(self.alloc);
        let mut deepest = 0;
        for _turn in 0..self.text.as_bytes().len() {
            if !at_operator(self.text, context, tight, at) {
                return Ok((
                    Node {
                        tree,
                        levels: deepest,
                    },
                    at,
                ));
            }
            let (list, (operand, end)) = with(tree, self.operand(context, levels, tight, at))?;
            tree = operand.tree.added_to(list)?;
            deepest = deepest.max(operand.levels);
            at = end;
        }
        Ok((
            Node {
                tree,
                levels: deepest,
            },
            at,
        ))
    }

    /// What follows operators up to `tight`: those one level looser. The token that follows is known, so that it isn't read again
    /// for each level.
    #[cycle(binary)]
    fn level_behind(
        &self,
        context: Context,
        levels: usize,
        tight: u8,
        first: Node<Expression>,
        next: Token,
        at: usize,
    ) -> Reading<Node<Expression>>
        requires known { next ≡ behind self.now.text.now at }
        requires left { ReadsWithin R.left self.now.levels (L.pre self.now.left) (L.post self.now.left) }
        requires fits { levels ≤ self.now.levels }
        requires small { tight < 255 }
        ensures { Gives result (spec.step self.now.text.now levels context (suc tight) (pure first) (spec.binary self.now.text.now levels context (unary.unary self.now.text.now context (R.left context self.now.text.now) levels) tight) at) }
    {
        if !is_operator(context, tight, next) {
            return fitting(tight + 1, first, at);
        }
        let (first, (rest, at)) = with(first, self.items(context, levels, tight, at))?;
        joined(self.alloc, levels, tight + 1, first, rest, at)
    }

    /// What follows a first operand that was read: operators up to a level (ECMA-262, 12.6 to 12.13).
    #[cycle(binary)]
    #[tactic(auto, unfolding(esb_operator_laws::specs::Ladder::ladder))]
    pub fn ladder_behind(
        &self,
        context: Context,
        levels: usize,
        level: u8,
        first: Node<Expression>,
        start: usize,
    ) -> Reading<Node<Expression>>
        requires left { ReadsWithin R.left self.now.levels (L.pre self.now.left) (L.post self.now.left) }
        requires fits { levels ≤ self.now.levels }
        ensures { Gives result (spec.ladder self.now.text.now levels context (unary.unary self.now.text.now context (R.left context self.now.text.now) levels) (pure first) level start) }
    {
        let mut x = first;
        let mut at = start;
        let mut next = peek(self.text, Goal::Div, at);
        for tight in 0..level {
            let (y, end) = self.level_behind(context, levels, tight, x, next, at)?;
            x = y;
            if end != at {
                at = end;
                next = peek(self.text, Goal::Div, at);
            }
        }
        Ok((x, at))
    }

    /// Operators up to a level and their operands (ECMA-262, 12.6 to 12.13).
    #[cycle(binary)]
    pub fn binary(
        &self,
        context: Context,
        levels: usize,
        level: u8,
        at: usize,
    ) -> Reading<Node<Expression>>
        requires left { ReadsWithin R.left self.now.levels (L.pre self.now.left) (L.post self.now.left) }
        requires fits { levels ≤ self.now.levels }
        ensures { Gives result (spec.binary self.now.text.now levels context (unary.unary self.now.text.now context (R.left context self.now.text.now) levels) level at) }
    {
        let (first, at) = self.unary(context, levels, at)?;
        self.ladder_behind(context, levels, level, first, at)
    }
}
