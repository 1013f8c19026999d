//! Operators before and behind operands (ECMA-262, 12.4 and 12.5, and `await` of 14.7).

ghost use Rattle.std.specs.Prelude.{◌≡◌, ◌≤◌, ◌+◌, IfOk, nat_lt};
ghost use Rattle.esb_reader.specs.Reader.{Gives, choose, fail, node, pure};
ghost use Rattle.esb_inner.specs.Inner.{ReadsWithin};
ghost use Rattle.esb_operator_laws.specs.Unary as spec;
ghost use Rattle.esb_expressions.specs.Prefixes as prefixes;

use crate::kinds::{begins_postfix, is_prefix, is_update};
use esb_base::{Memory, Text};
use esb_grammar::Context;
use esb_inner::Readers;
use esb_nodes::{Discard, Nested, with};
use esb_reader::{Fault, Node, Reading, peek, take};
use esb_token::{Goal, Token};
use esb_tree::{Expression, is_unary};
use std::alloc::Global;
use std::marker::PhantomData;

/// Reads operators. What reads a LeftHandSideExpression within a number of levels is handed in.
#[derive(Drop)]
pub struct Operators<'a, R, L> {
    pub alloc: Global,
    pub text: &'a Text,
    /// How many nodes may stand in one another at most.
    pub levels: usize,
    pub left: L,
    /// Whose definitions say what `left` gives.
    pub readers: PhantomData<R>,
}

/// An operator and the operand behind it as an expression.
fn prefix_of(alloc: Global, operator: Token, x: Expression) -> Result<Expression, Memory>
    ensures { IfOk result (λ made. made ≡ spec.make_prefix (operator, x)) }
{
    let x = x.boxed(alloc)?;
    if is_update(operator.kind) {
        Ok(Expression::PrefixUpdate(operator, x))
    } else if is_unary(operator.kind) {
        Ok(Expression::Unary(operator, x))
    } else {
        Ok(Expression::Await(operator, x))
    }
}

/// What follows a LeftHandSideExpression that was read: maybe `++` or `--` (ECMA-262, 12.4).
#[tactic(auto, unfolding(esb_operator_laws::specs::Unary::postfixed))]
pub fn postfix_behind(
    alloc: Global,
    text: &Text,
    levels: usize,
    x: Node<Expression>,
    at: usize,
) -> Reading<Node<Expression>>
    ensures { Gives result (spec.postfixed text.now levels (pure x) at) }
{
    if !begins_postfix(peek(text, Goal::Div, at)) {
        return Ok((x, at));
    }
    let (x, (operator, end)) = with(x, take(text, Goal::Div, at))?;
    if !begins_postfix(operator) || x.levels >= levels {
        x.discard();
        return Err(Fault::NoTree(operator.start));
    }
    let levels = x.levels + 1;
    let tree = Expression::PostfixUpdate(x.tree.boxed(alloc)?, operator);
    Ok((Node { tree, levels }, end))
}

/// An operator and its operand, which were read, as a node.
fn prefix_node(
    alloc: Global,
    levels: usize,
    operator: Token,
    x: Node<Expression>,
    at: usize,
) -> Reading<Node<Expression>>
    ensures { Gives result (choose (nat_lt x.levels levels) (pure (node (spec.make_prefix (operator, x.tree)) (x.levels + 1))) fail at) }
{
    if x.levels >= levels {
        x.discard();
        return Err(Fault::NoTree(at));
    }
    let levels = x.levels + 1;
    let tree = prefix_of(alloc, operator, x.tree)?;
    Ok((Node { tree, levels }, at))
}

impl<
    'a,
    R: Readers,
    L: Fn(Global, &Text, Context, usize, usize) -> Reading<Node<Expression>>,
> Operators<'a, R, L> {
    /// A LeftHandSideExpression.
    fn read_left(&self, context: Context, levels: usize, at: usize) -> Reading<Node<Expression>>
        requires left { ReadsWithin R.left self.now.levels (L.pre self.now.left) (L.post self.now.left) }
        requires fits { levels ≤ self.now.levels }
        ensures { Gives result (R.left context self.now.text.now levels at) }
    {
        (self.left)(self.alloc, self.text, context, levels, at)
    }

    /// A LeftHandSideExpression, and maybe `++` or `--` behind it (ECMA-262, 12.4).
    #[tactic(auto, unfolding(esb_operator_laws::specs::Unary::postfixed))]
    pub fn postfixed(&self, context: Context, levels: usize, at: usize) -> Reading<Node<Expression>>
        requires left { ReadsWithin R.left self.now.levels (L.pre self.now.left) (L.post self.now.left) }
        requires fits { levels ≤ self.now.levels }
        ensures { Gives result (spec.postfixed self.now.text.now levels (R.left context self.now.text.now levels) at) }
    {
        let (x, at) = self.read_left(context, levels, at)?;
        postfix_behind(self.alloc, self.text, levels, x, at)
    }

    /// A UnaryExpression within the levels below a number.
    #[cycle(unary)]
    #[tactic(auto, unfolding(crate::specs::Prefixes::unary_below))]
    fn unary_below(&self, context: Context, levels: usize, at: usize) -> Reading<Node<Expression>>
        requires left { ReadsWithin R.left self.now.levels (L.pre self.now.left) (L.post self.now.left) }
        requires fits { levels ≤ self.now.levels }
        ensures { Gives result (prefixes.unary_below self.now.text.now context (R.left context self.now.text.now) levels at) }
    {
        if levels == 0 {
            return Err(Fault::NoTree(at));
        }
        self.unary(context, levels - 1, at)
    }

    /// An operator and its operand.
    #[cycle(unary)]
    #[tactic(auto, unfolding(esb_operator_laws::specs::Unary::prefixed))]
    fn prefixed(&self, context: Context, levels: usize, at: usize) -> Reading<Node<Expression>>
        requires left { ReadsWithin R.left self.now.levels (L.pre self.now.left) (L.post self.now.left) }
        requires fits { levels ≤ self.now.levels }
        ensures { Gives result (spec.prefixed self.now.text.now context levels (prefixes.unary_below self.now.text.now context (R.left context self.now.text.now) levels) at) }
    {
        let (operator, at) = take(self.text, Goal::Div, at)?;
        if !is_prefix(context, operator.kind) {
            return Err(Fault::NoTree(operator.start));
        }
        let (x, at) = self.unary_below(context, levels, at)?;
        prefix_node(self.alloc, levels, operator, x, at)
    }

    /// A UnaryExpression (ECMA-262, 12.5): operators before an UpdateExpression, among them `await` (14.7).
    #[cycle(unary)]
    pub fn unary(&self, context: Context, levels: usize, at: usize) -> Reading<Node<Expression>>
        requires left { ReadsWithin R.left self.now.levels (L.pre self.now.left) (L.post self.now.left) }
        requires fits { levels ≤ self.now.levels }
        ensures { Gives result (spec.unary self.now.text.now context (R.left context self.now.text.now) levels at) }
    {
        if is_prefix(context, peek(self.text, Goal::Div, at).kind) {
            return self.prefixed(context, levels, at);
        }
        self.postfixed(context, levels, at)
    }
}
