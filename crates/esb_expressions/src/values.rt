//! Conditional expressions and assignments as a whole (ECMA-262, 12.4 to 12.15).

ghost use Rattle.std.specs.Prelude.{◌≡◌, ◌≤◌, false};
ghost use Rattle.esb_reader.specs.Reader.{Gives, pure};
ghost use Rattle.esb_inner.specs.Inner.{below, ReadsExpressions, ReadsWithin};
ghost use Rattle.esb_operator_laws.specs.Unary as unary;
ghost use Rattle.esb_expressions.specs.Values as spec;

use crate::assignments::assignment_behind;
use crate::choices::choice_behind;
use crate::operators::{Operators, postfix_behind};
use esb_base::{List, Text};
use esb_grammar::Context;
use esb_inner::{Parser, Readers};
use esb_reader::{Node, Reading};
use esb_tree::{Expression, Statement};
use std::alloc::Global;

/// The level of `??`, the loosest operator between operands.
const LOOSEST: u8 = 12;

/// What follows a UnaryExpression that was read (ECMA-262, 12.6 to 12.15).
pub fn operand_behind<
    R: Readers,
    L: Fn(Global, &Text, Context, usize, usize) -> Reading<Node<Expression>>,
    F: Fn(Global, &Text, bool, Context, usize, usize) -> Reading<Node<Expression>>,
    S: Fn(Global, &Text, Context, usize, usize) -> Reading<Node<List<Statement>>>,
>(
    operators: &Operators<R, L>,
    parser: &Parser<R, F, S>,
    context: Context,
    levels: usize,
    first: Node<Expression>,
    at: usize,
) -> Reading<Node<Expression>>
    requires left { ReadsWithin R.left operators.now.levels (L.pre operators.now.left) (L.post operators.now.left) }
    requires inner { ReadsExpressions R.expression parser.now.levels (F.pre parser.now.expression) (F.post parser.now.expression) }
    requires same { operators.now.text.now ≡ parser.now.text.now }
    requires room { levels ≤ operators.now.levels }
    requires fits { levels ≤ parser.now.levels }
    ensures { Gives result (spec.valued parser.now.text.now levels context (unary.unary parser.now.text.now context (R.left context parser.now.text.now) levels) (λ c. below (R.expression false c) parser.now.text.now levels) (pure first) at) }
{
    let (x, at) = operators.ladder_behind(context, levels, LOOSEST, first, at)?;
    let (target, at) = choice_behind(parser, context, levels, x, at)?;
    assignment_behind(parser, context, levels, target, at)
}

/// What follows a LeftHandSideExpression that was read (ECMA-262, 12.4 to 12.15).
pub fn left_behind<
    R: Readers,
    L: Fn(Global, &Text, Context, usize, usize) -> Reading<Node<Expression>>,
    F: Fn(Global, &Text, bool, Context, usize, usize) -> Reading<Node<Expression>>,
    S: Fn(Global, &Text, Context, usize, usize) -> Reading<Node<List<Statement>>>,
>(
    operators: &Operators<R, L>,
    parser: &Parser<R, F, S>,
    context: Context,
    levels: usize,
    x: Node<Expression>,
    at: usize,
) -> Reading<Node<Expression>>
    requires left { ReadsWithin R.left operators.now.levels (L.pre operators.now.left) (L.post operators.now.left) }
    requires inner { ReadsExpressions R.expression parser.now.levels (F.pre parser.now.expression) (F.post parser.now.expression) }
    requires same { operators.now.text.now ≡ parser.now.text.now }
    requires room { levels ≤ operators.now.levels }
    requires fits { levels ≤ parser.now.levels }
    ensures { Gives result (spec.valued parser.now.text.now levels context (unary.unary parser.now.text.now context (R.left context parser.now.text.now) levels) (λ c. below (R.expression false c) parser.now.text.now levels) (unary.postfixed parser.now.text.now levels (pure x)) at) }
{
    let (first, at) = postfix_behind(parser.alloc, parser.text, levels, x, at)?;
    operand_behind(operators, parser, context, levels, first, at)
}

/// A ConditionalExpression, or an assignment with an operator (ECMA-262, 12.14 and 12.15).
pub fn assigned<
    R: Readers,
    L: Fn(Global, &Text, Context, usize, usize) -> Reading<Node<Expression>>,
    F: Fn(Global, &Text, bool, Context, usize, usize) -> Reading<Node<Expression>>,
    S: Fn(Global, &Text, Context, usize, usize) -> Reading<Node<List<Statement>>>,
>(
    operators: &Operators<R, L>,
    parser: &Parser<R, F, S>,
    context: Context,
    levels: usize,
    at: usize,
) -> Reading<Node<Expression>>
    requires left { ReadsWithin R.left operators.now.levels (L.pre operators.now.left) (L.post operators.now.left) }
    requires inner { ReadsExpressions R.expression parser.now.levels (F.pre parser.now.expression) (F.post parser.now.expression) }
    requires same { operators.now.text.now ≡ parser.now.text.now }
    requires room { levels ≤ operators.now.levels }
    requires fits { levels ≤ parser.now.levels }
    ensures { Gives result (spec.valued parser.now.text.now levels context (unary.unary parser.now.text.now context (R.left context parser.now.text.now) levels) (λ c. below (R.expression false c) parser.now.text.now levels) (unary.unary parser.now.text.now context (R.left context parser.now.text.now) levels) at) }
{
    let (first, at) = operators.unary(context, levels, at)?;
    operand_behind(operators, parser, context, levels, first, at)
}
