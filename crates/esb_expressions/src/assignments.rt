//! Assignments (ECMA-262, 12.15).

ghost use Rattle.std.specs.Prelude.{◌≡◌, ◌≤◌, ◌+◌, IfOk, max, nat_lt, false};
ghost use Rattle.esb_token.specs.declared.goal.Goal.TheVariants as goal;
ghost use Rattle.esb_reader.specs.Reader.{Gives, choose, fail, node, pure};
ghost use Rattle.esb_reader.specs.Parts.{both, token_in};
ghost use Rattle.esb_inner.specs.Inner.{below, ReadsExpressions};
ghost use Rattle.esb_assignment_laws.specs.Assignments as spec;
ghost use Rattle.esb_assignment_laws.specs.Values as values;

use crate::choices::Branch;
use esb_base::{List, Memory, Text};
use esb_grammar::Context;
use esb_inner::{Parser, Readers};
use esb_nodes::{Discard, Nested, with};
use esb_reader::{Fault, Node, Reading, peek, take};
use esb_token::Goal;
use esb_tree::{Expression, Statement, is_assignment};
use std::alloc::Global;

/// What may be assigned to: a LeftHandSideExpression (12.15).
#[tactic(auto, unfolding(esb_assignment_laws::specs::Values::is_left))]
fn is_left(x: &Expression) -> bool
    ensures { result ≡ values.is_left x.now }
{
    !matches!(
        x,
        Expression::PrefixUpdate(_, _)
            | Expression::PostfixUpdate(_, _)
            | Expression::Unary(_, _)
            | Expression::Await(_, _)
            | Expression::Binary(_, _)
            | Expression::Conditional(_, _, _, _, _)
            | Expression::Assignment(_, _, _)
            | Expression::Arrow(_, _, _)
            | Expression::AsyncArrow(_, _, _, _)
            | Expression::Yield(_)
            | Expression::YieldValue(_, _)
            | Expression::YieldEach(_, _, _)
    )
}

/// An operator of an assignment and the AssignmentExpression behind it.
fn assigned_value<
    R: Readers,
    F: Fn(Global, &Text, bool, Context, usize, usize) -> Reading<Node<Expression>>,
    S: Fn(Global, &Text, Context, usize, usize) -> Reading<Node<List<Statement>>>,
>(parser: &Parser<R, F, S>, context: Context, levels: usize, at: usize) -> Reading<Node<Branch>>
    requires inner { ReadsExpressions R.expression parser.now.levels (F.pre parser.now.expression) (F.post parser.now.expression) }
    requires fits { levels ≤ parser.now.levels }
    ensures { Gives result (both (token_in parser.now.text.now goal.Div spec.begins_assignment) (below (R.expression false context) parser.now.text.now levels) at) }
{
    let (operator, at) = take(parser.text, Goal::Div, at)?;
    if !is_assignment(operator.kind) {
        return Err(Fault::NoTree(operator.start));
    }
    let (x, at) = parser.value(context, levels, at)?;
    let levels = x.levels;
    let tree = (operator, x.tree);
    Ok((Node { tree, levels }, at))
}

/// A target and what is assigned to it as an expression.
fn assignment_of(alloc: Global, target: Expression, part: Branch) -> Result<Expression, Memory>
    ensures { IfOk result (λ x. x ≡ spec.make_assignment target part) }
{
    let (operator, value) = part;
    let (value, target) = with(value, target.boxed(alloc))?;
    let (target, value) = with(target, value.boxed(alloc))?;
    Ok(Expression::Assignment(target, operator, value))
}

fn assignment_node(
    alloc: Global,
    levels: usize,
    target: Node<Expression>,
    part: Node<Branch>,
    at: usize,
) -> Reading<Node<Expression>>
    ensures { Gives result (choose (nat_lt (max target.levels part.levels) levels) (pure (node (spec.make_assignment target.tree part.tree) (max target.levels part.levels + 1))) fail at) }
{
    let deepest = target.levels.max(part.levels);
    if deepest >= levels {
        (target, part).discard();
        return Err(Fault::NoTree(at));
    }
    let tree = assignment_of(alloc, target.tree, part.tree)?;
    Ok((
        Node {
            tree,
            levels: deepest + 1,
        },
        at,
    ))
}

/// What follows a ConditionalExpression that was read: behind a LeftHandSideExpression, maybe an operator and the value that is
/// assigned to it (ECMA-262, 12.15).
#[tactic(auto, unfolding(esb_assignment_laws::specs::Assignments::assigned))]
pub fn assignment_behind<
    R: Readers,
    F: Fn(Global, &Text, bool, Context, usize, usize) -> Reading<Node<Expression>>,
    S: Fn(Global, &Text, Context, usize, usize) -> Reading<Node<List<Statement>>>,
>(
    parser: &Parser<R, F, S>,
    context: Context,
    levels: usize,
    target: Node<Expression>,
    at: usize,
) -> Reading<Node<Expression>>
    requires inner { ReadsExpressions R.expression parser.now.levels (F.pre parser.now.expression) (F.post parser.now.expression) }
    requires fits { levels ≤ parser.now.levels }
    ensures { Gives result (spec.assigned parser.now.text.now levels (pure target) (below (R.expression false context) parser.now.text.now levels) at) }
{
    if !is_assignment(peek(parser.text, Goal::Div, at).kind) || !is_left(&target.tree) {
        return Ok((target, at));
    }
    let (target, (part, at)) = with(target, assigned_value(parser, context, levels, at))?;
    assignment_node(parser.alloc, levels, target, part, at)
}
