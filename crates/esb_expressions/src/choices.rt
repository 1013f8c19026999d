//! Choices (ECMA-262, 12.14).

ghost use Rattle.std.specs.Prelude.{◌≡◌, ◌≤◌, ◌+◌, IfOk, max, nat_lt, true, false};
ghost use Rattle.esb_token.specs.declared.kind.Kind.TheVariants as k;
ghost use Rattle.esb_grammar.specs.Contexts as contexts;
ghost use Rattle.esb_reader.specs.Reader.{Gives, choose, fail, node, pure};
ghost use Rattle.esb_reader.specs.Parts.{both, token};
ghost use Rattle.esb_inner.specs.Inner.{below, ReadsExpressions};
ghost use Rattle.esb_assignment_laws.specs.Assignments as spec;
ghost use Rattle.esb_assignment_laws.specs.Values as values;

use esb_base::{List, Memory, Text};
use esb_grammar::Context;
use esb_inner::{Parser, Readers};
use esb_nodes::{Discard, Nested, with};
use esb_reader::{Fault, Node, Reading, expect, peek};
use esb_token::{Goal, Kind, Token};
use esb_tree::{Expression, Statement};
use std::alloc::Global;

/// A token and the expression behind it.
pub type Branch = (Token, Expression);

/// Where `in` is an operator.
fn inside(context: Context) -> Context
    ensures { result ≡ contexts.inside context }
{
    Context {
        has_in: true,
        has_yield: context.has_yield,
        has_await: context.has_await,
    }
}

fn is_question(kind: Kind) -> bool
    ensures { result ≡ values.is_question kind }
{
    matches!(kind, Kind::Question)
}

/// A token of a kind and an AssignmentExpression.
fn branch<
    R: Readers,
    F: Fn(Global, &Text, bool, Context, usize, usize) -> Reading<Node<Expression>>,
    S: Fn(Global, &Text, Context, usize, usize) -> Reading<Node<List<Statement>>>,
>(
    parser: &Parser<R, F, S>,
    kind: Kind,
    context: Context,
    levels: usize,
    at: usize,
) -> Reading<Node<Branch>>
    requires inner { ReadsExpressions R.expression parser.now.levels (F.pre parser.now.expression) (F.post parser.now.expression) }
    requires fits { levels ≤ parser.now.levels }
    ensures { Gives result (both (token parser.now.text.now kind) (below (R.expression false context) parser.now.text.now levels) at) }
{
    let (word, at) = expect(parser.text, kind, at)?;
    let (x, at) = parser.value(context, levels, at)?;
    let levels = x.levels;
    let tree = (word, x.tree);
    Ok((Node { tree, levels }, at))
}

/// The two branches of a choice (12.14). In the first, `in` is an operator.
fn branches<
    R: Readers,
    F: Fn(Global, &Text, bool, Context, usize, usize) -> Reading<Node<Expression>>,
    S: Fn(Global, &Text, Context, usize, usize) -> Reading<Node<List<Statement>>>,
>(
    parser: &Parser<R, F, S>,
    context: Context,
    levels: usize,
    at: usize,
) -> Reading<Node<(Branch, Branch)>>
    requires inner { ReadsExpressions R.expression parser.now.levels (F.pre parser.now.expression) (F.post parser.now.expression) }
    requires fits { levels ≤ parser.now.levels }
    ensures { Gives result (both (both (token parser.now.text.now k.Question) (below (R.expression false (contexts.inside context)) parser.now.text.now levels)) (both (token parser.now.text.now k.Colon) (below (R.expression false context) parser.now.text.now levels)) at) }
{
    let (first, at) = branch(parser, Kind::Question, inside(context), levels, at)?;
    let (first, (second, at)) = with(first, branch(parser, Kind::Colon, context, levels, at))?;
    let levels = first.levels.max(second.levels);
    let tree = (first.tree, second.tree);
    Ok((Node { tree, levels }, at))
}

/// A test and two branches as an expression.
fn choice_of(alloc: Global, test: Expression, parts: (Branch, Branch)) -> Result<Expression, Memory>
    ensures { IfOk result (λ x. x ≡ spec.make_choice test parts) }
{
    let ((question, value), (colon, other)) = parts;
    let ((value, other), test) = with((value, other), test.boxed(alloc))?;
    let ((test, other), value) = with((test, other), value.boxed(alloc))?;
    let ((test, value), other) = with((test, value), other.boxed(alloc))?;
    Ok(Expression::Conditional(test, question, value, colon, other))
}

fn choice_node(
    alloc: Global,
    levels: usize,
    test: Node<Expression>,
    parts: Node<(Branch, Branch)>,
    at: usize,
) -> Reading<Node<Expression>>
    ensures { Gives result (choose (nat_lt (max test.levels parts.levels) levels) (pure (node (spec.make_choice test.tree parts.tree) (max test.levels parts.levels + 1))) fail at) }
{
    let deepest = test.levels.max(parts.levels);
    if deepest >= levels {
        (test, parts).discard();
        return Err(Fault::NoTree(at));
    }
    let tree = choice_of(alloc, test.tree, parts.tree)?;
    Ok((
        Node {
            tree,
            levels: deepest + 1,
        },
        at,
    ))
}

/// What follows a ShortCircuitExpression that was read: maybe `?` and two branches (ECMA-262, 12.14).
#[tactic(auto, unfolding(esb_assignment_laws::specs::Assignments::chosen))]
pub fn choice_behind<
    R: Readers,
    F: Fn(Global, &Text, bool, Context, usize, usize) -> Reading<Node<Expression>>,
    S: Fn(Global, &Text, Context, usize, usize) -> Reading<Node<List<Statement>>>,
>(
    parser: &Parser<R, F, S>,
    context: Context,
    levels: usize,
    test: Node<Expression>,
    at: usize,
) -> Reading<Node<Expression>>
    requires inner { ReadsExpressions R.expression parser.now.levels (F.pre parser.now.expression) (F.post parser.now.expression) }
    requires fits { levels ≤ parser.now.levels }
    ensures { Gives result (spec.chosen parser.now.text.now levels (pure test) (below (R.expression false (contexts.inside context)) parser.now.text.now levels) (below (R.expression false context) parser.now.text.now levels) at) }
{
    if !is_question(peek(parser.text, Goal::Div, at).kind) {
        return Ok((test, at));
    }
    let (test, (parts, at)) = with(test, branches(parser, context, levels, at))?;
    choice_node(parser.alloc, levels, test, parts, at)
}
