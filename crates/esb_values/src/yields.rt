//! `yield` (ECMA-262, 14.4).

ghost use Rattle.std.specs.Prelude.{◌≡◌, ◌≤◌, ◌+◌, nat_lt, false};
ghost use Rattle.esb_token.specs.declared.goal.Goal.TheVariants as goal;
ghost use Rattle.esb_reader.specs.Reader.{Gives, choose, fail, node, pure};
ghost use Rattle.esb_reader.specs.Parts.{both, token_in};
ghost use Rattle.esb_inner.specs.Inner.{below, ReadsExpressions};
ghost use Rattle.esb_literal_laws.specs.Forks as forks;
ghost use Rattle.esb_value_laws.specs.Yields as spec;

use crate::kinds::{goes_on_line, is_star_on_line, is_yield};
use esb_base::{List, Text};
use esb_grammar::Context;
use esb_inner::{Parser, Readers};
use esb_nodes::{Discard, Nested};
use esb_reader::{Fault, Node, Reading, peek, take};
use esb_token::{Goal, Token};
use esb_tree::{Expression, Statement};
use std::alloc::Global;

/// The token behind the next one.
fn second(text: &Text, at: usize) -> Token
    ensures { result ≡ forks.second text.now at }
{
    let first = peek(text, Goal::Div, at);
    peek(text, Goal::Div, first.end)
}

/// `yield` alone.
#[tactic(auto, unfolding(esb_value_laws::specs::Yields::yield_alone))]
fn yield_alone(text: &Text, context: Context, levels: usize, at: usize) -> Reading<Node<Expression>>
    ensures { Gives result (spec.yield_alone text.now context levels at) }
{
    let (word, at) = take(text, Goal::Div, at)?;
    if !is_yield(context, word) || levels == 0 {
        return Err(Fault::NoTree(word.start));
    }
    let tree = Expression::Yield(word);
    Ok((Node { tree, levels: 1 }, at))
}

/// A word and what stands behind it as a node.
fn value_node(
    alloc: Global,
    levels: usize,
    word: Token,
    x: Node<Expression>,
    at: usize,
) -> Reading<Node<Expression>>
    ensures { Gives result (choose (nat_lt x.levels levels) (pure (node (spec.make_yield_value (word, x.tree)) (x.levels + 1))) fail at) }
{
    if x.levels >= levels {
        x.discard();
        return Err(Fault::NoTree(at));
    }
    let levels = x.levels + 1;
    let value = x.tree.boxed(alloc)?;
    let tree = Expression::YieldValue(word, value);
    Ok((Node { tree, levels }, at))
}

fn each_node(
    alloc: Global,
    levels: usize,
    word: Token,
    part: Node<(Token, Expression)>,
    at: usize,
) -> Reading<Node<Expression>>
    ensures { Gives result (choose (nat_lt part.levels levels) (pure (node (spec.make_yield_each (word, part.tree)) (part.levels + 1))) fail at) }
{
    if part.levels >= levels {
        part.discard();
        return Err(Fault::NoTree(at));
    }
    let levels = part.levels + 1;
    let (star, x) = part.tree;
    let value = x.boxed(alloc)?;
    let tree = Expression::YieldEach(word, star, value);
    Ok((Node { tree, levels }, at))
}

/// `*` on its line and a value.
fn starred<
    R: Readers,
    F: Fn(Global, &Text, bool, Context, usize, usize) -> Reading<Node<Expression>>,
    S: Fn(Global, &Text, Context, usize, usize) -> Reading<Node<List<Statement>>>,
>(
    parser: &Parser<R, F, S>,
    context: Context,
    levels: usize,
    at: usize,
) -> Reading<Node<(Token, Expression)>>
    requires inner { ReadsExpressions R.expression parser.now.levels (F.pre parser.now.expression) (F.post parser.now.expression) }
    requires fits { levels ≤ parser.now.levels }
    ensures { Gives result (both (token_in parser.now.text.now goal.Div spec.is_star_on_line) (below (R.expression false context) parser.now.text.now levels) at) }
{
    let (star, at) = take(parser.text, Goal::Div, at)?;
    if !is_star_on_line(star) {
        return Err(Fault::NoTree(star.start));
    }
    let (x, at) = parser.value(context, levels, at)?;
    let levels = x.levels;
    let tree = (star, x.tree);
    Ok((Node { tree, levels }, at))
}

/// `yield` and a value on its line.
#[tactic(auto, unfolding(esb_value_laws::specs::Yields::yield_value))]
fn yield_value<
    R: Readers,
    F: Fn(Global, &Text, bool, Context, usize, usize) -> Reading<Node<Expression>>,
    S: Fn(Global, &Text, Context, usize, usize) -> Reading<Node<List<Statement>>>,
>(parser: &Parser<R, F, S>, context: Context, levels: usize, at: usize) -> Reading<Node<Expression>>
    requires inner { ReadsExpressions R.expression parser.now.levels (F.pre parser.now.expression) (F.post parser.now.expression) }
    requires fits { levels ≤ parser.now.levels }
    ensures { Gives result (spec.yield_value parser.now.text.now context levels (below (R.expression false context) parser.now.text.now levels) at) }
{
    let (word, at) = take(parser.text, Goal::Div, at)?;
    if !is_yield(context, word) || peek(parser.text, Goal::Div, at).after_line {
        return Err(Fault::NoTree(word.start));
    }
    let (x, at) = parser.value(context, levels, at)?;
    value_node(parser.alloc, levels, word, x, at)
}

/// `yield`, `*` and a value.
#[tactic(auto, unfolding(esb_value_laws::specs::Yields::yield_each))]
fn yield_each<
    R: Readers,
    F: Fn(Global, &Text, bool, Context, usize, usize) -> Reading<Node<Expression>>,
    S: Fn(Global, &Text, Context, usize, usize) -> Reading<Node<List<Statement>>>,
>(parser: &Parser<R, F, S>, context: Context, levels: usize, at: usize) -> Reading<Node<Expression>>
    requires inner { ReadsExpressions R.expression parser.now.levels (F.pre parser.now.expression) (F.post parser.now.expression) }
    requires fits { levels ≤ parser.now.levels }
    ensures { Gives result (spec.yield_each parser.now.text.now context levels (below (R.expression false context) parser.now.text.now levels) at) }
{
    let (word, at) = take(parser.text, Goal::Div, at)?;
    if !is_yield(context, word) {
        return Err(Fault::NoTree(word.start));
    }
    let (part, at) = starred(parser, context, levels, at)?;
    each_node(parser.alloc, levels, word, part, at)
}

/// YieldExpression (ECMA-262, 14.4): the word, and by the token behind it `*` and a value, a value, or nothing.
#[tactic(auto, unfolding(esb_value_laws::specs::Yields::yielded))]
pub fn yielded<
    R: Readers,
    F: Fn(Global, &Text, bool, Context, usize, usize) -> Reading<Node<Expression>>,
    S: Fn(Global, &Text, Context, usize, usize) -> Reading<Node<List<Statement>>>,
>(parser: &Parser<R, F, S>, context: Context, levels: usize, at: usize) -> Reading<Node<Expression>>
    requires inner { ReadsExpressions R.expression parser.now.levels (F.pre parser.now.expression) (F.post parser.now.expression) }
    requires fits { levels ≤ parser.now.levels }
    ensures { Gives result (spec.yielded parser.now.text.now context levels (below (R.expression false context) parser.now.text.now levels) at) }
{
    let behind = second(parser.text, at);
    if is_star_on_line(behind) {
        yield_each(parser, context, levels, at)
    } else if goes_on_line(behind) {
        yield_value(parser, context, levels, at)
    } else {
        yield_alone(parser.text, context, levels, at)
    }
}
