//! Bodies of arrow functions (ECMA-262, 14.2).

ghost use Rattle.std.specs.Prelude.{◌≡◌, ◌≤◌, false};
ghost use Rattle.esb_token.specs.declared.goal.Goal.TheVariants as goal;
ghost use Rattle.esb_grammar.specs.Contexts as contexts;
ghost use Rattle.esb_reader.specs.Reader.{Gives};
ghost use Rattle.esb_reader.specs.Parts.{both, token_in};
ghost use Rattle.esb_inner.specs.Inner.{below, ReadsExpressions};
ghost use Rattle.esb_value_laws.specs.Arrows.{is_arrow_on_line as is_arrow_of};
ghost use Rattle.esb_value_laws.specs.Bodies as spec;
ghost use Rattle.esb_values.specs.Handed.{ReadsBlocks, body_of};

use crate::kinds::{is_arrow_on_line, is_left_brace};
use crate::parts::Blocks;
use esb_base::{List, Text};
use esb_grammar::Context;
use esb_inner::{Parser, Readers};
use esb_reader::{Fault, Node, Reading, peek, take};
use esb_token::{Goal, Token};
use esb_tree::{Block, ConciseBody, Expression, Statement};
use std::alloc::Global;

/// Reads arrow functions. What reads their blocks within a number of levels is handed in.
#[derive(Drop)]
pub struct Arrows<'a, R, F, S, B> {
    pub parser: &'a Parser<'a, R, F, S>,
    pub block: &'a B,
}

/// The parameters of what stands in a block.
fn inside(context: Context) -> Context
    ensures { result ≡ contexts.inside context }
{
    Context {
        has_in: true,
        has_yield: context.has_yield,
        has_await: context.has_await,
    }
}

/// The parameters of the body of an arrow function, which may be async.
fn of_arrow(context: Context, is_async_body: bool) -> Context
    ensures { result ≡ contexts.of_arrow context is_async_body }
{
    Context {
        has_in: context.has_in,
        has_yield: false,
        has_await: is_async_body,
    }
}

impl<
    'a,
    R: Readers + Blocks,
    F: Fn(Global, &Text, bool, Context, usize, usize) -> Reading<Node<Expression>>,
    S: Fn(Global, &Text, Context, usize, usize) -> Reading<Node<List<Statement>>>,
    B: Fn(Global, &Text, Context, usize, usize) -> Reading<Node<Block>>,
> Arrows<'a, R, F, S, B> {
    /// ConciseBody, AsyncConciseBody (ECMA-262, 14.2 and 14.8): a block where `{` is seen, and else a value.
    #[tactic(auto, unfolding(esb_value_laws::specs::Bodies::concise))]
    pub fn concise(&self, context: Context, levels: usize, at: usize) -> Reading<Node<ConciseBody>>
        requires inner { ReadsExpressions R.expression self.now.parser.now.levels (F.pre self.now.parser.now.expression) (F.post self.now.parser.now.expression) }
        requires blocks { ReadsBlocks R.block self.now.parser.now.levels (B.pre self.now.block.now) (B.post self.now.block.now) }
        requires fits { levels ≤ self.now.parser.now.levels }
        ensures { Gives result (spec.concise self.now.parser.now.text.now (R.block (contexts.inside context) self.now.parser.now.text.now levels) (below (R.expression false context) self.now.parser.now.text.now levels) at) }
    {
        if is_left_brace(peek(self.parser.text, Goal::Div, at).kind) {
            let inner = inside(context);
            let (block, at) = (self.block)(self.parser.alloc, self.parser.text, inner, levels, at)?;
            let levels = block.levels;
            let tree = ConciseBody::ConciseBlock(block.tree);
            Ok((Node { tree, levels }, at))
        } else {
            let (x, at) = self.parser.value(context, levels, at)?;
            let levels = x.levels;
            let tree = ConciseBody::ConciseValue(x.tree);
            Ok((Node { tree, levels }, at))
        }
    }

    /// `=>` on the line of what stands before it, and a body.
    pub(crate) fn arrow_part(
        &self,
        context: Context,
        is_async_body: bool,
        levels: usize,
        at: usize,
    ) -> Reading<Node<(Token, ConciseBody)>>
        requires inner { ReadsExpressions R.expression self.now.parser.now.levels (F.pre self.now.parser.now.expression) (F.post self.now.parser.now.expression) }
        requires blocks { ReadsBlocks R.block self.now.parser.now.levels (B.pre self.now.block.now) (B.post self.now.block.now) }
        requires fits { levels ≤ self.now.parser.now.levels }
        ensures { Gives result (both (token_in self.now.parser.now.text.now goal.Div is_arrow_of) (body_of R.expression R.block context self.now.parser.now.text.now levels is_async_body) at) }
    {
        let (word, at) = take(self.parser.text, Goal::Div, at)?;
        if !is_arrow_on_line(word) {
            return Err(Fault::NoTree(word.start));
        }
        let inner = of_arrow(context, is_async_body);
        let (body, at) = self.concise(inner, levels, at)?;
        let levels = body.levels;
        let tree = (word, body.tree);
        Ok((Node { tree, levels }, at))
    }
}
