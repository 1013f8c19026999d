//! Arrow functions (ECMA-262, 14.2 and 14.8).

ghost use Rattle.std.specs.Prelude.{◌≡◌, ◌≤◌, ◌+◌, IfOk, max, nat_lt, true, false};
ghost use Rattle.esb_token.specs.declared.goal.Goal.TheVariants as goal;
ghost use Rattle.esb_reader.specs.Reader.{Gives, choose, fail, node, pure};
ghost use Rattle.esb_reader.specs.Parts.{behind, both, token_in};
ghost use Rattle.esb_inner.specs.Inner.{ReadsExpressions};
ghost use Rattle.esb_value_laws.specs.Arrows as spec;
ghost use Rattle.esb_values.specs.Handed.{ReadsBlocks, body_of};
ghost use Rattle.esb_values.specs.ListsFirst as lists;

use crate::bodies::Arrows;
use crate::kinds::{is_arrow_on_line, is_left_parenthesis, is_name_on_line, refers};
use crate::parts::Blocks;
use crate::words::is_async;
use esb_base::{List, Memory, Text};
use esb_grammar::Context;
use esb_inner::Readers;
use esb_nodes::{Discard, Nested, with};
use esb_reader::{Fault, Node, Reading, peek, take};
use esb_token::{Goal, Token};
use esb_tree::{Block, ConciseBody, Expression, Statement};
use std::alloc::Global;

/// `async`, a name and `=>` on one line. The first of them was looked at already.
#[tactic(auto, unfolding(esb_value_laws::specs::Arrows::at_async_name))]
pub fn at_async_name(text: &Text, first: Token, at: usize) -> bool
    requires known { first ≡ behind text.now at }
    ensures { result ≡ spec.at_async_name text.now at }
{
    if !is_async(text, first) {
        return false;
    }
    let name = peek(text, Goal::Div, first.end);
    is_name_on_line(name) && is_arrow_on_line(peek(text, Goal::Div, name.end))
}

/// `async` and `(`. The first of them was looked at already.
pub fn at_async_list(text: &Text, first: Token, at: usize) -> bool
    requires known { first ≡ behind text.now at }
    ensures { result ≡ lists.at_async_list text.now at }
{
    is_async(text, first) && is_left_parenthesis(peek(text, Goal::Div, first.end).kind)
}

/// A name and `=>` on its line. The name was looked at already.
#[tactic(auto, unfolding(esb_value_laws::specs::Arrows::at_name))]
pub fn at_name(text: &Text, context: Context, first: Token, at: usize) -> bool
    requires known { first ≡ behind text.now at }
    ensures { result ≡ spec.at_name text.now context at }
{
    refers(context, first) && is_arrow_on_line(peek(text, Goal::Div, first.end))
}

/// A name as the head of an arrow function.
#[tactic(auto, unfolding(esb_value_laws::specs::Arrows::head_name))]
fn head_name(text: &Text, context: Context, at: usize) -> Reading<Node<Expression>>
    ensures { Gives result (spec.head_name text.now context at) }
{
    let (name, end) = take(text, Goal::Div, at)?;
    if !refers(context, name) {
        return Err(Fault::NoTree(name.start));
    }
    let tree = Expression::Primary(name);
    Ok((Node { tree, levels: 0 }, end))
}

/// A head and what stands behind it as an expression.
fn arrow_of(
    alloc: Global,
    head: Expression,
    part: (Token, ConciseBody),
) -> Result<Expression, Memory>
    ensures { IfOk result (λ x. x ≡ spec.make_arrow (head, part)) }
{
    let (word, body) = part;
    let (body, head) = with(body, head.boxed(alloc))?;
    let (head, body) = with(head, body.boxed(alloc))?;
    Ok(Expression::Arrow(head, word, body))
}

fn arrow_node(
    alloc: Global,
    levels: usize,
    head: Node<Expression>,
    part: Node<(Token, ConciseBody)>,
    at: usize,
) -> Reading<Node<Expression>>
    ensures { Gives result (choose (nat_lt (max head.levels part.levels) levels) (pure (node (spec.make_arrow (head.tree, part.tree)) (max head.levels part.levels + 1))) fail at) }
{
    let deepest = head.levels.max(part.levels);
    if deepest >= levels {
        head.discard();
        part.discard();
        return Err(Fault::NoTree(at));
    }
    let tree = arrow_of(alloc, head.tree, part.tree)?;
    Ok((
        Node {
            tree,
            levels: deepest + 1,
        },
        at,
    ))
}

fn async_node(
    alloc: Global,
    levels: usize,
    word: Token,
    part: Node<(Token, (Token, ConciseBody))>,
    at: usize,
) -> Reading<Node<Expression>>
    ensures { Gives result (choose (nat_lt part.levels levels) (pure (node (spec.make_async_arrow (word, part.tree)) (part.levels + 1))) fail at) }
{
    if part.levels >= levels {
        part.discard();
        return Err(Fault::NoTree(at));
    }
    let levels = part.levels + 1;
    let (name, (arrow, body)) = part.tree;
    let body = body.boxed(alloc)?;
    let tree = Expression::AsyncArrow(word, name, arrow, body);
    Ok((Node { tree, levels }, at))
}

impl<
    'a,
    R: Readers + Blocks,
    F: Fn(Global, &Text, bool, Context, usize, usize) -> Reading<Node<Expression>>,
    S: Fn(Global, &Text, Context, usize, usize) -> Reading<Node<List<Statement>>>,
    B: Fn(Global, &Text, Context, usize, usize) -> Reading<Node<Block>>,
> Arrows<'a, R, F, S, B> {
    /// What follows the head of an arrow function that was read (ECMA-262, 14.2): `=>` on its line and a body.
    #[tactic(auto, unfolding(esb_value_laws::specs::Arrows::arrow))]
    pub fn arrow_behind(
        &self,
        context: Context,
        is_async_body: bool,
        levels: usize,
        head: Node<Expression>,
        at: usize,
    ) -> Reading<Node<Expression>>
        requires inner { ReadsExpressions R.expression self.now.parser.now.levels (F.pre self.now.parser.now.expression) (F.post self.now.parser.now.expression) }
        requires blocks { ReadsBlocks R.block self.now.parser.now.levels (B.pre self.now.block.now) (B.post self.now.block.now) }
        requires fits { levels ≤ self.now.parser.now.levels }
        ensures { Gives result (spec.arrow self.now.parser.now.text.now levels (pure head) (body_of R.expression R.block context self.now.parser.now.text.now levels is_async_body) at) }
    {
        let (head, (part, at)) = with(head, self.arrow_part(context, is_async_body, levels, at))?;
        arrow_node(self.parser.alloc, levels, head, part, at)
    }

    /// ArrowFunction of one name (ECMA-262, 14.2).
    #[tactic(auto, unfolding(esb_value_laws::specs::Arrows::arrow))]
    pub fn name_arrow(
        &self,
        context: Context,
        levels: usize,
        at: usize,
    ) -> Reading<Node<Expression>>
        requires inner { ReadsExpressions R.expression self.now.parser.now.levels (F.pre self.now.parser.now.expression) (F.post self.now.parser.now.expression) }
        requires blocks { ReadsBlocks R.block self.now.parser.now.levels (B.pre self.now.block.now) (B.post self.now.block.now) }
        requires fits { levels ≤ self.now.parser.now.levels }
        ensures { Gives result (spec.arrow self.now.parser.now.text.now levels (spec.head_name self.now.parser.now.text.now context) (body_of R.expression R.block context self.now.parser.now.text.now levels false) at) }
    {
        let (head, at) = head_name(self.parser.text, context, at)?;
        self.arrow_behind(context, false, levels, head, at)
    }

    /// A name on its line, `=>` on the name's, and the body of an async arrow function.
    fn named_part(
        &self,
        context: Context,
        levels: usize,
        at: usize,
    ) -> Reading<Node<(Token, (Token, ConciseBody))>>
        requires inner { ReadsExpressions R.expression self.now.parser.now.levels (F.pre self.now.parser.now.expression) (F.post self.now.parser.now.expression) }
        requires blocks { ReadsBlocks R.block self.now.parser.now.levels (B.pre self.now.block.now) (B.post self.now.block.now) }
        requires fits { levels ≤ self.now.parser.now.levels }
        ensures { Gives result (both (token_in self.now.parser.now.text.now goal.Div spec.is_name_on_line) (both (token_in self.now.parser.now.text.now goal.Div spec.is_arrow_on_line) (body_of R.expression R.block context self.now.parser.now.text.now levels true)) at) }
    {
        let (name, at) = take(self.parser.text, Goal::Div, at)?;
        if !is_name_on_line(name) {
            return Err(Fault::NoTree(name.start));
        }
        let (part, at) = self.arrow_part(context, true, levels, at)?;
        let levels = part.levels;
        let tree = (name, part.tree);
        Ok((Node { tree, levels }, at))
    }

    /// AsyncArrowFunction of one name (ECMA-262, 14.8).
    #[tactic(auto, unfolding(esb_value_laws::specs::Arrows::async_arrow))]
    pub fn async_arrow(
        &self,
        context: Context,
        levels: usize,
        at: usize,
    ) -> Reading<Node<Expression>>
        requires inner { ReadsExpressions R.expression self.now.parser.now.levels (F.pre self.now.parser.now.expression) (F.post self.now.parser.now.expression) }
        requires blocks { ReadsBlocks R.block self.now.parser.now.levels (B.pre self.now.block.now) (B.post self.now.block.now) }
        requires fits { levels ≤ self.now.parser.now.levels }
        ensures { Gives result (spec.async_arrow self.now.parser.now.text.now levels (body_of R.expression R.block context self.now.parser.now.text.now levels true) at) }
    {
        let (word, at) = take(self.parser.text, Goal::Div, at)?;
        if !is_async(self.parser.text, word) {
            return Err(Fault::NoTree(word.start));
        }
        let (part, at) = self.named_part(context, levels, at)?;
        async_node(self.parser.alloc, levels, word, part, at)
    }
}
