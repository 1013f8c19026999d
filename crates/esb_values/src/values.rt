//! AssignmentExpressions as a whole (ECMA-262, 12.15). A list in parentheses is read once, and the token behind it says what it is.

ghost use Rattle.std.specs.Prelude.{◌≡◌, ◌<◌, ◌≤◌, IfOk, true, false, Some};
ghost use Rattle.esb_reader.specs.Reader.{Gives};
ghost use Rattle.esb_reader.specs.Parts.{behind};
ghost use Rattle.esb_access_laws.specs.Links.{is_left_parenthesis as is_left_parenthesis_of};
ghost use Rattle.esb_values.specs.Behind as read;
ghost use Rattle.esb_values.specs.ListsFirst as lists;
ghost use Rattle.esb_values.specs.Owed.{Owed};
ghost use Rattle.esb_values.specs.Together as spec;

use crate::arrows::{at_async_list, at_async_name, at_name};
use crate::bodies::Arrows;
use crate::covers::covers_parameters;
use crate::kinds::{is_arrow_on_line, is_left_parenthesis, is_yield};
use crate::lists::is_plain_list;
use crate::parts::Blocks;
use crate::yields::yielded;
use esb_access::{Accesses, Parts};
use esb_base::{List, Memory, Text};
use esb_expressions::{Operators, assigned, left_behind};
use esb_grammar::Context;
use esb_inner::Readers;
use esb_nodes::{Discard, Listed, Nested, with};
use esb_reader::{Fault, Node, Reading, peek};
use esb_token::{Goal, Token};
use esb_tree::{Block, Bracketed, Expression, Link, Statement, Substitutions};
use std::alloc::Global;

/// Reads AssignmentExpressions. What reads members and calls, operators, and the blocks of arrow functions within a number of
/// levels is handed in.
#[derive(Drop)]
pub struct Assignments<'a, R, L, F, S, P, A, T, B> {
    pub accesses: &'a Accesses<'a, R, F, S, P, A, T>,
    pub operators: &'a Operators<'a, R, L>,
    pub block: B,
}

/// A list that was read as an expression.
fn parenthesized(alloc: Global, list: Node<Bracketed>) -> Result<Node<Expression>, Memory>
    requires { list.levels < usize.MAX }
    ensures { IfOk result (λ x. x ≡ read.listed_node list) }
{
    let levels = list.levels + 1;
    let list = list.tree.boxed(alloc)?;
    let tree = Expression::Parenthesized(list);
    Ok(Node { tree, levels })
}

/// A name and a list that was read as an expression.
fn called(alloc: Global, word: Token, list: Node<Bracketed>) -> Result<Node<Expression>, Memory>
    requires { list.levels < usize.MAX }
    ensures { IfOk result (λ x. x ≡ read.call_node word list) }
{
    let levels = list.levels + 1;
    let links = Link::Call(list.tree).added_to(List::new(alloc))?;
    let (links, object) = with(links, Expression::Primary(word).boxed(alloc))?;
    let tree = Expression::Member(object, links);
    Ok(Node { tree, levels })
}

/// Whether a list of so many levels behind `async` is that of an async arrow function, by the places where it begins and ends.
fn is_async_head(text: &Text, levels: usize, start: usize, depth: usize, end: usize) -> bool
    ensures { result ≡ read.is_async_head text.now levels start depth end }
{
    !peek(text, Goal::Div, start).after_line
        && depth < levels
        && is_arrow_on_line(peek(text, Goal::Div, end))
}

/// Whether a list may stand where it does: before an arrow as parameters, and else as values.
fn fits(arrow: bool, levels: usize, list: &Bracketed) -> bool
    ensures { result ≡ read.fits_behind arrow levels list.now }
{
    if arrow {
        covers_parameters(levels, list)
    } else {
        is_plain_list(list)
    }
}

impl<
    'a,
    R: Readers + Parts + Blocks,
    L: Fn(Global, &Text, Context, usize, usize) -> Reading<Node<Expression>>,
    F: Fn(Global, &Text, bool, Context, usize, usize) -> Reading<Node<Expression>>,
    S: Fn(Global, &Text, Context, usize, usize) -> Reading<Node<List<Statement>>>,
    P: Fn(Global, &Text, Context, usize, usize) -> Reading<Node<Expression>>,
    A: Fn(Global, &Text, Context, usize, usize) -> Reading<Node<Bracketed>>,
    T: Fn(Global, &Text, Context, usize, usize) -> Reading<Node<Substitutions>>,
    B: Fn(Global, &Text, Context, usize, usize) -> Reading<Node<Block>>,
> Assignments<'a, R, L, F, S, P, A, T, B> {
    /// What follows a LeftHandSideExpression that was read (12.4 to 12.15).
    fn left_behind(
        &self,
        context: Context,
        levels: usize,
        x: Node<Expression>,
        at: usize,
    ) -> Reading<Node<Expression>>
        requires owed { Owed R.expression R.left R.primary R.arguments R.template R.block L.Fn F.Fn A.Fn T.Fn B.Fn self.now }
        requires fits { levels ≤ self.now.accesses.now.parser.now.levels }
        ensures { Gives result (spec.behind_left R.expression R.primary R.arguments R.template R.block context self.now.accesses.now.parser.now.text.now levels x at) }
    {
        left_behind(self.operators, self.accesses.parser, context, levels, x, at)
    }

    /// What follows a PrimaryExpression that was read (12.3 to 12.15).
    #[tactic(auto, using(crate::proofs::ReadFirst::links_first))]
    fn primary_behind(
        &self,
        context: Context,
        levels: usize,
        x: Node<Expression>,
        at: usize,
    ) -> Reading<Node<Expression>>
        requires owed { Owed R.expression R.left R.primary R.arguments R.template R.block L.Fn F.Fn A.Fn T.Fn B.Fn self.now }
        requires fits { levels ≤ self.now.accesses.now.parser.now.levels }
        ensures { Gives result (spec.behind_primary R.expression R.primary R.arguments R.template R.block context self.now.accesses.now.parser.now.text.now levels x at) }
    {
        let (y, at) = self.accesses.links_behind(context, true, levels, x, at)?;
        self.left_behind(context, levels, y, at)
    }

    /// What follows `async` and Arguments behind it that were read, where these are called.
    #[tactic(auto, using(crate::proofs::ReadFirst::links_first))]
    fn call_behind(
        &self,
        context: Context,
        levels: usize,
        word: Token,
        list: Node<Bracketed>,
        end: usize,
    ) -> Reading<Node<Expression>>
        requires owed { Owed R.expression R.left R.primary R.arguments R.template R.block L.Fn F.Fn A.Fn T.Fn B.Fn self.now }
        requires fits { levels ≤ self.now.accesses.now.parser.now.levels }
        requires seen { is_left_parenthesis_of (behind self.now.accesses.now.parser.now.text.now word.end).kind ≡ true }
        requires read { R.arguments context self.now.accesses.now.parser.now.text.now levels word.end ≡ Some (list, end) }
        ensures { Gives result (spec.behind_primary R.expression R.primary R.arguments R.template R.block context self.now.accesses.now.parser.now.text.now levels (read.word_node word) word.end) }
    {
        let tree = Expression::Primary(word);
        let first = Node { tree, levels: 0 };
        let (y, at) = self
            .accesses
            .links_behind_call(context, levels, first, word.end, list, end)?;
        self.left_behind(context, levels, y, at)
    }

    /// The rest of an arrow function, behind its head.
    #[tactic(auto, unfolding(crate::specs::Behind::behind_head, esb_value_laws::specs::Levels::arrow_body))]
    fn arrow_behind(
        &self,
        context: Context,
        is_async_body: bool,
        levels: usize,
        head: Node<Expression>,
        at: usize,
    ) -> Reading<Node<Expression>>
        requires owed { Owed R.expression R.left R.primary R.arguments R.template R.block L.Fn F.Fn A.Fn T.Fn B.Fn self.now }
        requires fits { levels ≤ self.now.accesses.now.parser.now.levels }
        ensures { Gives result (spec.behind_head R.expression R.primary R.arguments R.template R.block context self.now.accesses.now.parser.now.text.now levels is_async_body head at) }
    {
        let arrows = Arrows {
            parser: self.accesses.parser,
            block: &self.block,
        };
        arrows.arrow_behind(context, is_async_body, levels, head, at)
    }

    /// What follows a list in parentheses that was read: `=>` and a body, or what goes on with a list of values.
    #[tactic(auto, unfolding(crate::specs::Behind::behind_list))]
    fn list_behind(
        &self,
        context: Context,
        levels: usize,
        list: Node<Bracketed>,
        at: usize,
    ) -> Reading<Node<Expression>>
        requires owed { Owed R.expression R.left R.primary R.arguments R.template R.block L.Fn F.Fn A.Fn T.Fn B.Fn self.now }
        requires fits { levels ≤ self.now.accesses.now.parser.now.levels }
        ensures { Gives result (spec.behind_list R.expression R.primary R.arguments R.template R.block context self.now.accesses.now.parser.now.text.now levels list at) }
    {
        let parser = self.accesses.parser;
        let arrow = is_arrow_on_line(peek(parser.text, Goal::Div, at));
        if list.levels >= levels || !fits(arrow, levels, &list.tree) {
            list.discard();
            return Err(Fault::NoTree(at));
        }
        let x = parenthesized(parser.alloc, list)?;
        if arrow {
            self.arrow_behind(context, false, levels, x, at)
        } else {
            self.primary_behind(context, levels, x, at)
        }
    }

    /// What follows `async` and Arguments behind it that were read: the rest of an async arrow function, or of a call.
    #[tactic(auto, unfolding(crate::specs::Behind::behind_async))]
    fn async_behind(
        &self,
        context: Context,
        levels: usize,
        word: Token,
        list: Node<Bracketed>,
        end: usize,
    ) -> Reading<Node<Expression>>
        requires owed { Owed R.expression R.left R.primary R.arguments R.template R.block L.Fn F.Fn A.Fn T.Fn B.Fn self.now }
        requires fits { levels ≤ self.now.accesses.now.parser.now.levels }
        requires seen { is_left_parenthesis_of (behind self.now.accesses.now.parser.now.text.now word.end).kind ≡ true }
        requires read { R.arguments context self.now.accesses.now.parser.now.text.now levels word.end ≡ Some (list, end) }
        ensures { Gives result (spec.behind_async R.expression R.primary R.arguments R.template R.block context self.now.accesses.now.parser.now.text.now levels word word.end list end) }
    {
        let parser = self.accesses.parser;
        if !is_async_head(parser.text, levels, word.end, list.levels, end) {
            return self.call_behind(context, levels, word, list, end);
        }
        if !covers_parameters(levels, &list.tree) {
            list.discard();
            return Err(Fault::NoTree(end));
        }
        let head = called(parser.alloc, word, list)?;
        self.arrow_behind(context, true, levels, head, end)
    }

    /// An AssignmentExpression that begins with `(`.
    fn listed(&self, context: Context, levels: usize, at: usize) -> Reading<Node<Expression>>
        requires owed { Owed R.expression R.left R.primary R.arguments R.template R.block L.Fn F.Fn A.Fn T.Fn B.Fn self.now }
        requires fits { levels ≤ self.now.accesses.now.parser.now.levels }
        requires seen { is_left_parenthesis_of (behind self.now.accesses.now.parser.now.text.now at).kind ≡ true }
        ensures { Gives result (spec.assignment R.expression R.primary R.arguments R.template R.block context self.now.accesses.now.parser.now.text.now levels at) }
    {
        let parser = self.accesses.parser;
        let (list, at) = (self.accesses.arguments)(parser.alloc, parser.text, context, levels, at)?;
        self.list_behind(context, levels, list, at)
    }

    /// An AssignmentExpression that begins with `async` and `(`.
    fn async_listed(&self, context: Context, levels: usize, at: usize) -> Reading<Node<Expression>>
        requires owed { Owed R.expression R.left R.primary R.arguments R.template R.block L.Fn F.Fn A.Fn T.Fn B.Fn self.now }
        requires fits { levels ≤ self.now.accesses.now.parser.now.levels }
        requires seen { lists.at_async_list self.now.accesses.now.parser.now.text.now at ≡ true }
        ensures { Gives result (spec.assignment R.expression R.primary R.arguments R.template R.block context self.now.accesses.now.parser.now.text.now levels at) }
    {
        let parser = self.accesses.parser;
        let word = peek(parser.text, Goal::Div, at);
        let (list, end) = (self.accesses.arguments)(
            parser.alloc,
            parser.text,
            context,
            levels,
            word.end,
        )?;
        self.async_behind(context, levels, word, list, end)
    }

    /// An AssignmentExpression (ECMA-262, 12.15).
    #[tactic(auto, using(crate::proofs::Whole::at_yields, crate::proofs::Whole::at_async_names, crate::proofs::Whole::at_names), unfolding(esb_value_laws::specs::Levels::arrow_body))]
    pub fn value(&self, context: Context, levels: usize, at: usize) -> Reading<Node<Expression>>
        requires owed { Owed R.expression R.left R.primary R.arguments R.template R.block L.Fn F.Fn A.Fn T.Fn B.Fn self.now }
        requires fits { levels ≤ self.now.accesses.now.parser.now.levels }
        ensures { Gives result (spec.assignment R.expression R.primary R.arguments R.template R.block context self.now.accesses.now.parser.now.text.now levels at) }
    {
        let parser = self.accesses.parser;
        let arrows = Arrows {
            parser,
            block: &self.block,
        };
        let token = peek(parser.text, Goal::Div, at);
        if is_yield(context, token) {
            return yielded(parser, context, levels, at);
        }
        if at_async_name(parser.text, token, at) {
            return arrows.async_arrow(context, levels, at);
        }
        if at_name(parser.text, context, token, at) {
            return arrows.name_arrow(context, levels, at);
        }
        if is_left_parenthesis(token.kind) {
            return self.listed(context, levels, at);
        }
        if at_async_list(parser.text, token, at) {
            return self.async_listed(context, levels, at);
        }
        assigned(self.operators, parser, context, levels, at)
    }
}
