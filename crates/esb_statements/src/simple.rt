//! Blocks, and statements that hold no other statement (ECMA-262, 13.2, 13.4, 13.5, 13.8 to 13.10, 13.14, 13.16).

ghost use Rattle.esb_reader.specs.Parts.{optional, token_in};
ghost use Rattle.esb_reader.specs.Reader.{Gives};
ghost use Rattle.esb_statement_laws.specs.Marks as marks;
ghost use Rattle.esb_statement_laws.specs.Statements as spec;
ghost use Rattle.esb_statements.specs.Reads.{ReadsExpressions, ReadsItems};
ghost use Rattle.esb_token.specs.declared.goal.Goal.TheVariants as goal;
ghost use Rattle.std.specs.Prelude.{true, false, ◌≡◌};

use crate::parts::Parts;
use crate::readers::StatementReaders;
use esb_base::{List, Text};
use esb_grammar::Context;
use esb_nodes::{Discard, with};
use esb_reader::{Fault, Node, Reading, expect, peek, take};
use esb_statement_tests::{expression_end, is_label, returns_nothing, statement_end, word_end};
use esb_token::{Goal, Kind, Token};
use esb_tree::{Block, Expression, MaybeExpression, Statement};
use std::alloc::Global;

impl<
    'a,
    R: StatementReaders,
    E: Fn(Global, &Text, bool, Context, usize, usize) -> Reading<Node<Expression>>,
    T,
    B,
    F,
    C,
    I: Fn(Global, &Text, Context, usize, usize) -> Reading<Node<List<Statement>>>,
    S,
> Parts<'a, R, E, T, B, F, C, I, S> {
    /// Block (13.2), or a FunctionBody in its braces (14.1).
    #[tactic(auto, unfolding(esb_statement_laws::specs::Statements::block))]
    pub(crate) fn block(&self, context: Context, at: usize) -> Reading<Node<Block>>
        requires lists { ReadsItems R.handed self.now.levels (I.pre self.now.items) (I.post self.now.items) }
        ensures { Gives result (spec.block self.now.text.now context self.now.levels (R.handed self.now.text.now self.now.levels) at) }
    {
        let (begin, at) = expect(self.text, Kind::LeftBrace, at)?;
        let (list, at) = self.list(context, at)?;
        let (list, (ending, at)) = with(list, expect(self.text, Kind::RightBrace, at))?;
        let levels = list.levels;
        let body = list.tree;
        let tree = Block {
            begin,
            body,
            ending,
        };
        Ok((Node { tree, levels }, at))
    }

    /// BlockStatement (13.2).
    #[tactic(auto, unfolding(esb_statement_laws::specs::Statements::block_statement))]
    pub(crate) fn block_statement(&self, context: Context, at: usize) -> Reading<Node<Statement>>
        requires lists { ReadsItems R.handed self.now.levels (I.pre self.now.items) (I.post self.now.items) }
        ensures { Gives result (spec.block_statement self.now.text.now context self.now.levels (R.handed self.now.text.now self.now.levels) at) }
    {
        let (block, at) = self.block(context, at)?;
        if block.levels >= self.levels {
            block.discard();
            return Err(Fault::NoTree(at));
        }
        let levels = block.levels + 1;
        let tree = Statement::BlockStatement(block.tree);
        Ok((Node { tree, levels }, at))
    }

    /// EmptyStatement (13.4).
    #[tactic(auto, unfolding(esb_statement_laws::specs::Statements::empty_statement))]
    pub(crate) fn empty_statement(&self, _context: Context, at: usize) -> Reading<Node<Statement>>
        ensures { Gives result (spec.empty_statement self.now.text.now _context self.now.levels (R.handed self.now.text.now self.now.levels) at) }
    {
        let (semicolon, at) = expect(self.text, Kind::Semicolon, at)?;
        if self.levels == 0 {
            return Err(Fault::NoTree(at));
        }
        let tree = Statement::Empty(semicolon);
        Ok((Node { tree, levels: 1 }, at))
    }

    /// ExpressionStatement (13.5). What it may not begin with is told by its first tokens.
    #[tactic(auto, unfolding(esb_statement_laws::specs::Statements::expression_statement))]
    pub(crate) fn expression_statement(
        &self,
        context: Context,
        at: usize,
    ) -> Reading<Node<Statement>>
        requires expressions { ReadsExpressions R.handed self.now.levels (E.pre self.now.expression) (E.post self.now.expression) }
        ensures { Gives result (spec.expression_statement self.now.text.now context self.now.levels (R.handed self.now.text.now self.now.levels) at) }
    {
        let (x, at) = self.value(context, at)?;
        let end = statement_end(self.text, &x.tree, at);
        let (x, (end, at)) = with(x, end)?;
        let deepest = x.levels.max(end.levels);
        if deepest >= self.levels {
            x.discard();
            return Err(Fault::NoTree(at));
        }
        let levels = deepest + 1;
        let tree = Statement::ExpressionStatement(x.tree, end.tree);
        Ok((Node { tree, levels }, at))
    }

    /// DebuggerStatement (13.16).
    #[tactic(auto, unfolding(esb_statement_laws::specs::Statements::debugger))]
    pub(crate) fn debugger(&self, _context: Context, at: usize) -> Reading<Node<Statement>>
        ensures { Gives result (spec.debugger self.now.text.now _context self.now.levels (R.handed self.now.text.now self.now.levels) at) }
    {
        let (word, at) = expect(self.text, Kind::Debugger, at)?;
        let (end, at) = word_end(self.text, at)?;
        if end.levels >= self.levels {
            return Err(Fault::NoTree(at));
        }
        let levels = end.levels + 1;
        let tree = Statement::Debugger(word, end.tree);
        Ok((Node { tree, levels }, at))
    }

    /// A label on the line of `break` or `continue`, which may be absent.
    fn label(&self, context: Context, at: usize) -> Reading<Node<Option<Token>>>
        ensures { Gives result (optional self.now.text.now (marks.is_label context) (token_in self.now.text.now goal.Div (marks.is_label context)) at) }
    {
        if !is_label(context, peek(self.text, Goal::Div, at)) {
            let tree = None;
            return Ok((Node { tree, levels: 0 }, at));
        }
        let (label, at) = take(self.text, Goal::Div, at)?;
        if !is_label(context, label) {
            return Err(Fault::NoTree(label.start));
        }
        let tree = Some(label);
        Ok((Node { tree, levels: 0 }, at))
    }

    /// ContinueStatement (13.8).
    #[tactic(auto, unfolding(esb_statement_laws::specs::Statements::continue_statement))]
    pub(crate) fn continue_statement(&self, context: Context, at: usize) -> Reading<Node<Statement>>
        ensures { Gives result (spec.continue_statement self.now.text.now context self.now.levels (R.handed self.now.text.now self.now.levels) at) }
    {
        let (word, at) = expect(self.text, Kind::Continue, at)?;
        let (label, at) = self.label(context, at)?;
        let (end, at) = word_end(self.text, at)?;
        let deepest = label.levels.max(end.levels);
        if deepest >= self.levels {
            return Err(Fault::NoTree(at));
        }
        let levels = deepest + 1;
        let tree = Statement::Continue(word, label.tree, end.tree);
        Ok((Node { tree, levels }, at))
    }

    /// BreakStatement (13.9).
    #[tactic(auto, unfolding(esb_statement_laws::specs::Statements::break_statement))]
    pub(crate) fn break_statement(&self, context: Context, at: usize) -> Reading<Node<Statement>>
        ensures { Gives result (spec.break_statement self.now.text.now context self.now.levels (R.handed self.now.text.now self.now.levels) at) }
    {
        let (word, at) = expect(self.text, Kind::Break, at)?;
        let (label, at) = self.label(context, at)?;
        let (end, at) = word_end(self.text, at)?;
        let deepest = label.levels.max(end.levels);
        if deepest >= self.levels {
            return Err(Fault::NoTree(at));
        }
        let levels = deepest + 1;
        let tree = Statement::Break(word, label.tree, end.tree);
        Ok((Node { tree, levels }, at))
    }

    /// ReturnStatement (13.10), whose Expression may be absent.
    #[tactic(auto, unfolding(esb_statement_laws::specs::Statements::return_statement))]
    pub(crate) fn return_statement(&self, context: Context, at: usize) -> Reading<Node<Statement>>
        requires expressions { ReadsExpressions R.handed self.now.levels (E.pre self.now.expression) (E.post self.now.expression) }
        ensures { Gives result (spec.return_statement self.now.text.now context self.now.levels (R.handed self.now.text.now self.now.levels) at) }
    {
        let (word, at) = expect(self.text, Kind::Return, at)?;
        if returns_nothing(peek(self.text, Goal::Div, at)) {
            let (end, at) = word_end(self.text, at)?;
            if end.levels >= self.levels {
                return Err(Fault::NoTree(at));
            }
            let levels = end.levels + 1;
            let tree = Statement::Return(word, MaybeExpression::Absent, end.tree);
            return Ok((Node { tree, levels }, at));
        }
        let (x, at) = self.value(context, at)?;
        let end = expression_end(self.text, &x.tree, at);
        let (x, (end, at)) = with(x, end)?;
        let deepest = x.levels.max(end.levels);
        if deepest >= self.levels {
            x.discard();
            return Err(Fault::NoTree(at));
        }
        let levels = deepest + 1;
        let tree = Statement::Return(word, MaybeExpression::Present(x.tree), end.tree);
        Ok((Node { tree, levels }, at))
    }

    /// ThrowStatement (13.14).
    #[tactic(auto, unfolding(esb_statement_laws::specs::Statements::throw_statement))]
    pub(crate) fn throw_statement(&self, context: Context, at: usize) -> Reading<Node<Statement>>
        requires expressions { ReadsExpressions R.handed self.now.levels (E.pre self.now.expression) (E.post self.now.expression) }
        ensures { Gives result (spec.throw_statement self.now.text.now context self.now.levels (R.handed self.now.text.now self.now.levels) at) }
    {
        let (word, at) = expect(self.text, Kind::Throw, at)?;
        if peek(self.text, Goal::Div, at).after_line {
            return Err(Fault::NoTree(at));
        }
        let (x, at) = self.value(context, at)?;
        let end = expression_end(self.text, &x.tree, at);
        let (x, (end, at)) = with(x, end)?;
        let deepest = x.levels.max(end.levels);
        if deepest >= self.levels {
            x.discard();
            return Err(Fault::NoTree(at));
        }
        let levels = deepest + 1;
        let tree = Statement::Throw(word, x.tree, end.tree);
        Ok((Node { tree, levels }, at))
    }
}
