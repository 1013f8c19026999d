//! `switch` and `try` (ECMA-262, 13.12, 13.15).

ghost use Rattle.esb_reader.specs.Parts.{both, token, such};
ghost use Rattle.esb_reader.specs.Reader.{Gives};
ghost use Rattle.esb_statement_laws.specs.Compounds as spec;
ghost use Rattle.esb_statement_laws.specs.Statements.{block};
ghost use Rattle.esb_statements.specs.Lists.{clause_list};
ghost use Rattle.esb_statements.specs.Reads.{ReadsExpressions, ReadsItems, ReadsTargets};
ghost use Rattle.esb_token.specs.declared.kind.Kind.TheVariants as k;
ghost use Rattle.std.specs.Prelude.{true, false, ◌≡◌};

use crate::parts::Parts;
use crate::readers::StatementReaders;
use esb_base::{List, Text};
use esb_grammar::Context;
use esb_nodes::{Discard, Listed, with};
use esb_reader::{Fault, Node, Reading, expect, peek};
use esb_statement_tests::{
    is_case, is_catch, is_clause, is_finally, is_handled, is_left_parenthesis, one_default,
};
use esb_token::{Goal, Kind, Token};
use esb_tree::{Block, CaseClause, Expression, Finalizer, Handler, Statement};
use std::alloc::Global;

impl<
    'a,
    R: StatementReaders,
    E: Fn(Global, &Text, bool, Context, usize, usize) -> Reading<Node<Expression>>,
    T: Fn(Global, &Text, Context, usize, usize) -> Reading<Node<Expression>>,
    B,
    F,
    C,
    I: Fn(Global, &Text, Context, usize, usize) -> Reading<Node<List<Statement>>>,
    S,
> Parts<'a, R, E, T, B, F, C, I, S> {
    /// `:` and a StatementList.
    fn clause_body(&self, context: Context, at: usize) -> Reading<Node<(Token, List<Statement>)>>
        requires lists { ReadsItems R.handed self.now.levels (I.pre self.now.items) (I.post self.now.items) }
        ensures { Gives result (both (token self.now.text.now k.Colon) ((R.handed self.now.text.now self.now.levels).items context) at) }
    {
        let (colon, at) = expect(self.text, Kind::Colon, at)?;
        let (body, at) = self.list(context, at)?;
        let levels = body.levels;
        let tree = (colon, body.tree);
        Ok((Node { tree, levels }, at))
    }

    /// CaseClause.
    #[tactic(auto, unfolding(esb_statement_laws::specs::Compounds::case_clause))]
    fn case_clause(&self, context: Context, at: usize) -> Reading<Node<CaseClause>>
        requires expressions { ReadsExpressions R.handed self.now.levels (E.pre self.now.expression) (E.post self.now.expression) }
        requires lists { ReadsItems R.handed self.now.levels (I.pre self.now.items) (I.post self.now.items) }
        ensures { Gives result (spec.case_clause self.now.text.now context self.now.levels (R.handed self.now.text.now self.now.levels) at) }
    {
        let (word, at) = expect(self.text, Kind::Case, at)?;
        let (x, at) = self.value(context, at)?;
        let (x, (more, at)) = with(x, self.clause_body(context, at))?;
        let deepest = x.levels.max(more.levels);
        if deepest >= self.levels {
            x.discard();
            more.discard();
            return Err(Fault::NoTree(at));
        }
        let levels = deepest + 1;
        let (colon, body) = more.tree;
        let tree = CaseClause::Case(word, x.tree, colon, body);
        Ok((Node { tree, levels }, at))
    }

    /// DefaultClause.
    #[tactic(auto, unfolding(esb_statement_laws::specs::Compounds::default_clause))]
    fn default_clause(&self, context: Context, at: usize) -> Reading<Node<CaseClause>>
        requires lists { ReadsItems R.handed self.now.levels (I.pre self.now.items) (I.post self.now.items) }
        ensures { Gives result (spec.default_clause self.now.text.now context self.now.levels (R.handed self.now.text.now self.now.levels) at) }
    {
        let (word, at) = expect(self.text, Kind::Default, at)?;
        let (more, at) = self.clause_body(context, at)?;
        if more.levels >= self.levels {
            more.discard();
            return Err(Fault::NoTree(at));
        }
        let levels = more.levels + 1;
        let (colon, body) = more.tree;
        let tree = CaseClause::Default(word, colon, body);
        Ok((Node { tree, levels }, at))
    }

    #[tactic(auto, unfolding(esb_statement_laws::specs::Compounds::clause))]
    fn clause(&self, context: Context, at: usize) -> Reading<Node<CaseClause>>
        requires expressions { ReadsExpressions R.handed self.now.levels (E.pre self.now.expression) (E.post self.now.expression) }
        requires lists { ReadsItems R.handed self.now.levels (I.pre self.now.items) (I.post self.now.items) }
        ensures { Gives result (spec.clause self.now.text.now context self.now.levels (R.handed self.now.text.now self.now.levels) at) }
    {
        if is_case(peek(self.text, Goal::Div, at).kind) {
            return self.case_clause(context, at);
        }
        self.default_clause(context, at)
    }

    /// Clauses while one begins.
    #[tactic(auto, unfolding(crate::specs::Lists::clause_list, esb_reader::specs::Reader::repeated))]
    fn clause_list(&self, context: Context, start: usize) -> Reading<Node<List<CaseClause>>>
        requires expressions { ReadsExpressions R.handed self.now.levels (E.pre self.now.expression) (E.post self.now.expression) }
        requires lists { ReadsItems R.handed self.now.levels (I.pre self.now.items) (I.post self.now.items) }
        ensures { Gives result (clause_list self.now.text.now context self.now.levels (R.handed self.now.text.now self.now.levels) start) }
    {
        let mut at = start;
        let mut tree = List::new(self.alloc);
        let mut levels = 0;
        for _turn in 0..self.text.as_bytes().len() {
            if !is_clause(peek(self.text, Goal::Div, at).kind) {
                return Ok((Node { tree, levels }, at));
            }
            let (list, (next, end)) = with(tree, self.clause(context, at))?;
            tree = next.tree.added_to(list)?;
            levels = levels.max(next.levels);
            at = end;
        }
        Ok((Node { tree, levels }, at))
    }

    /// Clauses of which no two are a DefaultClause.
    #[tactic(auto, unfolding(esb_statement_laws::specs::Compounds::clauses, crate::specs::Lists::clause_list))]
    fn clauses(&self, context: Context, at: usize) -> Reading<Node<List<CaseClause>>>
        requires expressions { ReadsExpressions R.handed self.now.levels (E.pre self.now.expression) (E.post self.now.expression) }
        requires lists { ReadsItems R.handed self.now.levels (I.pre self.now.items) (I.post self.now.items) }
        ensures { Gives result (spec.clauses self.now.text.now context self.now.levels (R.handed self.now.text.now self.now.levels) at) }
    {
        let (list, at) = self.clause_list(context, at)?;
        if !one_default(list.tree.as_slice()) {
            list.discard();
            return Err(Fault::NoTree(at));
        }
        Ok((list, at))
    }

    /// CaseBlock.
    fn case_block(
        &self,
        context: Context,
        at: usize,
    ) -> Reading<Node<(Token, (List<CaseClause>, Token))>>
        requires expressions { ReadsExpressions R.handed self.now.levels (E.pre self.now.expression) (E.post self.now.expression) }
        requires lists { ReadsItems R.handed self.now.levels (I.pre self.now.items) (I.post self.now.items) }
        ensures { Gives result (both (token self.now.text.now k.LeftBrace) (both (spec.clauses self.now.text.now context self.now.levels (R.handed self.now.text.now self.now.levels)) (token self.now.text.now k.RightBrace)) at) }
    {
        let (left, at) = expect(self.text, Kind::LeftBrace, at)?;
        let (list, at) = self.clauses(context, at)?;
        let (list, (right, at)) = with(list, expect(self.text, Kind::RightBrace, at))?;
        let levels = list.levels;
        let tree = (left, (list.tree, right));
        Ok((Node { tree, levels }, at))
    }

    /// `)` and a CaseBlock.
    fn closing_block(
        &self,
        context: Context,
        at: usize,
    ) -> Reading<Node<(Token, (Token, (List<CaseClause>, Token)))>>
        requires expressions { ReadsExpressions R.handed self.now.levels (E.pre self.now.expression) (E.post self.now.expression) }
        requires lists { ReadsItems R.handed self.now.levels (I.pre self.now.items) (I.post self.now.items) }
        ensures { Gives result (both (token self.now.text.now k.RightParenthesis) (both (token self.now.text.now k.LeftBrace) (both (spec.clauses self.now.text.now context self.now.levels (R.handed self.now.text.now self.now.levels)) (token self.now.text.now k.RightBrace))) at) }
    {
        let (ending, at) = expect(self.text, Kind::RightParenthesis, at)?;
        let (block, at) = self.case_block(context, at)?;
        let levels = block.levels;
        let tree = (ending, block.tree);
        Ok((Node { tree, levels }, at))
    }

    /// SwitchStatement (13.12).
    #[tactic(auto, unfolding(esb_statement_laws::specs::Compounds::switch_statement))]
    pub(crate) fn switch_statement(&self, context: Context, at: usize) -> Reading<Node<Statement>>
        requires expressions { ReadsExpressions R.handed self.now.levels (E.pre self.now.expression) (E.post self.now.expression) }
        requires lists { ReadsItems R.handed self.now.levels (I.pre self.now.items) (I.post self.now.items) }
        ensures { Gives result (spec.switch_statement self.now.text.now context self.now.levels (R.handed self.now.text.now self.now.levels) at) }
    {
        let (word, at) = expect(self.text, Kind::Switch, at)?;
        let (begin, at) = expect(self.text, Kind::LeftParenthesis, at)?;
        let (x, at) = self.value(context, at)?;
        let (x, (block, at)) = with(x, self.closing_block(context, at))?;
        let deepest = x.levels.max(block.levels);
        if deepest >= self.levels {
            x.discard();
            block.discard();
            return Err(Fault::NoTree(at));
        }
        let levels = deepest + 1;
        let (ending, (left, (clauses, right))) = block.tree;
        let tree = Statement::Switch(word, begin, x.tree, ending, left, clauses, right);
        Ok((Node { tree, levels }, at))
    }

    /// Catch without a parameter.
    #[tactic(auto, unfolding(esb_statement_laws::specs::Compounds::catch_alone))]
    fn catch_alone(&self, context: Context, at: usize) -> Reading<Node<Handler>>
        requires lists { ReadsItems R.handed self.now.levels (I.pre self.now.items) (I.post self.now.items) }
        ensures { Gives result (spec.catch_alone self.now.text.now context self.now.levels (R.handed self.now.text.now self.now.levels) at) }
    {
        let (word, at) = expect(self.text, Kind::Catch, at)?;
        let (block, at) = self.block(context, at)?;
        if block.levels >= self.levels {
            block.discard();
            return Err(Fault::NoTree(at));
        }
        let levels = block.levels + 1;
        let tree = Handler::Catch(word, block.tree);
        Ok((Node { tree, levels }, at))
    }

    /// `)` and a Block.
    fn caught_block(&self, context: Context, at: usize) -> Reading<Node<(Token, Block)>>
        requires lists { ReadsItems R.handed self.now.levels (I.pre self.now.items) (I.post self.now.items) }
        ensures { Gives result (both (token self.now.text.now k.RightParenthesis) (block self.now.text.now context self.now.levels (R.handed self.now.text.now self.now.levels)) at) }
    {
        let (ending, at) = expect(self.text, Kind::RightParenthesis, at)?;
        let (block, at) = self.block(context, at)?;
        let levels = block.levels;
        let tree = (ending, block.tree);
        Ok((Node { tree, levels }, at))
    }

    /// Catch with a CatchParameter.
    #[tactic(auto, unfolding(esb_statement_laws::specs::Compounds::catch_parameter))]
    fn catch_parameter(&self, context: Context, at: usize) -> Reading<Node<Handler>>
        requires targets { ReadsTargets R.handed self.now.levels (T.pre self.now.target) (T.post self.now.target) }
        requires lists { ReadsItems R.handed self.now.levels (I.pre self.now.items) (I.post self.now.items) }
        ensures { Gives result (spec.catch_parameter self.now.text.now context self.now.levels (R.handed self.now.text.now self.now.levels) at) }
    {
        let (word, at) = expect(self.text, Kind::Catch, at)?;
        let (begin, at) = expect(self.text, Kind::LeftParenthesis, at)?;
        let (x, at) = self.bound(context, at)?;
        let (x, (more, at)) = with(x, self.caught_block(context, at))?;
        let deepest = x.levels.max(more.levels);
        if deepest >= self.levels {
            x.discard();
            more.discard();
            return Err(Fault::NoTree(at));
        }
        let levels = deepest + 1;
        let (ending, block) = more.tree;
        let tree = Handler::CatchParameter(word, begin, x.tree, ending, block);
        Ok((Node { tree, levels }, at))
    }

    /// Catch, which may be absent, with a parameter where a parenthesis follows.
    #[tactic(auto, unfolding(esb_statement_laws::specs::Compounds::handler))]
    fn handler(&self, context: Context, at: usize) -> Reading<Node<Handler>>
        requires targets { ReadsTargets R.handed self.now.levels (T.pre self.now.target) (T.post self.now.target) }
        requires lists { ReadsItems R.handed self.now.levels (I.pre self.now.items) (I.post self.now.items) }
        ensures { Gives result (spec.handler self.now.text.now context self.now.levels (R.handed self.now.text.now self.now.levels) at) }
    {
        let token = peek(self.text, Goal::Div, at);
        if !is_catch(token.kind) {
            let tree = Handler::NoHandler;
            return Ok((Node { tree, levels: 0 }, at));
        }
        if is_left_parenthesis(peek(self.text, Goal::Div, token.end).kind) {
            return self.catch_parameter(context, at);
        }
        self.catch_alone(context, at)
    }

    /// Finally, which may be absent.
    #[tactic(auto, unfolding(esb_statement_laws::specs::Compounds::finalizer))]
    fn finalizer(&self, context: Context, at: usize) -> Reading<Node<Finalizer>>
        requires lists { ReadsItems R.handed self.now.levels (I.pre self.now.items) (I.post self.now.items) }
        ensures { Gives result (spec.finalizer self.now.text.now context self.now.levels (R.handed self.now.text.now self.now.levels) at) }
    {
        if !is_finally(peek(self.text, Goal::Div, at).kind) {
            let tree = Finalizer::NoFinalizer;
            return Ok((Node { tree, levels: 0 }, at));
        }
        let (word, at) = expect(self.text, Kind::Finally, at)?;
        let (block, at) = self.block(context, at)?;
        if block.levels >= self.levels {
            block.discard();
            return Err(Fault::NoTree(at));
        }
        let levels = block.levels + 1;
        let tree = Finalizer::Finally(word, block.tree);
        Ok((Node { tree, levels }, at))
    }

    fn handlers(&self, context: Context, at: usize) -> Reading<Node<(Handler, Finalizer)>>
        requires targets { ReadsTargets R.handed self.now.levels (T.pre self.now.target) (T.post self.now.target) }
        requires lists { ReadsItems R.handed self.now.levels (I.pre self.now.items) (I.post self.now.items) }
        ensures { Gives result (both (spec.handler self.now.text.now context self.now.levels (R.handed self.now.text.now self.now.levels)) (spec.finalizer self.now.text.now context self.now.levels (R.handed self.now.text.now self.now.levels)) at) }
    {
        let (handler, at) = self.handler(context, at)?;
        let (handler, (finalizer, at)) = with(handler, self.finalizer(context, at))?;
        let levels = handler.levels.max(finalizer.levels);
        let tree = (handler.tree, finalizer.tree);
        Ok((Node { tree, levels }, at))
    }

    /// A Block, and a Catch or a Finally.
    fn handled(&self, context: Context, at: usize) -> Reading<Node<(Block, (Handler, Finalizer))>>
        requires targets { ReadsTargets R.handed self.now.levels (T.pre self.now.target) (T.post self.now.target) }
        requires lists { ReadsItems R.handed self.now.levels (I.pre self.now.items) (I.post self.now.items) }
        ensures { Gives result (such (both (block self.now.text.now context self.now.levels (R.handed self.now.text.now self.now.levels)) (both (spec.handler self.now.text.now context self.now.levels (R.handed self.now.text.now self.now.levels)) (spec.finalizer self.now.text.now context self.now.levels (R.handed self.now.text.now self.now.levels)))) spec.is_handled at) }
    {
        let (block, at) = self.block(context, at)?;
        let (block, (more, at)) = with(block, self.handlers(context, at))?;
        if !is_handled(&more.tree.0, &more.tree.1) {
            block.discard();
            more.discard();
            return Err(Fault::NoTree(at));
        }
        let levels = block.levels.max(more.levels);
        let tree = (block.tree, more.tree);
        Ok((Node { tree, levels }, at))
    }

    /// TryStatement (13.15).
    #[tactic(auto, unfolding(esb_statement_laws::specs::Compounds::try_statement))]
    pub(crate) fn try_statement(&self, context: Context, at: usize) -> Reading<Node<Statement>>
        requires targets { ReadsTargets R.handed self.now.levels (T.pre self.now.target) (T.post self.now.target) }
        requires lists { ReadsItems R.handed self.now.levels (I.pre self.now.items) (I.post self.now.items) }
        ensures { Gives result (spec.try_statement self.now.text.now context self.now.levels (R.handed self.now.text.now self.now.levels) at) }
    {
        let (word, at) = expect(self.text, Kind::Try, at)?;
        let (parts, at) = self.handled(context, at)?;
        if parts.levels >= self.levels {
            parts.discard();
            return Err(Fault::NoTree(at));
        }
        let levels = parts.levels + 1;
        let (block, (handler, finalizer)) = parts.tree;
        let tree = Statement::Try(word, block, handler, finalizer);
        Ok((Node { tree, levels }, at))
    }
}
