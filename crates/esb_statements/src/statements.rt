//! Statements and declarations of all kinds, and lists of them (ECMA-262, clause 13).

ghost use Rattle.std.specs.Prelude.{true, false};
ghost use Rattle.esb_reader.specs.Reader.{Gives};
ghost use Rattle.esb_statement_laws.specs.Items as all;
ghost use Rattle.esb_statements.specs.Reads.{ReadsBindings, ReadsClasses, ReadsExpressions, ReadsFunctions, ReadsItems, ReadsStatements, ReadsTargets};

use crate::parts::Parts;
use crate::readers::StatementReaders;
use esb_base::{List, Text};
use esb_grammar::Context;
use esb_nodes::{Listed, with};
use esb_reader::{Fault, Node, Reading, peek};
use esb_statement_laws::Sort;
use esb_statement_tests::{begins_item, sort_at};
use esb_token::Goal;
use esb_tree::{Class, Expression, Function, Statement};
use std::alloc::Global;

impl<
    'a,
    R: StatementReaders,
    E: Fn(Global, &Text, bool, Context, usize, usize) -> Reading<Node<Expression>>,
    T: Fn(Global, &Text, Context, usize, usize) -> Reading<Node<Expression>>,
    B: Fn(Global, &Text, Context, usize, usize) -> Reading<Node<Expression>>,
    F: Fn(Global, &Text, usize, usize) -> Reading<Node<Function>>,
    C: Fn(Global, &Text, Context, usize, usize) -> Reading<Node<Class>>,
    I: Fn(Global, &Text, Context, usize, usize) -> Reading<Node<List<Statement>>>,
    S: Fn(Global, &Text, Context, usize, usize) -> Reading<Node<Statement>>,
> Parts<'a, R, E, T, B, F, C, I, S> {
    /// A Statement, or where declarations may stand a StatementListItem (13).
    #[tactic(auto, unfolding(esb_statement_laws::specs::Items::statement))]
    pub fn statement(
        &self,
        context: Context,
        declarations: bool,
        at: usize,
    ) -> Reading<Node<Statement>>
        requires expressions { ReadsExpressions R.handed self.now.levels (E.pre self.now.expression) (E.post self.now.expression) }
        requires targets { ReadsTargets R.handed self.now.levels (T.pre self.now.target) (T.post self.now.target) }
        requires bindings { ReadsBindings R.handed self.now.levels (B.pre self.now.binding) (B.post self.now.binding) }
        requires functions { ReadsFunctions R.handed self.now.levels (F.pre self.now.function) (F.post self.now.function) }
        requires classes { ReadsClasses R.handed self.now.levels (C.pre self.now.class) (C.post self.now.class) }
        requires lists { ReadsItems R.handed self.now.levels (I.pre self.now.items) (I.post self.now.items) }
        requires statements { ReadsStatements R.handed self.now.levels (S.pre self.now.statement) (S.post self.now.statement) }
        ensures { Gives result (all.statement self.now.text.now context self.now.levels (R.handed self.now.text.now self.now.levels) declarations at) }
    {
        match sort_at(self.text, context, at) {
            Sort::Block => self.block_statement(context, at),
            Sort::Variables => self.variables(context, false, at),
            Sort::Empty => self.empty_statement(context, at),
            Sort::If => self.if_statement(context, at),
            Sort::Do => self.do_statement(context, at),
            Sort::While => self.while_statement(context, at),
            Sort::For => self.for_statement(context, at),
            Sort::Continue => self.continue_statement(context, at),
            Sort::Break => self.break_statement(context, at),
            Sort::Return => self.return_statement(context, at),
            Sort::Switch => self.switch_statement(context, at),
            Sort::Labelled => self.labelled_statement(context, at),
            Sort::Throw => self.throw_statement(context, at),
            Sort::Try => self.try_statement(context, at),
            Sort::Debugger => self.debugger(context, at),
            Sort::Expression => self.expression_statement(context, at),
            Sort::Lexical if !declarations => Err(Fault::NoTree(at)),
            Sort::Lexical => self.variables(context, true, at),
            Sort::Function if !declarations => Err(Fault::NoTree(at)),
            Sort::Function => self.function_declaration(context, at),
            Sort::Class if !declarations => Err(Fault::NoTree(at)),
            Sort::Class => self.class_declaration(context, at),
        }
    }

    /// StatementList (13.2), up to what ends one.
    #[tactic(auto, unfolding(esb_statement_laws::specs::Items::items, esb_reader::specs::Reader::repeated))]
    pub fn items(&self, context: Context, start: usize) -> Reading<Node<List<Statement>>>
        requires expressions { ReadsExpressions R.handed self.now.levels (E.pre self.now.expression) (E.post self.now.expression) }
        requires targets { ReadsTargets R.handed self.now.levels (T.pre self.now.target) (T.post self.now.target) }
        requires bindings { ReadsBindings R.handed self.now.levels (B.pre self.now.binding) (B.post self.now.binding) }
        requires functions { ReadsFunctions R.handed self.now.levels (F.pre self.now.function) (F.post self.now.function) }
        requires classes { ReadsClasses R.handed self.now.levels (C.pre self.now.class) (C.post self.now.class) }
        requires lists { ReadsItems R.handed self.now.levels (I.pre self.now.items) (I.post self.now.items) }
        requires statements { ReadsStatements R.handed self.now.levels (S.pre self.now.statement) (S.post self.now.statement) }
        ensures { Gives result (all.items self.now.text.now context self.now.levels (R.handed self.now.text.now self.now.levels) start) }
    {
        let mut at = start;
        let mut tree = List::new(self.alloc);
        let mut levels = 0;
        for _turn in 0..self.text.as_bytes().len() {
            if !begins_item(peek(self.text, Goal::Div, at).kind) {
                return Ok((Node { tree, levels }, at));
            }
            let (list, (next, end)) = with(tree, self.statement(context, true, at))?;
            tree = next.tree.added_to(list)?;
            levels = levels.max(next.levels);
            at = end;
        }
        Ok((Node { tree, levels }, at))
    }
}
