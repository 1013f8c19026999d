//! `if`, `while`, `do` and labels (ECMA-262, 13.6, 13.7.2, 13.7.3, 13.13).

ghost use Rattle.esb_grammar.specs.Contexts.{inside};
ghost use Rattle.esb_reader.specs.Parts.{both, token};
ghost use Rattle.esb_reader.specs.Reader.{Gives};
ghost use Rattle.esb_statement_laws.specs.Loops.{closing_body};
ghost use Rattle.esb_statement_laws.specs.Statements as spec;
ghost use Rattle.esb_statements.specs.Reads.{ReadsExpressions, ReadsStatements};
ghost use Rattle.esb_token.specs.declared.kind.Kind.TheVariants as k;
ghost use Rattle.std.specs.Prelude.{true, false, ◌≡◌};

use crate::parts::Parts;
use crate::readers::StatementReaders;
use esb_base::{List, Text};
use esb_grammar::{Context, is_reference};
use esb_nodes::{Discard, Listed, Nested, with};
use esb_reader::{Fault, Node, Reading, expect, peek, take};
use esb_statement_tests::{is_else, is_if_word, loop_end};
use esb_token::{Goal, Kind, Token};
use esb_tree::{Else, ElseIf, Expression, IfClause, Statement};
use std::alloc::Global;

/// Whether `else` and `if` stand at a place.
fn else_if_at(text: &Text, at: usize) -> bool
    ensures { result ≡ spec.else_if_at text.now at }
{
    let token = peek(text, Goal::Div, at);
    is_else(token.kind) && is_if_word(peek(text, Goal::Div, token.end).kind)
}

impl<
    'a,
    R: StatementReaders,
    E: Fn(Global, &Text, bool, Context, usize, usize) -> Reading<Node<Expression>>,
    T,
    B,
    F,
    C,
    I,
    S: Fn(Global, &Text, Context, usize, usize) -> Reading<Node<Statement>>,
> Parts<'a, R, E, T, B, F, C, I, S> {
    /// `)` and a Statement.
    pub(crate) fn closing_body(
        &self,
        context: Context,
        at: usize,
    ) -> Reading<Node<(Token, Statement)>>
        requires statements { ReadsStatements R.handed self.now.levels (S.pre self.now.statement) (S.post self.now.statement) }
        ensures { Gives result (closing_body self.now.text.now context self.now.levels (R.handed self.now.text.now self.now.levels) at) }
    {
        let (ending, at) = expect(self.text, Kind::RightParenthesis, at)?;
        let (body, at) = self.body(context, at)?;
        let levels = body.levels;
        let tree = (ending, body.tree);
        Ok((Node { tree, levels }, at))
    }

    /// An Expression in parentheses, and a Statement.
    pub(crate) fn headed_body(
        &self,
        context: Context,
        at: usize,
    ) -> Reading<Node<(Token, (Expression, (Token, Statement)))>>
        requires expressions { ReadsExpressions R.handed self.now.levels (E.pre self.now.expression) (E.post self.now.expression) }
        requires statements { ReadsStatements R.handed self.now.levels (S.pre self.now.statement) (S.post self.now.statement) }
        ensures { Gives result (spec.headed self.now.text.now context self.now.levels (R.handed self.now.text.now self.now.levels) ((R.handed self.now.text.now self.now.levels).statement context) at) }
    {
        let (begin, at) = expect(self.text, Kind::LeftParenthesis, at)?;
        let (x, at) = self.value(context, at)?;
        let (x, (body, at)) = with(x, self.closing_body(context, at))?;
        let levels = x.levels.max(body.levels);
        let tree = (begin, (x.tree, body.tree));
        Ok((Node { tree, levels }, at))
    }

    /// `while` (13.7.3).
    #[tactic(auto, unfolding(esb_statement_laws::specs::Statements::while_statement))]
    pub(crate) fn while_statement(&self, context: Context, at: usize) -> Reading<Node<Statement>>
        requires expressions { ReadsExpressions R.handed self.now.levels (E.pre self.now.expression) (E.post self.now.expression) }
        requires statements { ReadsStatements R.handed self.now.levels (S.pre self.now.statement) (S.post self.now.statement) }
        ensures { Gives result (spec.while_statement self.now.text.now context self.now.levels (R.handed self.now.text.now self.now.levels) at) }
    {
        let (word, at) = expect(self.text, Kind::While, at)?;
        let (parts, at) = self.headed_body(context, at)?;
        if parts.levels >= self.levels {
            parts.discard();
            return Err(Fault::NoTree(at));
        }
        let levels = parts.levels + 1;
        let (begin, (x, (ending, body))) = parts.tree;
        let (x, body) = with(x, body.boxed(self.alloc))?;
        let tree = Statement::While(word, begin, x, ending, body);
        Ok((Node { tree, levels }, at))
    }

    /// `while` and an Expression in parentheses, behind the Statement of a `do`.
    fn loop_test(
        &self,
        context: Context,
        at: usize,
    ) -> Reading<Node<(Token, (Token, (Expression, Token)))>>
        requires expressions { ReadsExpressions R.handed self.now.levels (E.pre self.now.expression) (E.post self.now.expression) }
        ensures { Gives result (both (token self.now.text.now k.While) (both (token self.now.text.now k.LeftParenthesis) (both ((R.handed self.now.text.now self.now.levels).expression true (inside context)) (token self.now.text.now k.RightParenthesis))) at) }
    {
        let (word, at) = expect(self.text, Kind::While, at)?;
        let (begin, at) = expect(self.text, Kind::LeftParenthesis, at)?;
        let (x, at) = self.value(context, at)?;
        let (x, (ending, at)) = with(x, expect(self.text, Kind::RightParenthesis, at))?;
        let levels = x.levels;
        let tree = (word, (begin, (x.tree, ending)));
        Ok((Node { tree, levels }, at))
    }

    /// `do`, a Statement, and the test behind it.
    fn tested_body(
        &self,
        context: Context,
        at: usize,
    ) -> Reading<Node<(Token, (Statement, (Token, (Token, (Expression, Token)))))>>
        requires expressions { ReadsExpressions R.handed self.now.levels (E.pre self.now.expression) (E.post self.now.expression) }
        requires statements { ReadsStatements R.handed self.now.levels (S.pre self.now.statement) (S.post self.now.statement) }
        ensures { Gives result (both (token self.now.text.now k.Do) (both ((R.handed self.now.text.now self.now.levels).statement context) (both (token self.now.text.now k.While) (both (token self.now.text.now k.LeftParenthesis) (both ((R.handed self.now.text.now self.now.levels).expression true (inside context)) (token self.now.text.now k.RightParenthesis))))) at) }
    {
        let (word, at) = expect(self.text, Kind::Do, at)?;
        let (body, at) = self.body(context, at)?;
        let (body, (test, at)) = with(body, self.loop_test(context, at))?;
        let levels = body.levels.max(test.levels);
        let tree = (word, (body.tree, test.tree));
        Ok((Node { tree, levels }, at))
    }

    /// `do` `while` (13.7.2).
    #[tactic(auto, unfolding(esb_statement_laws::specs::Statements::do_statement))]
    pub(crate) fn do_statement(&self, context: Context, at: usize) -> Reading<Node<Statement>>
        requires expressions { ReadsExpressions R.handed self.now.levels (E.pre self.now.expression) (E.post self.now.expression) }
        requires statements { ReadsStatements R.handed self.now.levels (S.pre self.now.statement) (S.post self.now.statement) }
        ensures { Gives result (spec.do_statement self.now.text.now context self.now.levels (R.handed self.now.text.now self.now.levels) at) }
    {
        let (parts, at) = self.tested_body(context, at)?;
        let (parts, (end, at)) = with(parts, loop_end(self.text, at))?;
        let deepest = parts.levels.max(end.levels);
        if deepest >= self.levels {
            parts.discard();
            return Err(Fault::NoTree(at));
        }
        let levels = deepest + 1;
        let (word, (body, (while_word, (begin, (x, ending))))) = parts.tree;
        let (x, body) = with(x, body.boxed(self.alloc))?;
        let tree = Statement::DoWhile(word, body, while_word, begin, x, ending, end.tree);
        Ok((Node { tree, levels }, at))
    }

    /// LabelledStatement (13.13).
    #[tactic(auto, unfolding(esb_statement_laws::specs::Statements::labelled_statement))]
    pub(crate) fn labelled_statement(&self, context: Context, at: usize) -> Reading<Node<Statement>>
        requires statements { ReadsStatements R.handed self.now.levels (S.pre self.now.statement) (S.post self.now.statement) }
        ensures { Gives result (spec.labelled_statement self.now.text.now context self.now.levels (R.handed self.now.text.now self.now.levels) at) }
    {
        let (label, at) = take(self.text, Goal::Div, at)?;
        if !is_reference(context, label.kind) {
            return Err(Fault::NoTree(label.start));
        }
        let (colon, at) = expect(self.text, Kind::Colon, at)?;
        let (body, at) = self.body(context, at)?;
        if body.levels >= self.levels {
            body.discard();
            return Err(Fault::NoTree(at));
        }
        let levels = body.levels + 1;
        let body = body.tree.boxed(self.alloc)?;
        let tree = Statement::Labelled(label, colon, body);
        Ok((Node { tree, levels }, at))
    }

    /// `if`, an Expression in parentheses, and a Statement.
    #[tactic(auto, unfolding(esb_statement_laws::specs::Statements::if_clause))]
    fn if_clause(&self, context: Context, at: usize) -> Reading<Node<IfClause>>
        requires expressions { ReadsExpressions R.handed self.now.levels (E.pre self.now.expression) (E.post self.now.expression) }
        requires statements { ReadsStatements R.handed self.now.levels (S.pre self.now.statement) (S.post self.now.statement) }
        ensures { Gives result (spec.if_clause self.now.text.now context self.now.levels (R.handed self.now.text.now self.now.levels) at) }
    {
        let (word, at) = expect(self.text, Kind::If, at)?;
        let (parts, at) = self.headed_body(context, at)?;
        let levels = parts.levels;
        let (begin, (x, (ending, body))) = parts.tree;
        let (condition, body) = with(x, body.boxed(self.alloc))?;
        let tree = IfClause {
            word,
            begin,
            condition,
            ending,
            body,
        };
        Ok((Node { tree, levels }, at))
    }

    /// `else` and the clause behind it.
    #[tactic(auto, unfolding(esb_statement_laws::specs::Statements::else_if))]
    fn else_if(&self, context: Context, at: usize) -> Reading<Node<ElseIf>>
        requires expressions { ReadsExpressions R.handed self.now.levels (E.pre self.now.expression) (E.post self.now.expression) }
        requires statements { ReadsStatements R.handed self.now.levels (S.pre self.now.statement) (S.post self.now.statement) }
        ensures { Gives result (spec.else_if self.now.text.now context self.now.levels (R.handed self.now.text.now self.now.levels) at) }
    {
        let (else_word, at) = expect(self.text, Kind::Else, at)?;
        let (clause, at) = self.if_clause(context, at)?;
        let levels = clause.levels;
        let clause = clause.tree;
        let tree = ElseIf { else_word, clause };
        Ok((Node { tree, levels }, at))
    }

    /// Clauses while `else if` follows.
    #[tactic(auto, unfolding(esb_statement_laws::specs::Statements::else_ifs, esb_reader::specs::Reader::repeated))]
    fn else_ifs(&self, context: Context, start: usize) -> Reading<Node<List<ElseIf>>>
        requires expressions { ReadsExpressions R.handed self.now.levels (E.pre self.now.expression) (E.post self.now.expression) }
        requires statements { ReadsStatements R.handed self.now.levels (S.pre self.now.statement) (S.post self.now.statement) }
        ensures { Gives result (spec.else_ifs self.now.text.now context self.now.levels (R.handed self.now.text.now self.now.levels) start) }
    {
        let mut at = start;
        let mut tree = List::new(self.alloc);
        let mut levels = 0;
        for _turn in 0..self.text.as_bytes().len() {
            if !else_if_at(self.text, at) {
                return Ok((Node { tree, levels }, at));
            }
            let (list, (next, end)) = with(tree, self.else_if(context, at))?;
            tree = next.tree.added_to(list)?;
            levels = levels.max(next.levels);
            at = end;
        }
        Ok((Node { tree, levels }, at))
    }

    /// The last `else`, which may be absent. No `if` stands behind it.
    #[tactic(auto, unfolding(esb_statement_laws::specs::Statements::last_else))]
    fn last_else(&self, context: Context, at: usize) -> Reading<Node<Else>>
        requires statements { ReadsStatements R.handed self.now.levels (S.pre self.now.statement) (S.post self.now.statement) }
        ensures { Gives result (spec.last_else self.now.text.now context self.now.levels (R.handed self.now.text.now self.now.levels) at) }
    {
        if !is_else(peek(self.text, Goal::Div, at).kind) {
            let tree = Else::NoElse;
            return Ok((Node { tree, levels: 0 }, at));
        }
        let (word, at) = expect(self.text, Kind::Else, at)?;
        if is_if_word(peek(self.text, Goal::Div, at).kind) {
            return Err(Fault::NoTree(at));
        }
        let (body, at) = self.body(context, at)?;
        let levels = body.levels;
        let body = body.tree.boxed(self.alloc)?;
        let tree = Else::Otherwise(word, body);
        Ok((Node { tree, levels }, at))
    }

    /// What stands behind the first clause.
    fn if_rest(&self, context: Context, at: usize) -> Reading<Node<(List<ElseIf>, Else)>>
        requires expressions { ReadsExpressions R.handed self.now.levels (E.pre self.now.expression) (E.post self.now.expression) }
        requires statements { ReadsStatements R.handed self.now.levels (S.pre self.now.statement) (S.post self.now.statement) }
        ensures { Gives result (both (spec.else_ifs self.now.text.now context self.now.levels (R.handed self.now.text.now self.now.levels)) (spec.last_else self.now.text.now context self.now.levels (R.handed self.now.text.now self.now.levels)) at) }
    {
        let (rest, at) = self.else_ifs(context, at)?;
        let (rest, (last, at)) = with(rest, self.last_else(context, at))?;
        let levels = rest.levels.max(last.levels);
        let tree = (rest.tree, last.tree);
        Ok((Node { tree, levels }, at))
    }

    /// IfStatement (13.6).
    #[tactic(auto, unfolding(esb_statement_laws::specs::Statements::if_statement))]
    pub(crate) fn if_statement(&self, context: Context, at: usize) -> Reading<Node<Statement>>
        requires expressions { ReadsExpressions R.handed self.now.levels (E.pre self.now.expression) (E.post self.now.expression) }
        requires statements { ReadsStatements R.handed self.now.levels (S.pre self.now.statement) (S.post self.now.statement) }
        ensures { Gives result (spec.if_statement self.now.text.now context self.now.levels (R.handed self.now.text.now self.now.levels) at) }
    {
        let (clause, at) = self.if_clause(context, at)?;
        let (clause, (more, at)) = with(clause, self.if_rest(context, at))?;
        let deepest = clause.levels.max(more.levels);
        if deepest >= self.levels {
            clause.discard();
            more.discard();
            return Err(Fault::NoTree(at));
        }
        let levels = deepest + 1;
        let (rest, last) = more.tree;
        let tree = Statement::If(clause.tree, rest, last);
        Ok((Node { tree, levels }, at))
    }
}
