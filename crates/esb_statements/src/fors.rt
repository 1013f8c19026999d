//! `for` in all its forms (ECMA-262, 13.7.4, 13.7.5).

ghost use Rattle.std.specs.Prelude.{◌≡◌, true, false};
ghost use Rattle.esb_reader.specs.Parts.{both};
ghost use Rattle.esb_reader.specs.Reader.{Gives};
ghost use Rattle.esb_statement_laws.specs.Loops as spec;
ghost use Rattle.esb_statements.specs.Heads as heads;
ghost use Rattle.esb_statements.specs.Lists as lists;
ghost use Rattle.esb_statements.specs.Reads.{ReadsBindings, ReadsExpressions, ReadsStatements};

use crate::parts::Parts;
use crate::readers::StatementReaders;
use esb_base::Text;
use esb_grammar::Context;
use esb_nodes::{Discard, Nested, with};
use esb_reader::{Fault, Node, Reading, expect, peek, take};
use esb_statement_tests::{
    begins_target, ends_expression, is_await_in, is_classic, is_each, is_in, is_of, is_of_each,
    is_semicolon, is_variable, without_in,
};
use esb_token::{Goal, Kind, Token};
use esb_tree::{Declaration, Expression, ForStart, MaybeExpression, Statement};
use std::alloc::Global;

/// `;` test `;` step `)` statement (13.7.4).
type Classic = (
    Token,
    (
        MaybeExpression,
        (Token, (MaybeExpression, (Token, Statement))),
    ),
);

/// `in` or `of`, an expression, `)` and a statement (13.7.5).
type Each = (Token, (Expression, (Token, Statement)));

/// Whether a token begins a declaration with the one behind it.
fn declares(first: Kind, second: Kind) -> bool
    ensures { result ≡ spec.declares first second }
{
    match first {
        Kind::Var | Kind::Const => true,
        Kind::Let => begins_target(second),
        _ => false,
    }
}

fn declares_at(text: &Text, at: usize) -> bool
    ensures { result ≡ spec.declares_at text.now at }
{
    let token = peek(text, Goal::Div, at);
    declares(token.kind, peek(text, Goal::Div, token.end).kind)
}

impl<
    'a,
    R: StatementReaders,
    E: Fn(Global, &Text, bool, Context, usize, usize) -> Reading<Node<Expression>>,
    T,
    B: Fn(Global, &Text, Context, usize, usize) -> Reading<Node<Expression>>,
    F,
    C,
    I,
    S: Fn(Global, &Text, Context, usize, usize) -> Reading<Node<Statement>>,
> Parts<'a, R, E, T, B, F, C, I, S> {
    /// An Expression that may be absent.
    #[tactic(auto, unfolding(esb_statement_laws::specs::Loops::maybe_value))]
    fn maybe_value(&self, context: Context, at: usize) -> Reading<Node<MaybeExpression>>
        requires expressions { ReadsExpressions R.handed self.now.levels (E.pre self.now.expression) (E.post self.now.expression) }
        ensures { Gives result (spec.maybe_value self.now.text.now context self.now.levels (R.handed self.now.text.now self.now.levels) at) }
    {
        if ends_expression(peek(self.text, Goal::Div, at).kind) {
            let tree = MaybeExpression::Absent;
            return Ok((Node { tree, levels: 0 }, at));
        }
        let (x, at) = self.value(context, at)?;
        let levels = x.levels;
        let tree = MaybeExpression::Present(x.tree);
        Ok((Node { tree, levels }, at))
    }

    /// A step, `)` and a Statement.
    fn step_body(
        &self,
        context: Context,
        at: usize,
    ) -> Reading<Node<(MaybeExpression, (Token, Statement))>>
        requires expressions { ReadsExpressions R.handed self.now.levels (E.pre self.now.expression) (E.post self.now.expression) }
        requires statements { ReadsStatements R.handed self.now.levels (S.pre self.now.statement) (S.post self.now.statement) }
        ensures { Gives result (both (spec.maybe_value self.now.text.now context self.now.levels (R.handed self.now.text.now self.now.levels)) (spec.closing_body self.now.text.now context self.now.levels (R.handed self.now.text.now self.now.levels)) at) }
    {
        let (step, at) = self.maybe_value(context, at)?;
        let (step, (body, at)) = with(step, self.closing_body(context, at))?;
        let levels = step.levels.max(body.levels);
        let tree = (step.tree, body.tree);
        Ok((Node { tree, levels }, at))
    }

    #[tactic(auto, unfolding(esb_statement_laws::specs::Loops::classic))]
    fn classic(&self, context: Context, at: usize) -> Reading<Node<Classic>>
        requires expressions { ReadsExpressions R.handed self.now.levels (E.pre self.now.expression) (E.post self.now.expression) }
        requires statements { ReadsStatements R.handed self.now.levels (S.pre self.now.statement) (S.post self.now.statement) }
        ensures { Gives result (spec.classic self.now.text.now context self.now.levels (R.handed self.now.text.now self.now.levels) at) }
    {
        let (first, at) = expect(self.text, Kind::Semicolon, at)?;
        let (test, at) = self.maybe_value(context, at)?;
        let (test, (second, at)) = with(test, expect(self.text, Kind::Semicolon, at))?;
        let (test, (more, at)) = with(test, self.step_body(context, at))?;
        let levels = test.levels.max(more.levels);
        let tree = (first, (test.tree, (second, more.tree)));
        Ok((Node { tree, levels }, at))
    }

    #[tactic(auto, unfolding(esb_statement_laws::specs::Loops::each_in))]
    fn each_in(&self, context: Context, at: usize) -> Reading<Node<Each>>
        requires expressions { ReadsExpressions R.handed self.now.levels (E.pre self.now.expression) (E.post self.now.expression) }
        requires statements { ReadsStatements R.handed self.now.levels (S.pre self.now.statement) (S.post self.now.statement) }
        ensures { Gives result (spec.each_in self.now.text.now context self.now.levels (R.handed self.now.text.now self.now.levels) at) }
    {
        let (middle, at) = expect(self.text, Kind::In, at)?;
        let (x, at) = self.value(context, at)?;
        let (x, (body, at)) = with(x, self.closing_body(context, at))?;
        let levels = x.levels.max(body.levels);
        let tree = (middle, (x.tree, body.tree));
        Ok((Node { tree, levels }, at))
    }

    #[tactic(auto, unfolding(esb_statement_laws::specs::Loops::each_of))]
    fn each_of(&self, context: Context, at: usize) -> Reading<Node<Each>>
        requires expressions { ReadsExpressions R.handed self.now.levels (E.pre self.now.expression) (E.post self.now.expression) }
        requires statements { ReadsStatements R.handed self.now.levels (S.pre self.now.statement) (S.post self.now.statement) }
        ensures { Gives result (spec.each_of self.now.text.now context self.now.levels (R.handed self.now.text.now self.now.levels) at) }
    {
        let (middle, at) = take(self.text, Goal::Div, at)?;
        if !is_of(self.text, middle) {
            return Err(Fault::NoTree(middle.start));
        }
        let (x, at) = self.assigned(context, at)?;
        let (x, (body, at)) = with(x, self.closing_body(context, at))?;
        let levels = x.levels.max(body.levels);
        let tree = (middle, (x.tree, body.tree));
        Ok((Node { tree, levels }, at))
    }

    /// A word that declares, and bindings with or without values.
    #[tactic(auto, unfolding(crate::specs::Lists::loose_declaration))]
    fn loose_declaration(&self, context: Context, at: usize) -> Reading<Node<Declaration>>
        requires bindings { ReadsBindings R.handed self.now.levels (B.pre self.now.binding) (B.post self.now.binding) }
        ensures { Gives result (lists.loose_declaration self.now.text.now context self.now.levels (R.handed self.now.text.now self.now.levels) at) }
    {
        let (word, at) = take(self.text, Goal::Div, at)?;
        if !is_variable(word.kind) {
            return Err(Fault::NoTree(word.start));
        }
        let (list, at) = self.loose_bindings(context, at)?;
        let levels = list.levels;
        let bindings = list.tree;
        let tree = Declaration { word, bindings };
        Ok((Node { tree, levels }, at))
    }

    /// A declaration in the head of a `for`.
    fn declared_start(&self, context: Context, at: usize) -> Reading<Node<ForStart>>
        requires bindings { ReadsBindings R.handed self.now.levels (B.pre self.now.binding) (B.post self.now.binding) }
        ensures { Gives result (spec.declared_start self.now.text.now context self.now.levels (R.handed self.now.text.now self.now.levels) at) }
    {
        let (declaration, at) = self.loose_declaration(without_in(context), at)?;
        let levels = declaration.levels;
        let tree = ForStart::StartDeclaration(declaration.tree);
        Ok((Node { tree, levels }, at))
    }

    /// Nothing, a declaration or an Expression, all without `in`.
    #[tactic(auto, unfolding(esb_statement_laws::specs::Loops::start))]
    fn start(&self, context: Context, at: usize) -> Reading<Node<ForStart>>
        requires expressions { ReadsExpressions R.handed self.now.levels (E.pre self.now.expression) (E.post self.now.expression) }
        requires bindings { ReadsBindings R.handed self.now.levels (B.pre self.now.binding) (B.post self.now.binding) }
        ensures { Gives result (spec.start self.now.text.now context self.now.levels (R.handed self.now.text.now self.now.levels) at) }
    {
        if is_semicolon(peek(self.text, Goal::Div, at).kind) {
            let tree = ForStart::NoStart;
            return Ok((Node { tree, levels: 0 }, at));
        }
        if declares_at(self.text, at) {
            return self.declared_start(context, at);
        }
        let (x, at) = self.values(without_in(context), at)?;
        let levels = x.levels;
        let tree = ForStart::StartExpression(x.tree);
        Ok((Node { tree, levels }, at))
    }

    /// A `for` with two semicolons, of its first part and the others.
    fn classic_for(
        &self,
        word: Token,
        begin: Token,
        start: Node<ForStart>,
        parts: Node<Classic>,
        at: usize,
    ) -> Reading<Node<Statement>>
        ensures { Gives result (heads.over_start self.now.levels (heads.make_classic word begin) start parts at) }
    {
        let deepest = start.levels.max(parts.levels);
        if deepest >= self.levels {
            start.discard();
            parts.discard();
            return Err(Fault::NoTree(at));
        }
        let levels = deepest + 1;
        let (first, (test, (second, (step, (ending, body))))) = parts.tree;
        let ((start, (test, step)), body) = with(
            (start.tree, (test, step)),
            body.boxed(self.alloc),
        )?;
        let tree = Statement::For(word, begin, start, first, test, second, step, ending, body);
        Ok((Node { tree, levels }, at))
    }

    /// A `for` with `in` or `of`, of its first part and the others.
    fn each_for(
        &self,
        word: Token,
        await_word: Option<Token>,
        begin: Token,
        start: Node<ForStart>,
        parts: Node<Each>,
        at: usize,
    ) -> Reading<Node<Statement>>
        ensures { Gives result (heads.over_start self.now.levels (heads.make_each word await_word begin) start parts at) }
    {
        let deepest = start.levels.max(parts.levels);
        if deepest >= self.levels {
            start.discard();
            parts.discard();
            return Err(Fault::NoTree(at));
        }
        let levels = deepest + 1;
        let (middle, (x, (ending, body))) = parts.tree;
        let ((start, x), body) = with((start.tree, x), body.boxed(self.alloc))?;
        let tree = Statement::ForEach(word, await_word, begin, start, middle, x, ending, body);
        Ok((Node { tree, levels }, at))
    }

    /// `for` without `await`. The token behind its first part tells how it goes on, and it is asked whether that part may stand so.
    #[tactic(auto, unfolding(esb_statement_laws::specs::Loops::plain_for, esb_statement_laws::specs::Loops::loop_rest))]
    fn plain_for(&self, context: Context, at: usize) -> Reading<Node<Statement>>
        requires expressions { ReadsExpressions R.handed self.now.levels (E.pre self.now.expression) (E.post self.now.expression) }
        requires bindings { ReadsBindings R.handed self.now.levels (B.pre self.now.binding) (B.post self.now.binding) }
        requires statements { ReadsStatements R.handed self.now.levels (S.pre self.now.statement) (S.post self.now.statement) }
        ensures { Gives result (spec.plain_for self.now.text.now context self.now.levels (R.handed self.now.text.now self.now.levels) at) }
    {
        let (word, at) = expect(self.text, Kind::For, at)?;
        let (begin, at) = expect(self.text, Kind::LeftParenthesis, at)?;
        let (start, at) = self.start(context, at)?;
        let kind = peek(self.text, Goal::Div, at).kind;
        if is_semicolon(kind) {
            if !is_classic(&start.tree) {
                start.discard();
                return Err(Fault::NoTree(at));
            }
            let (start, (parts, at)) = with(start, self.classic(context, at))?;
            return self.classic_for(word, begin, start, parts, at);
        }
        if is_in(kind) {
            if !is_each(&start.tree) {
                start.discard();
                return Err(Fault::NoTree(at));
            }
            let (start, (parts, at)) = with(start, self.each_in(context, at))?;
            return self.each_for(word, None, begin, start, parts, at);
        }
        if !is_of_each(&start.tree) {
            start.discard();
            return Err(Fault::NoTree(at));
        }
        let (start, (parts, at)) = with(start, self.each_of(context, at))?;
        self.each_for(word, None, begin, start, parts, at)
    }

    /// `for await`, which has `of`.
    #[tactic(auto, unfolding(esb_statement_laws::specs::Loops::awaited_for))]
    fn awaited_for(&self, context: Context, at: usize) -> Reading<Node<Statement>>
        requires expressions { ReadsExpressions R.handed self.now.levels (E.pre self.now.expression) (E.post self.now.expression) }
        requires bindings { ReadsBindings R.handed self.now.levels (B.pre self.now.binding) (B.post self.now.binding) }
        requires statements { ReadsStatements R.handed self.now.levels (S.pre self.now.statement) (S.post self.now.statement) }
        ensures { Gives result (spec.awaited_for self.now.text.now context self.now.levels (R.handed self.now.text.now self.now.levels) at) }
    {
        let (word, at) = expect(self.text, Kind::For, at)?;
        let (await_word, at) = take(self.text, Goal::Div, at)?;
        if !is_await_in(context, await_word.kind) {
            return Err(Fault::NoTree(await_word.start));
        }
        let (begin, at) = expect(self.text, Kind::LeftParenthesis, at)?;
        let (start, at) = self.start(context, at)?;
        if !is_of_each(&start.tree) {
            start.discard();
            return Err(Fault::NoTree(at));
        }
        let (start, (parts, at)) = with(start, self.each_of(context, at))?;
        self.each_for(word, Some(await_word), begin, start, parts, at)
    }

    /// `for` (13.7.4, 13.7.5).
    #[tactic(auto, unfolding(esb_statement_laws::specs::Loops::for_statement))]
    pub(crate) fn for_statement(&self, context: Context, at: usize) -> Reading<Node<Statement>>
        requires expressions { ReadsExpressions R.handed self.now.levels (E.pre self.now.expression) (E.post self.now.expression) }
        requires bindings { ReadsBindings R.handed self.now.levels (B.pre self.now.binding) (B.post self.now.binding) }
        requires statements { ReadsStatements R.handed self.now.levels (S.pre self.now.statement) (S.post self.now.statement) }
        ensures { Gives result (spec.for_statement self.now.text.now context self.now.levels (R.handed self.now.text.now self.now.levels) at) }
    {
        let token = peek(self.text, Goal::Div, at);
        if is_await_in(context, peek(self.text, Goal::Div, token.end).kind) {
            return self.awaited_for(context, at);
        }
        self.plain_for(context, at)
    }
}
