//! A text, how many levels the nodes in a statement may have, and what reads them.

ghost use Rattle.std.specs.Prelude.{true, false};
ghost use Rattle.esb_grammar.specs.Contexts as contexts;
ghost use Rattle.esb_reader.specs.Reader.{Gives};
ghost use Rattle.esb_statements.specs.Reads.{ReadsBindings, ReadsClasses, ReadsExpressions, ReadsFunctions, ReadsItems, ReadsStatements, ReadsTargets};

use crate::readers::StatementReaders;
use esb_base::{List, Text};
use esb_grammar::Context;
use esb_reader::{Node, Reading};
use esb_statement_tests::inside;
use esb_tree::{Class, Expression, Function, Statement};
use std::alloc::Global;
use std::marker::PhantomData;

/// What the functions that read statements stand on.
#[derive(Drop)]
pub struct Parts<'a, R, E, T, B, F, C, I, S> {
    pub alloc: Global,
    pub text: &'a Text,
    /// How many levels the nodes in a statement may have at most: a statement has one more than those in it.
    pub levels: usize,
    /// Reads an AssignmentExpression, or an Expression where its flag says so, within a number of levels.
    pub expression: E,
    /// Reads a BindingIdentifier or a BindingPattern.
    pub target: T,
    /// Reads the same with its value, which may be absent.
    pub binding: B,
    /// Reads a declaration of a function, of a generator, or of their async kinds.
    pub function: F,
    /// Reads a ClassDeclaration.
    pub class: C,
    /// Reads a StatementList, up to what ends one.
    pub items: I,
    /// Reads a Statement.
    pub statement: S,
    /// Whose definitions say what these give.
    pub readers: PhantomData<R>,
}

impl<
    'a,
    R: StatementReaders,
    E: Fn(Global, &Text, bool, Context, usize, usize) -> Reading<Node<Expression>>,
    T,
    B,
    F,
    C,
    I,
    S,
> Parts<'a, R, E, T, B, F, C, I, S> {
    /// An Expression in brackets or at the end of a statement.
    #[tactic(auto, unfolding(crate::specs::Reads::ReadsExpressions))]
    pub(crate) fn value(&self, context: Context, at: usize) -> Reading<Node<Expression>>
        requires expressions { ReadsExpressions R.handed self.now.levels (E.pre self.now.expression) (E.post self.now.expression) }
        ensures { Gives result ((R.handed self.now.text.now self.now.levels).expression true (contexts.inside context) at) }
    {
        (self.expression)(
            self.alloc,
            self.text,
            true,
            inside(context),
            self.levels,
            at,
        )
    }

    /// An Expression.
    #[tactic(auto, unfolding(crate::specs::Reads::ReadsExpressions))]
    pub(crate) fn values(&self, context: Context, at: usize) -> Reading<Node<Expression>>
        requires expressions { ReadsExpressions R.handed self.now.levels (E.pre self.now.expression) (E.post self.now.expression) }
        ensures { Gives result ((R.handed self.now.text.now self.now.levels).expression true context at) }
    {
        (self.expression)(self.alloc, self.text, true, context, self.levels, at)
    }

    /// An AssignmentExpression in brackets.
    #[tactic(auto, unfolding(crate::specs::Reads::ReadsExpressions))]
    pub(crate) fn assigned(&self, context: Context, at: usize) -> Reading<Node<Expression>>
        requires expressions { ReadsExpressions R.handed self.now.levels (E.pre self.now.expression) (E.post self.now.expression) }
        ensures { Gives result ((R.handed self.now.text.now self.now.levels).expression false (contexts.inside context) at) }
    {
        (self.expression)(
            self.alloc,
            self.text,
            false,
            inside(context),
            self.levels,
            at,
        )
    }
}

impl<
    'a,
    R: StatementReaders,
    E,
    T: Fn(Global, &Text, Context, usize, usize) -> Reading<Node<Expression>>,
    B,
    F,
    C,
    I,
    S,
> Parts<'a, R, E, T, B, F, C, I, S> {
    /// A BindingIdentifier or a BindingPattern.
    #[tactic(auto, unfolding(crate::specs::Reads::ReadsTargets))]
    pub(crate) fn bound(&self, context: Context, at: usize) -> Reading<Node<Expression>>
        requires targets { ReadsTargets R.handed self.now.levels (T.pre self.now.target) (T.post self.now.target) }
        ensures { Gives result ((R.handed self.now.text.now self.now.levels).target context at) }
    {
        (self.target)(self.alloc, self.text, context, self.levels, at)
    }
}

impl<
    'a,
    R: StatementReaders,
    E,
    T,
    B: Fn(Global, &Text, Context, usize, usize) -> Reading<Node<Expression>>,
    F,
    C,
    I,
    S,
> Parts<'a, R, E, T, B, F, C, I, S> {
    /// The same with its value, which may be absent.
    #[tactic(auto, unfolding(crate::specs::Reads::ReadsBindings))]
    pub(crate) fn bound_value(&self, context: Context, at: usize) -> Reading<Node<Expression>>
        requires bindings { ReadsBindings R.handed self.now.levels (B.pre self.now.binding) (B.post self.now.binding) }
        ensures { Gives result ((R.handed self.now.text.now self.now.levels).binding context at) }
    {
        (self.binding)(self.alloc, self.text, context, self.levels, at)
    }
}

impl<
    'a,
    R: StatementReaders,
    E,
    T,
    B,
    F: Fn(Global, &Text, usize, usize) -> Reading<Node<Function>>,
    C,
    I,
    S,
> Parts<'a, R, E, T, B, F, C, I, S> {
    /// A declaration of a function.
    #[tactic(auto, unfolding(crate::specs::Reads::ReadsFunctions))]
    pub(crate) fn function_of(&self, at: usize) -> Reading<Node<Function>>
        requires functions { ReadsFunctions R.handed self.now.levels (F.pre self.now.function) (F.post self.now.function) }
        ensures { Gives result ((R.handed self.now.text.now self.now.levels).function at) }
    {
        (self.function)(self.alloc, self.text, self.levels, at)
    }
}

impl<
    'a,
    R: StatementReaders,
    E,
    T,
    B,
    F,
    C: Fn(Global, &Text, Context, usize, usize) -> Reading<Node<Class>>,
    I,
    S,
> Parts<'a, R, E, T, B, F, C, I, S> {
    /// A ClassDeclaration.
    #[tactic(auto, unfolding(crate::specs::Reads::ReadsClasses))]
    pub(crate) fn class_of(&self, context: Context, at: usize) -> Reading<Node<Class>>
        requires classes { ReadsClasses R.handed self.now.levels (C.pre self.now.class) (C.post self.now.class) }
        ensures { Gives result ((R.handed self.now.text.now self.now.levels).class context at) }
    {
        (self.class)(self.alloc, self.text, context, self.levels, at)
    }
}

impl<
    'a,
    R: StatementReaders,
    E,
    T,
    B,
    F,
    C,
    I: Fn(Global, &Text, Context, usize, usize) -> Reading<Node<List<Statement>>>,
    S,
> Parts<'a, R, E, T, B, F, C, I, S> {
    /// A StatementList.
    #[tactic(auto, unfolding(crate::specs::Reads::ReadsItems))]
    pub(crate) fn list(&self, context: Context, at: usize) -> Reading<Node<List<Statement>>>
        requires lists { ReadsItems R.handed self.now.levels (I.pre self.now.items) (I.post self.now.items) }
        ensures { Gives result ((R.handed self.now.text.now self.now.levels).items context at) }
    {
        (self.items)(self.alloc, self.text, context, self.levels, at)
    }
}

impl<
    'a,
    R: StatementReaders,
    E,
    T,
    B,
    F,
    C,
    I,
    S: Fn(Global, &Text, Context, usize, usize) -> Reading<Node<Statement>>,
> Parts<'a, R, E, T, B, F, C, I, S> {
    /// A Statement.
    #[tactic(auto, unfolding(crate::specs::Reads::ReadsStatements))]
    pub(crate) fn body(&self, context: Context, at: usize) -> Reading<Node<Statement>>
        requires statements { ReadsStatements R.handed self.now.levels (S.pre self.now.statement) (S.post self.now.statement) }
        ensures { Gives result ((R.handed self.now.text.now self.now.levels).statement context at) }
    {
        (self.statement)(self.alloc, self.text, context, self.levels, at)
    }
}
