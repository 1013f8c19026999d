//! A text, how many levels an item may have, and what reads the nodes in it.

ghost use Rattle.std.specs.Prelude.{true, false};
ghost use Rattle.esb_module_items.specs.Reads.{ReadsClasses, ReadsFunctions, ReadsStatements, ReadsValues};
ghost use Rattle.esb_reader.specs.Reader.{Gives};

use crate::readers::ItemReaders;
use esb_base::Text;
use esb_reader::{Node, Reading};
use esb_tree::{Class, Expression, Function, Statement};
use std::alloc::Global;
use std::marker::PhantomData;

/// What the functions that read module items stand on.
#[derive(Drop)]
pub struct ItemParts<'a, R, S, V, F, C> {
    pub alloc: Global,
    pub text: &'a Text,
    /// How many levels an item may have at most.
    pub levels: usize,
    /// Reads a statement or a declaration, within a number of levels.
    pub statement: S,
    /// Reads an AssignmentExpression.
    pub value: V,
    /// Reads a function whose name may be absent.
    pub function: F,
    /// Reads a class whose name may be absent.
    pub class: C,
    /// Whose definitions say what these give.
    pub readers: PhantomData<R>,
}

impl<
    'a,
    R: ItemReaders,
    S: Fn(Global, &Text, usize, usize) -> Reading<Node<Statement>>,
    V,
    F,
    C,
> ItemParts<'a, R, S, V, F, C> {
    #[tactic(auto, unfolding(crate::specs::Reads::ReadsStatements))]
    pub(crate) fn statement_of(&self, at: usize) -> Reading<Node<Statement>>
        requires statements { ReadsStatements R.handed self.now.levels (S.pre self.now.statement) (S.post self.now.statement) }
        ensures { Gives result ((R.handed self.now.text.now self.now.levels).statement at) }
    {
        (self.statement)(self.alloc, self.text, self.levels, at)
    }
}

impl<
    'a,
    R: ItemReaders,
    S,
    V: Fn(Global, &Text, usize, usize) -> Reading<Node<Expression>>,
    F,
    C,
> ItemParts<'a, R, S, V, F, C> {
    #[tactic(auto, unfolding(crate::specs::Reads::ReadsValues))]
    pub(crate) fn value_of(&self, at: usize) -> Reading<Node<Expression>>
        requires values { ReadsValues R.handed self.now.levels (V.pre self.now.value) (V.post self.now.value) }
        ensures { Gives result ((R.handed self.now.text.now self.now.levels).value at) }
    {
        (self.value)(self.alloc, self.text, self.levels, at)
    }
}

impl<
    'a,
    R: ItemReaders,
    S,
    V,
    F: Fn(Global, &Text, usize, usize) -> Reading<Node<Function>>,
    C,
> ItemParts<'a, R, S, V, F, C> {
    #[tactic(auto, unfolding(crate::specs::Reads::ReadsFunctions))]
    pub(crate) fn function_of(&self, at: usize) -> Reading<Node<Function>>
        requires functions { ReadsFunctions R.handed self.now.levels (F.pre self.now.function) (F.post self.now.function) }
        ensures { Gives result ((R.handed self.now.text.now self.now.levels).function at) }
    {
        (self.function)(self.alloc, self.text, self.levels, at)
    }
}

impl<
    'a,
    R: ItemReaders,
    S,
    V,
    F,
    C: Fn(Global, &Text, usize, usize) -> Reading<Node<Class>>,
> ItemParts<'a, R, S, V, F, C> {
    #[tactic(auto, unfolding(crate::specs::Reads::ReadsClasses))]
    pub(crate) fn class_of(&self, at: usize) -> Reading<Node<Class>>
        requires classes { ReadsClasses R.handed self.now.levels (C.pre self.now.class) (C.post self.now.class) }
        ensures { Gives result ((R.handed self.now.text.now self.now.levels).class at) }
    {
        (self.class)(self.alloc, self.text, self.levels, at)
    }
}
