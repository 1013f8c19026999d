//! A text, how many levels a node of it may have, and what reads the nodes in it.

ghost use Rattle.std.specs.Prelude.{◌<◌, ◌≤◌, IfOk, true, false};
ghost use Rattle.esb_reader.specs.Reader.{Gives};
ghost use Rattle.esb_inner.specs.Inner.{below, ReadsExpressions, ReadsItems};

use crate::readers::Readers;
use esb_base::{List, Text};
use esb_grammar::Context;
use esb_reader::{Fault, Node, Reading};
use esb_tree::{Expression, Statement};
use std::alloc::Global;
use std::marker::PhantomData;

/// What a parser of nodes stands on.
#[derive(Drop)]
pub struct Parser<'a, R, F, S> {
    pub alloc: Global,
    pub text: &'a Text,
    /// How many nodes may stand in one another at most.
    pub levels: usize,
    /// Reads an AssignmentExpression, or an Expression where its flag says so, within a number of levels.
    pub expression: F,
    /// Reads a StatementList up to the brace behind it, within a number of levels.
    pub items: S,
    /// Whose definitions say what these give.
    pub readers: PhantomData<R>,
}

impl<
    'a,
    R: Readers,
    F: Fn(Global, &Text, bool, Context, usize, usize) -> Reading<Node<Expression>>,
    S: Fn(Global, &Text, Context, usize, usize) -> Reading<Node<List<Statement>>>,
> Parser<'a, R, F, S> {
    /// An AssignmentExpression within the levels below a number.
    #[tactic(auto, unfolding(crate::specs::Inner::below))]
    pub fn value(&self, context: Context, levels: usize, at: usize) -> Reading<Node<Expression>>
        requires inner { ReadsExpressions R.expression self.now.levels (F.pre self.now.expression) (F.post self.now.expression) }
        requires fits { levels ≤ self.now.levels }
        ensures value { Gives result (below (R.expression false context) self.now.text.now levels at) }
        ensures room { IfOk result (λ p. p.0.levels < levels) }
    {
        if levels == 0 {
            return Err(Fault::NoTree(at));
        }
        (self.expression)(self.alloc, self.text, false, context, levels - 1, at)
    }

    /// An Expression within the levels below a number.
    #[tactic(auto, unfolding(crate::specs::Inner::below))]
    pub fn values(&self, context: Context, levels: usize, at: usize) -> Reading<Node<Expression>>
        requires inner { ReadsExpressions R.expression self.now.levels (F.pre self.now.expression) (F.post self.now.expression) }
        requires fits { levels ≤ self.now.levels }
        ensures value { Gives result (below (R.expression true context) self.now.text.now levels at) }
        ensures room { IfOk result (λ p. p.0.levels < levels) }
    {
        if levels == 0 {
            return Err(Fault::NoTree(at));
        }
        (self.expression)(self.alloc, self.text, true, context, levels - 1, at)
    }

    /// A StatementList within the levels below a number.
    #[tactic(auto, unfolding(crate::specs::Inner::below))]
    pub fn body(&self, context: Context, levels: usize, at: usize) -> Reading<Node<List<Statement>>>
        requires inner { ReadsItems R.items self.now.levels (S.pre self.now.items) (S.post self.now.items) }
        requires fits { levels ≤ self.now.levels }
        ensures value { Gives result (below (R.items context) self.now.text.now levels at) }
        ensures room { IfOk result (λ p. p.0.levels < levels) }
    {
        if levels == 0 {
            return Err(Fault::NoTree(at));
        }
        (self.items)(self.alloc, self.text, context, levels - 1, at)
    }
}
