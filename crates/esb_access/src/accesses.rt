//! What reads members and calls, and what is handed to it.

ghost use Rattle.std.specs.Prelude.{◌≤◌};
ghost use Rattle.esb_reader.specs.Reader.{Gives};
ghost use Rattle.esb_access.specs.Handed.{ReadsParts};

use crate::parts::Parts;
use esb_base::Text;
use esb_grammar::Context;
use esb_inner::{Parser, Readers};
use esb_reader::{Node, Reading};
use esb_tree::{Bracketed, Expression, Substitutions};
use std::alloc::Global;

/// Reads members, calls, `new` and optional chains. What reads an Expression in brackets is the parser's; what reads a primary
/// expression, arguments, or a template with substitutions within a number of levels is handed in beside it.
#[derive(Drop)]
pub struct Accesses<'a, R, F, S, P, A, T> {
    pub parser: &'a Parser<'a, R, F, S>,
    pub primary: P,
    pub arguments: A,
    pub template: T,
}

impl<
    'a,
    R: Readers + Parts,
    F,
    S,
    P: Fn(Global, &Text, Context, usize, usize) -> Reading<Node<Expression>>,
    A,
    T,
> Accesses<'a, R, F, S, P, A, T> {
    /// A PrimaryExpression.
    pub(crate) fn read_primary(
        &self,
        context: Context,
        levels: usize,
        at: usize,
    ) -> Reading<Node<Expression>>
        requires primaries { ReadsParts R.primary self.now.parser.now.levels (P.pre self.now.primary) (P.post self.now.primary) }
        requires fits { levels ≤ self.now.parser.now.levels }
        ensures { Gives result (R.primary context self.now.parser.now.text.now levels at) }
    {
        (self.primary)(self.parser.alloc, self.parser.text, context, levels, at)
    }
}

impl<
    'a,
    R: Readers + Parts,
    F,
    S,
    P,
    A: Fn(Global, &Text, Context, usize, usize) -> Reading<Node<Bracketed>>,
    T,
> Accesses<'a, R, F, S, P, A, T> {
    /// Arguments (12.3.8).
    pub(crate) fn read_arguments(
        &self,
        context: Context,
        levels: usize,
        at: usize,
    ) -> Reading<Node<Bracketed>>
        requires lists { ReadsParts R.arguments self.now.parser.now.levels (A.pre self.now.arguments) (A.post self.now.arguments) }
        requires fits { levels ≤ self.now.parser.now.levels }
        ensures { Gives result (R.arguments context self.now.parser.now.text.now levels at) }
    {
        (self.arguments)(self.parser.alloc, self.parser.text, context, levels, at)
    }
}

impl<
    'a,
    R: Readers + Parts,
    F,
    S,
    P,
    A,
    T: Fn(Global, &Text, Context, usize, usize) -> Reading<Node<Substitutions>>,
> Accesses<'a, R, F, S, P, A, T> {
    /// A template with substitutions (12.2.9).
    pub(crate) fn read_template(
        &self,
        context: Context,
        levels: usize,
        at: usize,
    ) -> Reading<Node<Substitutions>>
        requires templates { ReadsParts R.template self.now.parser.now.levels (T.pre self.now.template) (T.post self.now.template) }
        requires fits { levels ≤ self.now.parser.now.levels }
        ensures { Gives result (R.template context self.now.parser.now.text.now levels at) }
    {
        (self.template)(self.parser.alloc, self.parser.text, context, levels, at)
    }
}
