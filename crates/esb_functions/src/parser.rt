//! What is read of what is handed in, and of literals.

ghost use Rattle.std.specs.Prelude.{◌≡◌, ◌≤◌};
ghost use Rattle.esb_reader.specs.Reader.{Gives};
ghost use Rattle.esb_reader.specs.Parts as parts;
ghost use Rattle.esb_inner.specs.Inner.{ReadsExpressions, ReadsItems};
ghost use Rattle.esb_literal_laws.specs.Bindings as bindings;
ghost use Rattle.esb_literal_laws.specs.Forks as forks;
ghost use Rattle.esb_literal_laws.specs.Names as names;
ghost use Rattle.esb_literals.specs.Handed as handed;
ghost use Rattle.esb_functions.specs.Bodies.{bodies};

use esb_base::{List, Text};
use esb_grammar::Context;
use esb_inner::{Parser, Readers};
use esb_literals::Literals;
use esb_reader::{Node, Reading, peek};
use esb_token::{Goal, Kind, Token};
use esb_tree::{Bracketed, Expression, PropertyName, Statement};
use std::alloc::Global;

/// Reads functions, methods, objects and classes.
#[derive(Drop)]
pub struct Functions<'a, R, F, S> {
    pub parser: &'a Parser<'a, R, F, S>,
}

impl<
    'a,
    R: Readers,
    F: Fn(Global, &Text, bool, Context, usize, usize) -> Reading<Node<Expression>>,
    S: Fn(Global, &Text, Context, usize, usize) -> Reading<Node<List<Statement>>>,
> Functions<'a, R, F, S> {
    /// A StatementList.
    #[tactic(auto, unfolding(crate::specs::Bodies::bodies))]
    pub(crate) fn items(
        &self,
        context: Context,
        levels: usize,
        at: usize,
    ) -> Reading<Node<List<Statement>>>
        requires items { ReadsItems R.items self.now.parser.now.levels (S.pre self.now.parser.now.items) (S.post self.now.parser.now.items) }
        requires fits { levels ≤ self.now.parser.now.levels }
        ensures { Gives result (bodies R.items self.now.parser.now.text.now context levels at) }
    {
        self.parser.body(context, levels, at)
    }

    /// The token behind the next one.
    pub(crate) fn second(&self, at: usize) -> Token
        ensures { result ≡ forks.second self.now.parser.now.text.now at }
    {
        Literals {
            parser: self.parser,
        }
        .second(at)
    }

    /// Whether no line terminator stands before the next token.
    pub(crate) fn on_one_line(&self, at: usize) -> bool
        ensures { result ≡ forks.on_one_line self.now.parser.now.text.now at }
    {
        !peek(self.parser.text, Goal::Div, at).after_line
    }

    /// PropertyName (12.2.6).
    pub(crate) fn property_name(
        &self,
        context: Context,
        levels: usize,
        at: usize,
    ) -> Reading<Node<PropertyName>>
        requires inner { ReadsExpressions R.expression self.now.parser.now.levels (F.pre self.now.parser.now.expression) (F.post self.now.parser.now.expression) }
        requires fits { levels ≤ self.now.parser.now.levels }
        ensures { Gives result (names.property_name self.now.parser.now.text.now (handed.values R.expression self.now.parser.now.text.now) context levels at) }
    {
        Literals {
            parser: self.parser,
        }
        .property_name(context, levels, at)
    }

    /// FormalParameters in their parentheses (14.1).
    pub(crate) fn parameters(
        &self,
        context: Context,
        levels: usize,
        at: usize,
    ) -> Reading<Node<Bracketed>>
        requires inner { ReadsExpressions R.expression self.now.parser.now.levels (F.pre self.now.parser.now.expression) (F.post self.now.parser.now.expression) }
        requires fits { levels ≤ self.now.parser.now.levels }
        ensures { Gives result (bindings.parameters self.now.parser.now.text.now (handed.values R.expression self.now.parser.now.text.now) context levels at) }
    {
        Literals {
            parser: self.parser,
        }
        .parameters(context, levels, at)
    }

    /// A sign, and an AssignmentExpression behind it.
    pub(crate) fn signed(
        &self,
        sign: Kind,
        context: Context,
        levels: usize,
        at: usize,
    ) -> Reading<Node<(Token, Expression)>>
        requires inner { ReadsExpressions R.expression self.now.parser.now.levels (F.pre self.now.parser.now.expression) (F.post self.now.parser.now.expression) }
        requires fits { levels ≤ self.now.parser.now.levels }
        ensures { Gives result (parts.both (parts.token self.now.parser.now.text.now sign) ((handed.values R.expression self.now.parser.now.text.now) context levels) at) }
    {
        Literals {
            parser: self.parser,
        }
        .signed(sign, context, levels, at)
    }
}
