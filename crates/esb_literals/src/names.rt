//! Names that are bound, and properties of patterns that hold no pattern (ECMA-262, 12.1, 13.3.3).

ghost use Rattle.std.specs.Prelude.{◌≡◌, ◌≤◌};
ghost use Rattle.esb_reader.specs.Reader.{Gives};
ghost use Rattle.esb_reader.specs.Parts as parts;
ghost use Rattle.esb_inner.specs.Inner.{ReadsExpressions};
ghost use Rattle.esb_literal_laws.specs.Forks as forks;
ghost use Rattle.esb_literal_laws.specs.Bindings as bindings;
ghost use Rattle.esb_literals.specs.Handed as handed;

use crate::kinds::{inside, stands_alone};
use crate::literals::Literals;
use esb_base::{List, Text};
use esb_grammar::{Context, is_binding};
use esb_inner::Readers;
use esb_reader::{Fault, Node, Reading, expect, peek, take};
use esb_token::{Goal, Kind, Token};
use esb_tree::{Element, Expression, Statement};
use std::alloc::Global;

impl<
    'a,
    R: Readers,
    F: Fn(Global, &Text, bool, Context, usize, usize) -> Reading<Node<Expression>>,
    S: Fn(Global, &Text, Context, usize, usize) -> Reading<Node<List<Statement>>>,
> Literals<'a, R, F, S> {
    /// The token behind the next one.
    pub fn second(&self, at: usize) -> Token
        ensures { result ≡ forks.second self.now.parser.now.text.now at }
    {
        peek(
            self.parser.text,
            Goal::Div,
            peek(self.parser.text, Goal::Div, at).end,
        )
    }

    /// A sign, and an AssignmentExpression behind it.
    pub fn signed(
        &self,
        sign: Kind,
        context: Context,
        levels: usize,
        at: usize,
    ) -> Reading<Node<(Token, Expression)>>
        requires inner { ReadsExpressions R.expression self.now.parser.now.levels (F.pre self.now.parser.now.expression) (F.post self.now.parser.now.expression) }
        requires fits { levels ≤ self.now.parser.now.levels }
        ensures { Gives result (parts.both (parts.token self.now.parser.now.text.now sign) ((handed.values R.expression self.now.parser.now.text.now) context levels) at) }
    {
        let (sign, at) = expect(self.parser.text, sign, at)?;
        let (x, at) = self.value(context, levels, at)?;
        let levels = x.levels;
        let tree = (sign, x.tree);
        Ok((Node { tree, levels }, at))
    }

    /// BindingIdentifier (12.1).
    #[tactic(auto, unfolding(esb_literal_laws::specs::Bindings::bound_name))]
    pub fn bound_name(&self, at: usize) -> Reading<Node<Expression>>
        ensures { Gives result (bindings.bound_name self.now.parser.now.text.now at) }
    {
        let (name, at) = take(self.parser.text, Goal::Div, at)?;
        if !is_binding(name.kind) {
            return Err(Fault::NoTree(name.start));
        }
        let tree = Expression::Primary(name);
        Ok((Node { tree, levels: 0 }, at))
    }

    /// BindingRestProperty (13.3.3).
    #[tactic(auto, unfolding(esb_literal_laws::specs::Bindings::rest_property))]
    pub fn rest_property(&self, at: usize) -> Reading<Node<Element>>
        ensures { Gives result (bindings.rest_property self.now.parser.now.text.now at) }
    {
        let (dots, at) = expect(self.parser.text, Kind::Ellipsis, at)?;
        let (name, at) = take(self.parser.text, Goal::Div, at)?;
        if !is_binding(name.kind) {
            return Err(Fault::NoTree(name.start));
        }
        let tree = Element::Spread(dots, Expression::Primary(name));
        Ok((Node { tree, levels: 0 }, at))
    }

    /// A property of a pattern that is one name (13.3.3).
    #[tactic(auto, unfolding(esb_literal_laws::specs::Bindings::single_name))]
    pub fn single_name(&self, at: usize) -> Reading<Node<Element>>
        ensures { Gives result (bindings.single_name self.now.parser.now.text.now at) }
    {
        let (name, at) = take(self.parser.text, Goal::Div, at)?;
        if !is_binding(name.kind) {
            return Err(Fault::NoTree(name.start));
        }
        let tree = Element::Shorthand(name);
        Ok((Node { tree, levels: 0 }, at))
    }

    /// Whether a property that is one name, or with `=` and a default, stands there.
    #[tactic(auto, unfolding(esb_literal_laws::specs::Bindings::at_single_name))]
    pub fn at_single_name(&self, at: usize) -> bool
        ensures { result ≡ bindings.at_single_name self.now.parser.now.text.now at }
    {
        is_binding(peek(self.parser.text, Goal::Div, at).kind) && stands_alone(self.second(at))
    }

    /// A name, `=`, and its default.
    #[tactic(auto, unfolding(esb_literal_laws::specs::Bindings::initialized_name))]
    pub fn initialized_name(
        &self,
        context: Context,
        levels: usize,
        at: usize,
    ) -> Reading<Node<Element>>
        requires inner { ReadsExpressions R.expression self.now.parser.now.levels (F.pre self.now.parser.now.expression) (F.post self.now.parser.now.expression) }
        requires fits { levels ≤ self.now.parser.now.levels }
        ensures { Gives result (bindings.initialized_name self.now.parser.now.text.now (handed.values R.expression self.now.parser.now.text.now) context levels (bindings.target_below self.now.parser.now.text.now (handed.values R.expression self.now.parser.now.text.now) context levels) at) }
    {
        let (name, at) = take(self.parser.text, Goal::Div, at)?;
        if !is_binding(name.kind) {
            return Err(Fault::NoTree(name.start));
        }
        let (x, at) = self.signed(Kind::Assign, inside(context), levels, at)?;
        let levels = x.levels;
        let (sign, value) = x.tree;
        let tree = Element::Initialized(name, sign, value);
        Ok((Node { tree, levels }, at))
    }
}
