//! Properties of objects that hold no method (ECMA-262, 12.2.6), and what begins a method (14.3).

ghost use Rattle.std.specs.Prelude.{◌≡◌, ◌≤◌};
ghost use Rattle.esb_reader.specs.Reader.{Gives};
ghost use Rattle.esb_inner.specs.Inner.{ReadsExpressions};
ghost use Rattle.esb_literal_laws.specs.Methods as methods;
ghost use Rattle.esb_literal_laws.specs.Objects as objects;
ghost use Rattle.esb_functions.specs.Bodies.{bodies};
ghost use Rattle.esb_literals.specs.Handed as handed;

use crate::parser::Functions;
use esb_base::{List, Text};
use esb_grammar::{Context, is_reference};
use esb_inner::Readers;
use esb_literals::{begins_name, inside, is_accessor, is_async, stands_alone};
use esb_reader::{Fault, Node, Reading, peek, take};
use esb_token::{Goal, Kind};
use esb_tree::{Element, Expression, Statement};
use std::alloc::Global;

impl<
    'a,
    R: Readers,
    F: Fn(Global, &Text, bool, Context, usize, usize) -> Reading<Node<Expression>>,
    S: Fn(Global, &Text, Context, usize, usize) -> Reading<Node<List<Statement>>>,
> Functions<'a, R, F, S> {
    /// `...` and a value.
    #[tactic(auto, unfolding(esb_literal_laws::specs::Objects::spread_properties))]
    pub(crate) fn spread_properties(
        &self,
        context: Context,
        levels: usize,
        at: usize,
    ) -> Reading<Node<Element>>
        requires inner { ReadsExpressions R.expression self.now.parser.now.levels (F.pre self.now.parser.now.expression) (F.post self.now.parser.now.expression) }
        requires fits { levels ≤ self.now.parser.now.levels }
        ensures { Gives result (objects.spread_properties self.now.parser.now.text.now (handed.values R.expression self.now.parser.now.text.now) (bodies R.items self.now.parser.now.text.now) context levels at) }
    {
        let (x, at) = self.signed(Kind::Ellipsis, inside(context), levels, at)?;
        let levels = x.levels;
        let (dots, value) = x.tree;
        let tree = Element::Spread(dots, value);
        Ok((Node { tree, levels }, at))
    }

    /// IdentifierReference as a property.
    #[tactic(auto, unfolding(esb_literal_laws::specs::Objects::shorthand))]
    pub(crate) fn shorthand(&self, context: Context, at: usize) -> Reading<Node<Element>>
        ensures { Gives result (objects.shorthand self.now.parser.now.text.now context at) }
    {
        let (name, at) = take(self.parser.text, Goal::Div, at)?;
        if !is_reference(context, name.kind) {
            return Err(Fault::NoTree(name.start));
        }
        let tree = Element::Shorthand(name);
        Ok((Node { tree, levels: 0 }, at))
    }

    /// Whether a property that is one name, or with `=` and a default, stands there.
    #[tactic(auto, unfolding(esb_literal_laws::specs::Objects::at_shorthand))]
    pub(crate) fn at_shorthand(&self, context: Context, at: usize) -> bool
        ensures { result ≡ objects.at_shorthand self.now.parser.now.text.now context at }
    {
        is_reference(context, peek(self.parser.text, Goal::Div, at).kind)
            && stands_alone(self.second(at))
    }

    /// CoverInitializedName.
    #[tactic(auto, unfolding(esb_literal_laws::specs::Objects::cover_initialized_name))]
    pub(crate) fn cover_initialized_name(
        &self,
        context: Context,
        levels: usize,
        at: usize,
    ) -> Reading<Node<Element>>
        requires inner { ReadsExpressions R.expression self.now.parser.now.levels (F.pre self.now.parser.now.expression) (F.post self.now.parser.now.expression) }
        requires fits { levels ≤ self.now.parser.now.levels }
        ensures { Gives result (objects.cover_initialized_name self.now.parser.now.text.now (handed.values R.expression self.now.parser.now.text.now) (bodies R.items self.now.parser.now.text.now) context levels at) }
    {
        let (name, at) = take(self.parser.text, Goal::Div, at)?;
        if !is_reference(context, name.kind) {
            return Err(Fault::NoTree(name.start));
        }
        let (x, at) = self.signed(Kind::Assign, inside(context), levels, at)?;
        let levels = x.levels;
        let (sign, value) = x.tree;
        let tree = Element::Initialized(name, sign, value);
        Ok((Node { tree, levels }, at))
    }

    /// Whether a method with a word before its name stands there.
    #[tactic(auto, unfolding(esb_literal_laws::specs::Methods::at_word))]
    pub(crate) fn at_word(&self, at: usize) -> bool
        ensures { result ≡ methods.at_word self.now.parser.now.text.now at }
    {
        let token = peek(self.parser.text, Goal::Div, at);
        (is_async(self.parser.text, token) || is_accessor(self.parser.text, token))
            && begins_name(self.second(at))
    }
}
