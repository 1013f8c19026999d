//! Methods (ECMA-262, 14.1, 14.3 to 14.5, 14.7).

ghost use Rattle.std.specs.Prelude.{◌≡◌, ◌≤◌};
ghost use Rattle.esb_reader.specs.Reader.{Gives};
ghost use Rattle.esb_inner.specs.Inner.{ReadsExpressions, ReadsItems};
ghost use Rattle.esb_functions.specs.Bodies.{bodies};
ghost use Rattle.esb_literals.specs.Handed as handed;
ghost use Rattle.esb_literal_laws.specs.Methods as methods;

use crate::kinds::function_context;
use crate::made::make_method;
use crate::parser::Functions;
use esb_base::{List, Text};
use esb_grammar::Context;
use esb_inner::Readers;
use esb_literals::{is_accessor, is_async, is_star};
use esb_nodes::with;
use esb_reader::{Fault, Node, Reading, expect, peek, take};
use esb_token::{Goal, Kind};
use esb_tree::{Block, Bracketed, Expression, Method, PropertyName, Statement};
use std::alloc::Global;

impl<
    'a,
    R: Readers,
    F: Fn(Global, &Text, bool, Context, usize, usize) -> Reading<Node<Expression>>,
    S: Fn(Global, &Text, Context, usize, usize) -> Reading<Node<List<Statement>>>,
> Functions<'a, R, F, S> {
    /// A name in the one context, and parameters and a body in the other.
    #[tactic(auto, unfolding(esb_literal_laws::specs::Methods::definition))]
    fn definition(
        &self,
        context: Context,
        own: Context,
        levels: usize,
        at: usize,
    ) -> Reading<Node<(PropertyName, (Bracketed, Block))>>
        requires inner { ReadsExpressions R.expression self.now.parser.now.levels (F.pre self.now.parser.now.expression) (F.post self.now.parser.now.expression) }
        requires items { ReadsItems R.items self.now.parser.now.levels (S.pre self.now.parser.now.items) (S.post self.now.parser.now.items) }
        requires fits { levels ≤ self.now.parser.now.levels }
        ensures { Gives result (methods.definition self.now.parser.now.text.now (handed.values R.expression self.now.parser.now.text.now) (bodies R.items self.now.parser.now.text.now) context own levels at) }
    {
        let (name, at) = self.property_name(context, levels, at)?;
        let (name, (rest, at)) = with(name, self.signature(own, levels, at))?;
        let levels = name.levels.max(rest.levels);
        let tree = (name.tree, rest.tree);
        Ok((Node { tree, levels }, at))
    }

    /// A method without a word.
    #[tactic(auto, unfolding(esb_literal_laws::specs::Methods::plain_method))]
    fn plain_method(&self, context: Context, levels: usize, at: usize) -> Reading<Node<Method>>
        requires inner { ReadsExpressions R.expression self.now.parser.now.levels (F.pre self.now.parser.now.expression) (F.post self.now.parser.now.expression) }
        requires items { ReadsItems R.items self.now.parser.now.levels (S.pre self.now.parser.now.items) (S.post self.now.parser.now.items) }
        requires fits { levels ≤ self.now.parser.now.levels }
        ensures { Gives result (methods.plain_method self.now.parser.now.text.now (handed.values R.expression self.now.parser.now.text.now) (bodies R.items self.now.parser.now.text.now) context levels at) }
    {
        let (rest, at) = self.definition(context, function_context(false, false), levels, at)?;
        make_method(levels, None, None, rest, at)
    }

    /// GeneratorMethod (14.4).
    #[tactic(auto, unfolding(esb_literal_laws::specs::Methods::generator_method))]
    pub(crate) fn generator_method(
        &self,
        context: Context,
        levels: usize,
        at: usize,
    ) -> Reading<Node<Method>>
        requires inner { ReadsExpressions R.expression self.now.parser.now.levels (F.pre self.now.parser.now.expression) (F.post self.now.parser.now.expression) }
        requires items { ReadsItems R.items self.now.parser.now.levels (S.pre self.now.parser.now.items) (S.post self.now.parser.now.items) }
        requires fits { levels ≤ self.now.parser.now.levels }
        ensures { Gives result (methods.generator_method self.now.parser.now.text.now (handed.values R.expression self.now.parser.now.text.now) (bodies R.items self.now.parser.now.text.now) context levels at) }
    {
        let (star, at) = expect(self.parser.text, Kind::Star, at)?;
        let (rest, at) = self.definition(context, function_context(false, true), levels, at)?;
        make_method(levels, None, Some(star), rest, at)
    }

    /// A getter or a setter.
    #[tactic(auto, unfolding(esb_literal_laws::specs::Methods::accessor))]
    fn accessor(&self, context: Context, levels: usize, at: usize) -> Reading<Node<Method>>
        requires inner { ReadsExpressions R.expression self.now.parser.now.levels (F.pre self.now.parser.now.expression) (F.post self.now.parser.now.expression) }
        requires items { ReadsItems R.items self.now.parser.now.levels (S.pre self.now.parser.now.items) (S.post self.now.parser.now.items) }
        requires fits { levels ≤ self.now.parser.now.levels }
        ensures { Gives result (methods.accessor self.now.parser.now.text.now (handed.values R.expression self.now.parser.now.text.now) (bodies R.items self.now.parser.now.text.now) context levels at) }
    {
        let (word, at) = take(self.parser.text, Goal::Div, at)?;
        if !is_accessor(self.parser.text, word) {
            return Err(Fault::NoTree(word.start));
        }
        let (rest, at) = self.definition(context, function_context(false, false), levels, at)?;
        make_method(levels, Some(word), None, rest, at)
    }

    /// AsyncMethod (14.7).
    #[tactic(auto, unfolding(esb_literal_laws::specs::Methods::async_method))]
    fn async_method(&self, context: Context, levels: usize, at: usize) -> Reading<Node<Method>>
        requires inner { ReadsExpressions R.expression self.now.parser.now.levels (F.pre self.now.parser.now.expression) (F.post self.now.parser.now.expression) }
        requires items { ReadsItems R.items self.now.parser.now.levels (S.pre self.now.parser.now.items) (S.post self.now.parser.now.items) }
        requires fits { levels ≤ self.now.parser.now.levels }
        ensures { Gives result (methods.async_method self.now.parser.now.text.now (handed.values R.expression self.now.parser.now.text.now) (bodies R.items self.now.parser.now.text.now) context levels at) }
    {
        let (word, at) = take(self.parser.text, Goal::Div, at)?;
        if !is_async(self.parser.text, word) || !self.on_one_line(at) {
            return Err(Fault::NoTree(word.start));
        }
        let (rest, at) = self.definition(context, function_context(true, false), levels, at)?;
        make_method(levels, Some(word), None, rest, at)
    }

    /// AsyncGeneratorMethod (14.5).
    #[tactic(auto, unfolding(esb_literal_laws::specs::Methods::async_generator_method))]
    fn async_generator_method(
        &self,
        context: Context,
        levels: usize,
        at: usize,
    ) -> Reading<Node<Method>>
        requires inner { ReadsExpressions R.expression self.now.parser.now.levels (F.pre self.now.parser.now.expression) (F.post self.now.parser.now.expression) }
        requires items { ReadsItems R.items self.now.parser.now.levels (S.pre self.now.parser.now.items) (S.post self.now.parser.now.items) }
        requires fits { levels ≤ self.now.parser.now.levels }
        ensures { Gives result (methods.async_generator_method self.now.parser.now.text.now (handed.values R.expression self.now.parser.now.text.now) (bodies R.items self.now.parser.now.text.now) context levels at) }
    {
        let (word, at) = take(self.parser.text, Goal::Div, at)?;
        if !is_async(self.parser.text, word) || !self.on_one_line(at) {
            return Err(Fault::NoTree(word.start));
        }
        let (star, at) = expect(self.parser.text, Kind::Star, at)?;
        let (rest, at) = self.definition(context, function_context(true, true), levels, at)?;
        make_method(levels, Some(word), Some(star), rest, at)
    }

    /// A method with a word before its name.
    #[tactic(auto, unfolding(esb_literal_laws::specs::Methods::worded_method))]
    pub(crate) fn worded_method(
        &self,
        context: Context,
        levels: usize,
        at: usize,
    ) -> Reading<Node<Method>>
        requires inner { ReadsExpressions R.expression self.now.parser.now.levels (F.pre self.now.parser.now.expression) (F.post self.now.parser.now.expression) }
        requires items { ReadsItems R.items self.now.parser.now.levels (S.pre self.now.parser.now.items) (S.post self.now.parser.now.items) }
        requires fits { levels ≤ self.now.parser.now.levels }
        ensures { Gives result (methods.worded_method self.now.parser.now.text.now (handed.values R.expression self.now.parser.now.text.now) (bodies R.items self.now.parser.now.text.now) context levels at) }
    {
        if !is_async(self.parser.text, peek(self.parser.text, Goal::Div, at)) {
            return self.accessor(context, levels, at);
        }
        if is_star(self.second(at).kind) {
            return self.async_generator_method(context, levels, at);
        }
        self.async_method(context, levels, at)
    }

    /// MethodDefinition (14.3). What stands in it has fewer than `levels`.
    #[tactic(auto, unfolding(esb_literal_laws::specs::Methods::method))]
    pub fn method(&self, context: Context, levels: usize, at: usize) -> Reading<Node<Method>>
        requires inner { ReadsExpressions R.expression self.now.parser.now.levels (F.pre self.now.parser.now.expression) (F.post self.now.parser.now.expression) }
        requires items { ReadsItems R.items self.now.parser.now.levels (S.pre self.now.parser.now.items) (S.post self.now.parser.now.items) }
        requires fits { levels ≤ self.now.parser.now.levels }
        ensures { Gives result (methods.method self.now.parser.now.text.now (handed.values R.expression self.now.parser.now.text.now) (bodies R.items self.now.parser.now.text.now) context levels at) }
    {
        if self.at_word(at) {
            return self.worded_method(context, levels, at);
        }
        if is_star(peek(self.parser.text, Goal::Div, at).kind) {
            return self.generator_method(context, levels, at);
        }
        self.plain_method(context, levels, at)
    }
}
