//! Functions (ECMA-262, 14.1, 14.4, 14.5, 14.7), and what methods have in common with them.

ghost use Rattle.std.specs.Prelude.{◌≡◌, ◌≤◌};
ghost use Rattle.esb_reader.specs.Reader.{Gives};
ghost use Rattle.esb_reader.specs.Parts as parts;
ghost use Rattle.esb_inner.specs.Inner.{ReadsExpressions, ReadsItems};
ghost use Rattle.esb_functions.specs.Bodies.{bodies};
ghost use Rattle.esb_literals.specs.Handed as handed;
ghost use Rattle.esb_literal_laws.specs.Bindings as bindings;
ghost use Rattle.esb_literal_laws.specs.Functions as functions;
ghost use Rattle.esb_literal_laws.specs.Methods as methods;

use crate::kinds::function_context;
use crate::made::make_function;
use crate::parser::Functions;
use esb_base::{List, Text};
use esb_grammar::{Context, is_binding};
use esb_inner::Readers;
use esb_literals::{is_async, is_star};
use esb_nodes::with;
use esb_reader::{Fault, Node, Reading, expect, peek, take};
use esb_token::{Goal, Kind, Token};
use esb_tree::{Block, Bracketed, Expression, Function, Statement};
use std::alloc::Global;

impl<
    'a,
    R: Readers,
    F: Fn(Global, &Text, bool, Context, usize, usize) -> Reading<Node<Expression>>,
    S: Fn(Global, &Text, Context, usize, usize) -> Reading<Node<List<Statement>>>,
> Functions<'a, R, F, S> {
    /// FunctionBody in its braces (14.1).
    #[tactic(auto, unfolding(esb_literal_laws::specs::Methods::block))]
    pub fn block(&self, context: Context, levels: usize, at: usize) -> Reading<Node<Block>>
        requires items { ReadsItems R.items self.now.parser.now.levels (S.pre self.now.parser.now.items) (S.post self.now.parser.now.items) }
        requires fits { levels ≤ self.now.parser.now.levels }
        ensures { Gives result (methods.block self.now.parser.now.text.now (handed.values R.expression self.now.parser.now.text.now) (bodies R.items self.now.parser.now.text.now) context levels at) }
    {
        let (begin, at) = expect(self.parser.text, Kind::LeftBrace, at)?;
        let (body, at) = self.items(context, levels, at)?;
        let (body, (ending, at)) = with(body, expect(self.parser.text, Kind::RightBrace, at))?;
        let levels = body.levels;
        let body = body.tree;
        let tree = Block {
            begin,
            body,
            ending,
        };
        Ok((Node { tree, levels }, at))
    }

    /// Parameters and a body.
    pub(crate) fn signature(
        &self,
        context: Context,
        levels: usize,
        at: usize,
    ) -> Reading<Node<(Bracketed, Block)>>
        requires inner { ReadsExpressions R.expression self.now.parser.now.levels (F.pre self.now.parser.now.expression) (F.post self.now.parser.now.expression) }
        requires items { ReadsItems R.items self.now.parser.now.levels (S.pre self.now.parser.now.items) (S.post self.now.parser.now.items) }
        requires fits { levels ≤ self.now.parser.now.levels }
        ensures { Gives result (parts.both (bindings.parameters self.now.parser.now.text.now (handed.values R.expression self.now.parser.now.text.now) context levels) (methods.block self.now.parser.now.text.now (handed.values R.expression self.now.parser.now.text.now) (bodies R.items self.now.parser.now.text.now) context levels) at) }
    {
        let (parameters, at) = self.parameters(context, levels, at)?;
        let (parameters, (body, at)) = with(parameters, self.block(context, levels, at))?;
        let levels = parameters.levels.max(body.levels);
        let tree = (parameters.tree, body.tree);
        Ok((Node { tree, levels }, at))
    }

    /// A name where it has to be there, and else one that may be absent.
    #[tactic(auto, unfolding(esb_literal_laws::specs::Functions::own_name))]
    pub(crate) fn own_name(&self, is_named: bool, at: usize) -> Reading<Node<Option<Token>>>
        ensures { Gives result (functions.own_name self.now.parser.now.text.now is_named at) }
    {
        if !is_named && !is_binding(peek(self.parser.text, Goal::Div, at).kind) {
            return Ok((
                Node {
                    tree: None,
                    levels: 0,
                },
                at,
            ));
        }
        let (name, at) = take(self.parser.text, Goal::Div, at)?;
        if !is_binding(name.kind) {
            return Err(Fault::NoTree(name.start));
        }
        let tree = Some(name);
        Ok((Node { tree, levels: 0 }, at))
    }

    /// A name that may be absent, parameters and a body.
    #[tactic(auto, unfolding(esb_literal_laws::specs::Functions::function_rest))]
    fn function_rest(
        &self,
        is_named: bool,
        own: Context,
        levels: usize,
        at: usize,
    ) -> Reading<Node<(Option<Token>, (Bracketed, Block))>>
        requires inner { ReadsExpressions R.expression self.now.parser.now.levels (F.pre self.now.parser.now.expression) (F.post self.now.parser.now.expression) }
        requires items { ReadsItems R.items self.now.parser.now.levels (S.pre self.now.parser.now.items) (S.post self.now.parser.now.items) }
        requires fits { levels ≤ self.now.parser.now.levels }
        ensures { Gives result (functions.function_rest self.now.parser.now.text.now (handed.values R.expression self.now.parser.now.text.now) (bodies R.items self.now.parser.now.text.now) is_named own levels at) }
    {
        let (name, at) = self.own_name(is_named, at)?;
        let (rest, at) = self.signature(own, levels, at)?;
        let levels = name.levels.max(rest.levels);
        let tree = (name.tree, rest.tree);
        Ok((Node { tree, levels }, at))
    }

    /// FunctionExpression or FunctionDeclaration (14.1).
    #[tactic(auto, unfolding(esb_literal_laws::specs::Functions::plain_function))]
    fn plain_function(&self, is_named: bool, levels: usize, at: usize) -> Reading<Node<Function>>
        requires inner { ReadsExpressions R.expression self.now.parser.now.levels (F.pre self.now.parser.now.expression) (F.post self.now.parser.now.expression) }
        requires items { ReadsItems R.items self.now.parser.now.levels (S.pre self.now.parser.now.items) (S.post self.now.parser.now.items) }
        requires fits { levels ≤ self.now.parser.now.levels }
        ensures { Gives result (functions.plain_function self.now.parser.now.text.now (handed.values R.expression self.now.parser.now.text.now) (bodies R.items self.now.parser.now.text.now) is_named levels at) }
    {
        let (word, at) = expect(self.parser.text, Kind::Function, at)?;
        let (rest, at) = self.function_rest(is_named, function_context(false, false), levels, at)?;
        Ok((make_function(None, word, None, rest), at))
    }

    /// GeneratorExpression or GeneratorDeclaration (14.4).
    #[tactic(auto, unfolding(esb_literal_laws::specs::Functions::generator_function))]
    fn generator_function(
        &self,
        is_named: bool,
        levels: usize,
        at: usize,
    ) -> Reading<Node<Function>>
        requires inner { ReadsExpressions R.expression self.now.parser.now.levels (F.pre self.now.parser.now.expression) (F.post self.now.parser.now.expression) }
        requires items { ReadsItems R.items self.now.parser.now.levels (S.pre self.now.parser.now.items) (S.post self.now.parser.now.items) }
        requires fits { levels ≤ self.now.parser.now.levels }
        ensures { Gives result (functions.generator_function self.now.parser.now.text.now (handed.values R.expression self.now.parser.now.text.now) (bodies R.items self.now.parser.now.text.now) is_named levels at) }
    {
        let (word, at) = expect(self.parser.text, Kind::Function, at)?;
        let (star, at) = expect(self.parser.text, Kind::Star, at)?;
        let (rest, at) = self.function_rest(is_named, function_context(false, true), levels, at)?;
        Ok((make_function(None, word, Some(star), rest), at))
    }

    /// AsyncFunctionExpression or AsyncFunctionDeclaration (14.7).
    #[tactic(auto, unfolding(esb_literal_laws::specs::Functions::async_function))]
    fn async_function(&self, is_named: bool, levels: usize, at: usize) -> Reading<Node<Function>>
        requires inner { ReadsExpressions R.expression self.now.parser.now.levels (F.pre self.now.parser.now.expression) (F.post self.now.parser.now.expression) }
        requires items { ReadsItems R.items self.now.parser.now.levels (S.pre self.now.parser.now.items) (S.post self.now.parser.now.items) }
        requires fits { levels ≤ self.now.parser.now.levels }
        ensures { Gives result (functions.async_function self.now.parser.now.text.now (handed.values R.expression self.now.parser.now.text.now) (bodies R.items self.now.parser.now.text.now) is_named levels at) }
    {
        let (first, at) = take(self.parser.text, Goal::Div, at)?;
        if !is_async(self.parser.text, first) || !self.on_one_line(at) {
            return Err(Fault::NoTree(first.start));
        }
        let (word, at) = expect(self.parser.text, Kind::Function, at)?;
        let (rest, at) = self.function_rest(is_named, function_context(true, false), levels, at)?;
        Ok((make_function(Some(first), word, None, rest), at))
    }

    /// AsyncGeneratorExpression or AsyncGeneratorDeclaration (14.5).
    #[tactic(auto, unfolding(esb_literal_laws::specs::Functions::async_generator_function))]
    fn async_generator_function(
        &self,
        is_named: bool,
        levels: usize,
        at: usize,
    ) -> Reading<Node<Function>>
        requires inner { ReadsExpressions R.expression self.now.parser.now.levels (F.pre self.now.parser.now.expression) (F.post self.now.parser.now.expression) }
        requires items { ReadsItems R.items self.now.parser.now.levels (S.pre self.now.parser.now.items) (S.post self.now.parser.now.items) }
        requires fits { levels ≤ self.now.parser.now.levels }
        ensures { Gives result (functions.async_generator_function self.now.parser.now.text.now (handed.values R.expression self.now.parser.now.text.now) (bodies R.items self.now.parser.now.text.now) is_named levels at) }
    {
        let (first, at) = take(self.parser.text, Goal::Div, at)?;
        if !is_async(self.parser.text, first) || !self.on_one_line(at) {
            return Err(Fault::NoTree(first.start));
        }
        let (word, at) = expect(self.parser.text, Kind::Function, at)?;
        let (star, at) = expect(self.parser.text, Kind::Star, at)?;
        let (rest, at) = self.function_rest(is_named, function_context(true, true), levels, at)?;
        Ok((make_function(Some(first), word, Some(star), rest), at))
    }

    /// The token behind the next two.
    fn third(&self, at: usize) -> Token
        ensures { result ≡ functions.third self.now.parser.now.text.now at }
    {
        peek(self.parser.text, Goal::Div, self.second(at).end)
    }

    /// A function by the word `function`, whose name has to be there where the flag says so (14.1, 14.4, 14.5, 14.7). What stands
    /// in it has fewer than `levels`.
    #[tactic(auto, unfolding(esb_literal_laws::specs::Functions::function))]
    pub fn function(&self, is_named: bool, levels: usize, at: usize) -> Reading<Node<Function>>
        requires inner { ReadsExpressions R.expression self.now.parser.now.levels (F.pre self.now.parser.now.expression) (F.post self.now.parser.now.expression) }
        requires items { ReadsItems R.items self.now.parser.now.levels (S.pre self.now.parser.now.items) (S.post self.now.parser.now.items) }
        requires fits { levels ≤ self.now.parser.now.levels }
        ensures { Gives result (functions.function self.now.parser.now.text.now (handed.values R.expression self.now.parser.now.text.now) (bodies R.items self.now.parser.now.text.now) is_named levels at) }
    {
        if is_async(self.parser.text, peek(self.parser.text, Goal::Div, at)) {
            if is_star(self.third(at).kind) {
                return self.async_generator_function(is_named, levels, at);
            }
            return self.async_function(is_named, levels, at);
        }
        if is_star(self.second(at).kind) {
            return self.generator_function(is_named, levels, at);
        }
        self.plain_function(is_named, levels, at)
    }
}
