//! Object literals (ECMA-262, 12.2.6).

ghost use Rattle.std.specs.Prelude.{◌≡◌, ◌≤◌};
ghost use Rattle.esb_reader.specs.Reader.{Gives};
ghost use Rattle.esb_inner.specs.Inner.{ReadsExpressions, ReadsItems};
ghost use Rattle.esb_functions.specs.Bodies.{bodies};
ghost use Rattle.esb_literals.specs.Handed as handed;
ghost use Rattle.esb_literal_laws.specs.ElementLists as any;
ghost use Rattle.esb_literal_laws.specs.Objects as objects;
ghost use Rattle.esb_functions.specs.Definitions as definitions;

use crate::kinds::function_context;
use crate::made::{make_method, make_method_property};
use crate::parser::Functions;
use esb_base::{List, Text};
use esb_grammar::{Context, Form};
use esb_inner::Readers;
use esb_literals::{
    ends_element, inside, is_assign, is_colon, is_comma, is_dots, is_star, make_list, make_property,
};
use esb_nodes::{Listed, with};
use esb_reader::{Fault, Node, Reading, expect, peek};
use esb_token::{Goal, Kind};
use esb_tree::{Bracketed, Element, Elements, Expression, NextElement, PropertyName, Statement};
use std::alloc::Global;

impl<
    'a,
    R: Readers,
    F: Fn(Global, &Text, bool, Context, usize, usize) -> Reading<Node<Expression>>,
    S: Fn(Global, &Text, Context, usize, usize) -> Reading<Node<List<Statement>>>,
> Functions<'a, R, F, S> {
    /// A method whose name was read.
    fn method_behind(
        &self,
        name: Node<PropertyName>,
        levels: usize,
        at: usize,
    ) -> Reading<Node<Element>>
        requires inner { ReadsExpressions R.expression self.now.parser.now.levels (F.pre self.now.parser.now.expression) (F.post self.now.parser.now.expression) }
        requires items { ReadsItems R.items self.now.parser.now.levels (S.pre self.now.parser.now.items) (S.post self.now.parser.now.items) }
        requires fits { levels ≤ self.now.parser.now.levels }
        ensures { Gives result (definitions.method_behind self.now.parser.now.text.now (handed.values R.expression self.now.parser.now.text.now) (bodies R.items self.now.parser.now.text.now) name levels at) }
    {
        let own = function_context(false, false);
        let (name, (rest, at)) = with(name, self.signature(own, levels, at))?;
        let deepest = name.levels.max(rest.levels);
        let tree = (name.tree, rest.tree);
        let definition = Node {
            tree,
            levels: deepest,
        };
        let (method, at) = make_method(levels, None, None, definition, at)?;
        make_method_property(self.parser.alloc, method, at)
    }

    /// A name, and behind it `:` and a value, or a method.
    #[tactic(auto, unfolding(esb_literal_laws::specs::Objects::named_property, esb_literal_laws::specs::Objects::property, esb_literal_laws::specs::Methods::plain_method, esb_literal_laws::specs::Methods::definition))]
    fn named_property(&self, context: Context, levels: usize, at: usize) -> Reading<Node<Element>>
        requires inner { ReadsExpressions R.expression self.now.parser.now.levels (F.pre self.now.parser.now.expression) (F.post self.now.parser.now.expression) }
        requires items { ReadsItems R.items self.now.parser.now.levels (S.pre self.now.parser.now.items) (S.post self.now.parser.now.items) }
        requires fits { levels ≤ self.now.parser.now.levels }
        ensures { Gives result (objects.named_property self.now.parser.now.text.now (handed.values R.expression self.now.parser.now.text.now) (bodies R.items self.now.parser.now.text.now) context levels at) }
    {
        let (name, at) = self.property_name(context, levels, at)?;
        if !is_colon(peek(self.parser.text, Goal::Div, at).kind) {
            return self.method_behind(name, levels, at);
        }
        let (name, (x, at)) = with(name, self.signed(Kind::Colon, inside(context), levels, at))?;
        Ok((make_property(name, x), at))
    }

    /// A property that begins with neither `...` nor a name alone.
    fn unnamed_property(&self, context: Context, levels: usize, at: usize) -> Reading<Node<Element>>
        requires inner { ReadsExpressions R.expression self.now.parser.now.levels (F.pre self.now.parser.now.expression) (F.post self.now.parser.now.expression) }
        requires items { ReadsItems R.items self.now.parser.now.levels (S.pre self.now.parser.now.items) (S.post self.now.parser.now.items) }
        requires fits { levels ≤ self.now.parser.now.levels }
        ensures { Gives result (definitions.unnamed_property self.now.parser.now.text.now (handed.values R.expression self.now.parser.now.text.now) (bodies R.items self.now.parser.now.text.now) context levels at) }
    {
        if self.at_word(at) {
            let (method, at) = self.worded_method(context, levels, at)?;
            return make_method_property(self.parser.alloc, method, at);
        }
        if is_star(peek(self.parser.text, Goal::Div, at).kind) {
            let (method, at) = self.generator_method(context, levels, at)?;
            return make_method_property(self.parser.alloc, method, at);
        }
        self.named_property(context, levels, at)
    }

    /// What stands between two commas of an object.
    #[tactic(auto, unfolding(esb_literal_laws::specs::Objects::object_slot, esb_literal_laws::specs::Objects::property_definition))]
    fn object_slot(&self, context: Context, levels: usize, at: usize) -> Reading<Node<Element>>
        requires inner { ReadsExpressions R.expression self.now.parser.now.levels (F.pre self.now.parser.now.expression) (F.post self.now.parser.now.expression) }
        requires items { ReadsItems R.items self.now.parser.now.levels (S.pre self.now.parser.now.items) (S.post self.now.parser.now.items) }
        requires fits { levels ≤ self.now.parser.now.levels }
        ensures { Gives result (objects.object_slot self.now.parser.now.text.now (handed.values R.expression self.now.parser.now.text.now) (bodies R.items self.now.parser.now.text.now) context levels at) }
    {
        let token = peek(self.parser.text, Goal::Div, at);
        if ends_element(token) {
            let tree = Element::Hole;
            return Ok((Node { tree, levels: 0 }, at));
        }
        if is_dots(token.kind) {
            return self.spread_properties(context, levels, at);
        }
        if !self.at_shorthand(context, at) {
            return self.unnamed_property(context, levels, at);
        }
        if is_assign(self.second(at).kind) {
            return self.cover_initialized_name(context, levels, at);
        }
        self.shorthand(context, at)
    }

    /// A comma, and what stands behind it.
    #[tactic(auto, unfolding(esb_literal_laws::specs::ElementLists::next_of))]
    fn next_property(
        &self,
        context: Context,
        levels: usize,
        at: usize,
    ) -> Reading<Node<NextElement>>
        requires inner { ReadsExpressions R.expression self.now.parser.now.levels (F.pre self.now.parser.now.expression) (F.post self.now.parser.now.expression) }
        requires items { ReadsItems R.items self.now.parser.now.levels (S.pre self.now.parser.now.items) (S.post self.now.parser.now.items) }
        requires fits { levels ≤ self.now.parser.now.levels }
        ensures { Gives result (any.next_of self.now.parser.now.text.now (objects.object_slot self.now.parser.now.text.now (handed.values R.expression self.now.parser.now.text.now) (bodies R.items self.now.parser.now.text.now) context levels) at) }
    {
        let (comma, at) = expect(self.parser.text, Kind::Comma, at)?;
        let (x, at) = self.object_slot(context, levels, at)?;
        let levels = x.levels;
        let element = x.tree;
        let tree = NextElement { comma, element };
        Ok((Node { tree, levels }, at))
    }

    /// The properties behind the first.
    #[tactic(auto, unfolding(esb_literal_laws::specs::ElementLists::nexts_of, esb_reader::specs::Reader::repeated))]
    fn next_properties(
        &self,
        context: Context,
        levels: usize,
        start: usize,
    ) -> Reading<Node<List<NextElement>>>
        requires inner { ReadsExpressions R.expression self.now.parser.now.levels (F.pre self.now.parser.now.expression) (F.post self.now.parser.now.expression) }
        requires items { ReadsItems R.items self.now.parser.now.levels (S.pre self.now.parser.now.items) (S.post self.now.parser.now.items) }
        requires fits { levels ≤ self.now.parser.now.levels }
        ensures { Gives result (any.nexts_of self.now.parser.now.text.now (objects.object_slot self.now.parser.now.text.now (handed.values R.expression self.now.parser.now.text.now) (bodies R.items self.now.parser.now.text.now) context levels) start) }
    {
        let mut at = start;
        let mut tree = List::new(self.parser.alloc);
        let mut deepest = 0;
        for _turn in 0..self.parser.text.as_bytes().len() {
            if !is_comma(peek(self.parser.text, Goal::Div, at).kind) {
                return Ok((
                    Node {
                        tree,
                        levels: deepest,
                    },
                    at,
                ));
            }
            let (list, (next, end)) = with(tree, self.next_property(context, levels, at))?;
            deepest = deepest.max(next.levels);
            tree = next.tree.added_to(list)?;
            at = end;
        }
        Ok((
            Node {
                tree,
                levels: deepest,
            },
            at,
        ))
    }

    /// The properties of an object.
    #[tactic(auto, unfolding(esb_literal_laws::specs::ElementLists::list_of))]
    fn properties(&self, context: Context, levels: usize, at: usize) -> Reading<Node<Elements>>
        requires inner { ReadsExpressions R.expression self.now.parser.now.levels (F.pre self.now.parser.now.expression) (F.post self.now.parser.now.expression) }
        requires items { ReadsItems R.items self.now.parser.now.levels (S.pre self.now.parser.now.items) (S.post self.now.parser.now.items) }
        requires fits { levels ≤ self.now.parser.now.levels }
        ensures { Gives result (definitions.properties self.now.parser.now.text.now (handed.values R.expression self.now.parser.now.text.now) (bodies R.items self.now.parser.now.text.now) context levels at) }
    {
        let (first, end) = self.object_slot(context, levels, at)?;
        let (first, (rest, end)) = with(first, self.next_properties(context, levels, end))?;
        match make_list(Form::Object, first, rest) {
            Some(list) => Ok((list, end)),
            None => Err(Fault::NoTree(at)),
        }
    }

    /// ObjectLiteral (12.2.6). Its properties have fewer than `levels`.
    #[tactic(auto, unfolding(esb_literal_laws::specs::Objects::object, esb_literal_laws::specs::ElementLists::bracketed_of))]
    pub fn object(&self, context: Context, levels: usize, at: usize) -> Reading<Node<Bracketed>>
        requires inner { ReadsExpressions R.expression self.now.parser.now.levels (F.pre self.now.parser.now.expression) (F.post self.now.parser.now.expression) }
        requires items { ReadsItems R.items self.now.parser.now.levels (S.pre self.now.parser.now.items) (S.post self.now.parser.now.items) }
        requires fits { levels ≤ self.now.parser.now.levels }
        ensures { Gives result (objects.object self.now.parser.now.text.now (handed.values R.expression self.now.parser.now.text.now) (bodies R.items self.now.parser.now.text.now) context levels at) }
    {
        let (begin, at) = expect(self.parser.text, Kind::LeftBrace, at)?;
        let (list, at) = self.properties(context, levels, at)?;
        let (list, (ending, at)) = with(list, expect(self.parser.text, Kind::RightBrace, at))?;
        let levels = list.levels;
        let list = list.tree;
        let tree = Bracketed {
            begin,
            list,
            ending,
        };
        Ok((Node { tree, levels }, at))
    }
}
