//! Patterns of bindings, and parameters (ECMA-262, 13.3.3, 14.1). Patterns stand in patterns, so these functions call one
//! another; each pattern has a level fewer than the one around it.

ghost use Rattle.std.specs.Prelude.{◌≡◌, ◌≤◌};
ghost use Rattle.esb_reader.specs.Reader.{Gives};
ghost use Rattle.esb_inner.specs.Inner.{ReadsExpressions};
ghost use Rattle.esb_literal_laws.specs.Bindings as bindings;
ghost use Rattle.esb_literal_laws.specs.ElementLists as any;
ghost use Rattle.esb_literals.specs.Handed as handed;
ghost use Rattle.esb_literals.specs.Pieces as pieces;

use crate::kinds::{
    closer, ends_element, inside, is_assign, is_braced, is_comma, is_dots, is_left_brace,
    is_left_bracket, opener,
};
use crate::literals::Literals;
use crate::places::make_bound_list;
use crate::targets::{make_array, make_object, make_property};
use esb_base::{List, Text};
use esb_grammar::{Context, Form};
use esb_inner::Readers;
use esb_nodes::{Listed, with};
use esb_reader::{Fault, Node, Reading, expect, peek};
use esb_token::{Goal, Kind};
use esb_tree::{Bracketed, Element, Elements, Expression, NextElement, Statement};
use std::alloc::Global;

impl<
    'a,
    R: Readers,
    F: Fn(Global, &Text, bool, Context, usize, usize) -> Reading<Node<Expression>>,
    S: Fn(Global, &Text, Context, usize, usize) -> Reading<Node<List<Statement>>>,
> Literals<'a, R, F, S> {
    /// A name or a pattern within the levels below.
    #[cycle(patterns)]
    #[tactic(auto, unfolding(esb_literal_laws::specs::Bindings::target_below))]
    pub fn target_below(
        &self,
        context: Context,
        levels: usize,
        at: usize,
    ) -> Reading<Node<Expression>>
        requires inner { ReadsExpressions R.expression self.now.parser.now.levels (F.pre self.now.parser.now.expression) (F.post self.now.parser.now.expression) }
        requires fits { levels ≤ self.now.parser.now.levels }
        ensures { Gives result (bindings.target_below self.now.parser.now.text.now (handed.values R.expression self.now.parser.now.text.now) context levels at) }
    {
        if levels == 0 {
            return Err(Fault::NoTree(at));
        }
        self.target(context, levels - 1, at)
    }

    /// BindingElement (13.3.3).
    #[cycle(patterns)]
    #[tactic(auto, unfolding(esb_literal_laws::specs::Bindings::binding_element, esb_literal_laws::specs::Bindings::with_default))]
    fn binding_element(
        &self,
        context: Context,
        levels: usize,
        at: usize,
    ) -> Reading<Node<Expression>>
        requires inner { ReadsExpressions R.expression self.now.parser.now.levels (F.pre self.now.parser.now.expression) (F.post self.now.parser.now.expression) }
        requires fits { levels ≤ self.now.parser.now.levels }
        ensures { Gives result (bindings.binding_element self.now.parser.now.text.now (handed.values R.expression self.now.parser.now.text.now) context levels (bindings.target_below self.now.parser.now.text.now (handed.values R.expression self.now.parser.now.text.now) context levels) at) }
    {
        let (target, at) = self.target_below(context, levels, at)?;
        if !is_assign(peek(self.parser.text, Goal::Div, at).kind) {
            return Ok((target, at));
        }
        self.valued(target, inside(context), levels, at)
    }

    /// What stands between two commas of parameters or of a pattern in brackets.
    #[cycle(patterns)]
    #[tactic(auto, unfolding(esb_literal_laws::specs::Bindings::binding_slot, esb_literal_laws::specs::Bindings::rest_element))]
    fn binding_slot(&self, context: Context, levels: usize, at: usize) -> Reading<Node<Element>>
        requires inner { ReadsExpressions R.expression self.now.parser.now.levels (F.pre self.now.parser.now.expression) (F.post self.now.parser.now.expression) }
        requires fits { levels ≤ self.now.parser.now.levels }
        ensures { Gives result (bindings.binding_slot self.now.parser.now.text.now (handed.values R.expression self.now.parser.now.text.now) context levels (bindings.target_below self.now.parser.now.text.now (handed.values R.expression self.now.parser.now.text.now) context levels) at) }
    {
        let token = peek(self.parser.text, Goal::Div, at);
        if ends_element(token) {
            let tree = Element::Hole;
            return Ok((Node { tree, levels: 0 }, at));
        }
        if is_dots(token.kind) {
            let (dots, at) = expect(self.parser.text, Kind::Ellipsis, at)?;
            let (target, at) = self.target_below(context, levels, at)?;
            let levels = target.levels;
            let tree = Element::Spread(dots, target.tree);
            return Ok((Node { tree, levels }, at));
        }
        let (x, at) = self.binding_element(context, levels, at)?;
        let levels = x.levels;
        let tree = Element::Value(x.tree);
        Ok((Node { tree, levels }, at))
    }

    /// BindingProperty of a name and what is bound (13.3.3).
    #[cycle(patterns)]
    #[tactic(auto, unfolding(esb_literal_laws::specs::Bindings::binding_property))]
    fn binding_property(&self, context: Context, levels: usize, at: usize) -> Reading<Node<Element>>
        requires inner { ReadsExpressions R.expression self.now.parser.now.levels (F.pre self.now.parser.now.expression) (F.post self.now.parser.now.expression) }
        requires fits { levels ≤ self.now.parser.now.levels }
        ensures { Gives result (bindings.binding_property self.now.parser.now.text.now (handed.values R.expression self.now.parser.now.text.now) context levels (bindings.target_below self.now.parser.now.text.now (handed.values R.expression self.now.parser.now.text.now) context levels) at) }
    {
        let (name, at) = self.property_name(context, levels, at)?;
        let (name, (colon, at)) = with(name, expect(self.parser.text, Kind::Colon, at))?;
        let (name, (x, at)) = with(name, self.binding_element(context, levels, at))?;
        let levels = x.levels;
        let tree = (colon, x.tree);
        Ok((make_property(name, Node { tree, levels }), at))
    }

    /// What stands between two commas of a pattern in braces.
    #[cycle(patterns)]
    #[tactic(auto, unfolding(esb_literal_laws::specs::Bindings::property_slot))]
    fn property_slot(&self, context: Context, levels: usize, at: usize) -> Reading<Node<Element>>
        requires inner { ReadsExpressions R.expression self.now.parser.now.levels (F.pre self.now.parser.now.expression) (F.post self.now.parser.now.expression) }
        requires fits { levels ≤ self.now.parser.now.levels }
        ensures { Gives result (bindings.property_slot self.now.parser.now.text.now (handed.values R.expression self.now.parser.now.text.now) context levels (bindings.target_below self.now.parser.now.text.now (handed.values R.expression self.now.parser.now.text.now) context levels) at) }
    {
        let token = peek(self.parser.text, Goal::Div, at);
        if ends_element(token) {
            let tree = Element::Hole;
            return Ok((Node { tree, levels: 0 }, at));
        }
        if is_dots(token.kind) {
            return self.rest_property(at);
        }
        if !self.at_single_name(at) {
            return self.binding_property(context, levels, at);
        }
        if is_assign(self.second(at).kind) {
            return self.initialized_name(context, levels, at);
        }
        self.single_name(at)
    }

    /// What stands between two commas of a list of bindings.
    #[cycle(patterns)]
    #[tactic(auto, unfolding(crate::specs::Pieces::binding_of))]
    fn slot(&self, form: Form, context: Context, levels: usize, at: usize) -> Reading<Node<Element>>
        requires inner { ReadsExpressions R.expression self.now.parser.now.levels (F.pre self.now.parser.now.expression) (F.post self.now.parser.now.expression) }
        requires fits { levels ≤ self.now.parser.now.levels }
        ensures { Gives result (pieces.binding_of self.now.parser.now.text.now R.expression form context levels at) }
    {
        if is_braced(form) {
            return self.property_slot(context, levels, at);
        }
        self.binding_slot(context, levels, at)
    }

    /// A comma, and what stands behind it.
    #[cycle(patterns)]
    #[tactic(auto, unfolding(esb_literal_laws::specs::ElementLists::next_of))]
    fn next_slot(
        &self,
        form: Form,
        context: Context,
        levels: usize,
        at: usize,
    ) -> Reading<Node<NextElement>>
        requires inner { ReadsExpressions R.expression self.now.parser.now.levels (F.pre self.now.parser.now.expression) (F.post self.now.parser.now.expression) }
        requires fits { levels ≤ self.now.parser.now.levels }
        ensures { Gives result (any.next_of self.now.parser.now.text.now (pieces.binding_of self.now.parser.now.text.now R.expression form context levels) at) }
    {
        let (comma, at) = expect(self.parser.text, Kind::Comma, at)?;
        let (x, at) = self.slot(form, context, levels, at)?;
        let levels = x.levels;
        let element = x.tree;
        let tree = NextElement { comma, element };
        Ok((Node { tree, levels }, at))
    }

    /// The bindings behind the first.
    #[cycle(patterns)]
    #[tactic(auto, unfolding(esb_literal_laws::specs::ElementLists::nexts_of, esb_reader::specs::Reader::repeated))]
    fn next_slots(
        &self,
        form: Form,
        context: Context,
        levels: usize,
        start: usize,
    ) -> Reading<Node<List<NextElement>>>
        requires inner { ReadsExpressions R.expression self.now.parser.now.levels (F.pre self.now.parser.now.expression) (F.post self.now.parser.now.expression) }
        requires fits { levels ≤ self.now.parser.now.levels }
        ensures { Gives result (any.nexts_of self.now.parser.now.text.now (pieces.binding_of self.now.parser.now.text.now R.expression form context levels) start) }
    {
        let mut at = start;
        let mut tree = List::new(self.parser.alloc);
        let mut deepest = 0;
        for _turn in 0..self.parser.text.as_bytes().len() {
            if !is_comma(peek(self.parser.text, Goal::Div, at).kind) {
                return Ok((
                    Node {
                        tree,
                        levels: deepest,
                    },
                    at,
                ));
            }
            let (list, (next, end)) = with(tree, self.next_slot(form, context, levels, at))?;
            deepest = deepest.max(next.levels);
            tree = next.tree.added_to(list)?;
            at = end;
        }
        Ok((
            Node {
                tree,
                levels: deepest,
            },
            at,
        ))
    }

    /// The bindings of a list, where a rest is the last.
    #[cycle(patterns)]
    #[tactic(auto, unfolding(esb_literal_laws::specs::ElementLists::list_of))]
    fn slots(
        &self,
        form: Form,
        context: Context,
        levels: usize,
        at: usize,
    ) -> Reading<Node<Elements>>
        requires inner { ReadsExpressions R.expression self.now.parser.now.levels (F.pre self.now.parser.now.expression) (F.post self.now.parser.now.expression) }
        requires fits { levels ≤ self.now.parser.now.levels }
        ensures { Gives result (any.list_of self.now.parser.now.text.now (pieces.binding_of self.now.parser.now.text.now R.expression form context levels) (bindings.bindings_fit form) at) }
    {
        let (first, end) = self.slot(form, context, levels, at)?;
        let (first, (rest, end)) = with(first, self.next_slots(form, context, levels, end))?;
        match make_bound_list(form, first, rest) {
            Some(list) => Ok((list, end)),
            None => Err(Fault::NoTree(at)),
        }
    }

    /// A list of bindings in its brackets.
    #[cycle(patterns)]
    #[tactic(auto, unfolding(esb_literal_laws::specs::ElementLists::bracketed_of))]
    fn bound_list(
        &self,
        form: Form,
        context: Context,
        levels: usize,
        at: usize,
    ) -> Reading<Node<Bracketed>>
        requires inner { ReadsExpressions R.expression self.now.parser.now.levels (F.pre self.now.parser.now.expression) (F.post self.now.parser.now.expression) }
        requires fits { levels ≤ self.now.parser.now.levels }
        ensures { Gives result (any.bracketed_of self.now.parser.now.text.now (pieces.binding_of self.now.parser.now.text.now R.expression form context levels) form (bindings.bindings_fit form) at) }
    {
        let (begin, at) = expect(self.parser.text, opener(form), at)?;
        let (list, at) = self.slots(form, context, levels, at)?;
        let (list, (ending, at)) = with(list, expect(self.parser.text, closer(form), at))?;
        let levels = list.levels;
        let list = list.tree;
        let tree = Bracketed {
            begin,
            list,
            ending,
        };
        Ok((Node { tree, levels }, at))
    }

    /// BindingIdentifier or BindingPattern (12.1, 13.3.3) within a number of levels.
    #[cycle(patterns)]
    #[tactic(auto, using(crate::proofs::Same::target_same))]
    pub fn target(&self, context: Context, levels: usize, at: usize) -> Reading<Node<Expression>>
        requires inner { ReadsExpressions R.expression self.now.parser.now.levels (F.pre self.now.parser.now.expression) (F.post self.now.parser.now.expression) }
        requires fits { levels ≤ self.now.parser.now.levels }
        ensures { Gives result (bindings.target self.now.parser.now.text.now (handed.values R.expression self.now.parser.now.text.now) context levels at) }
    {
        let kind = peek(self.parser.text, Goal::Div, at).kind;
        if is_left_bracket(kind) {
            let (list, at) = self.bound_list(Form::ArrayPattern, context, levels, at)?;
            return make_array(self.parser.alloc, levels, list, at);
        }
        if is_left_brace(kind) {
            let (list, at) = self.bound_list(Form::ObjectPattern, context, levels, at)?;
            return make_object(self.parser.alloc, levels, list, at);
        }
        self.bound_name(at)
    }

    /// FormalParameters in their parentheses (14.1). What stands in them has fewer than `levels`.
    #[tactic(auto, using(crate::proofs::Same::parameters_same))]
    pub fn parameters(&self, context: Context, levels: usize, at: usize) -> Reading<Node<Bracketed>>
        requires inner { ReadsExpressions R.expression self.now.parser.now.levels (F.pre self.now.parser.now.expression) (F.post self.now.parser.now.expression) }
        requires fits { levels ≤ self.now.parser.now.levels }
        ensures { Gives result (bindings.parameters self.now.parser.now.text.now (handed.values R.expression self.now.parser.now.text.now) context levels at) }
    {
        self.bound_list(Form::Parameters, context, levels, at)
    }
}
