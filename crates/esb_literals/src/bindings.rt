//! Lists of bindings (ECMA-262, 13.3.1, 13.3.2).

ghost use Rattle.std.specs.Prelude.{◌≡◌, ◌≤◌};
ghost use Rattle.esb_reader.specs.Reader.{Gives};
ghost use Rattle.esb_inner.specs.Inner.{ReadsExpressions};
ghost use Rattle.esb_binding_laws.specs.Loose as loose;
ghost use Rattle.esb_literal_laws.specs.Bindings as bindings;
ghost use Rattle.esb_literal_laws.specs.ElementLists as any;
ghost use Rattle.esb_literals.specs.Handed as handed;
ghost use Rattle.esb_literals.specs.Pieces as pieces;

use crate::kinds::{is_assign, is_comma};
use crate::literals::Literals;
use crate::places::make_list;
use esb_base::{List, Text};
use esb_grammar::{Context, Form};
use esb_inner::Readers;
use esb_nodes::{Discard, Listed, with};
use esb_reader::{Fault, Node, Reading, expect, peek};
use esb_token::{Goal, Kind};
use esb_tree::{Element, Elements, Expression, NextElement, Statement};
use std::alloc::Global;

impl<
    'a,
    R: Readers,
    F: Fn(Global, &Text, bool, Context, usize, usize) -> Reading<Node<Expression>>,
    S: Fn(Global, &Text, Context, usize, usize) -> Reading<Node<List<Statement>>>,
> Literals<'a, R, F, S> {
    /// What is bound, and its value where `=` stands behind it. Nothing but a name has none.
    #[tactic(auto, unfolding(crate::specs::Pieces::bound, esb_literal_laws::specs::Bindings::with_value))]
    fn bound(&self, context: Context, levels: usize, at: usize) -> Reading<Node<Expression>>
        requires inner { ReadsExpressions R.expression self.now.parser.now.levels (F.pre self.now.parser.now.expression) (F.post self.now.parser.now.expression) }
        requires fits { levels ≤ self.now.parser.now.levels }
        ensures { Gives result (pieces.bound self.now.parser.now.text.now R.expression context levels at) }
    {
        match self.target_below(context, levels, at) {
            Ok((target, end)) => {
                if is_assign(peek(self.parser.text, Goal::Div, end).kind) {
                    return self.valued(target, context, levels, end);
                }
                target.discard();
                self.bound_name(at)
            }
            Err(Fault::NoTree(_)) => self.bound_name(at),
            Err(Fault::Memory) => Err(Fault::Memory),
        }
    }

    /// What is bound, and its value where `=` stands behind it (13.3.1, 13.3.2, 13.7.5). A pattern may have none.
    #[tactic(auto, unfolding(esb_binding_laws::specs::Loose::loose, esb_literal_laws::specs::Bindings::with_value))]
    pub fn loose(&self, context: Context, levels: usize, at: usize) -> Reading<Node<Expression>>
        requires inner { ReadsExpressions R.expression self.now.parser.now.levels (F.pre self.now.parser.now.expression) (F.post self.now.parser.now.expression) }
        requires fits { levels ≤ self.now.parser.now.levels }
        ensures { Gives result (loose.loose self.now.parser.now.text.now (handed.values R.expression self.now.parser.now.text.now) context levels at) }
    {
        let (target, at) = self.target_below(context, levels, at)?;
        if !is_assign(peek(self.parser.text, Goal::Div, at).kind) {
            return Ok((target, at));
        }
        self.valued(target, context, levels, at)
    }

    /// LexicalBinding (13.3.1) or VariableDeclaration (13.3.2).
    #[tactic(auto, using(crate::proofs::Same::binding_same))]
    fn binding(&self, context: Context, levels: usize, at: usize) -> Reading<Node<Element>>
        requires inner { ReadsExpressions R.expression self.now.parser.now.levels (F.pre self.now.parser.now.expression) (F.post self.now.parser.now.expression) }
        requires fits { levels ≤ self.now.parser.now.levels }
        ensures { Gives result (bindings.binding self.now.parser.now.text.now (handed.values R.expression self.now.parser.now.text.now) context levels at) }
    {
        let (x, at) = self.bound(context, levels, at)?;
        let levels = x.levels;
        let tree = Element::Value(x.tree);
        Ok((Node { tree, levels }, at))
    }

    /// A comma, and what stands behind it.
    #[tactic(auto, unfolding(esb_literal_laws::specs::ElementLists::next_of))]
    fn next_binding(&self, context: Context, levels: usize, at: usize) -> Reading<Node<NextElement>>
        requires inner { ReadsExpressions R.expression self.now.parser.now.levels (F.pre self.now.parser.now.expression) (F.post self.now.parser.now.expression) }
        requires fits { levels ≤ self.now.parser.now.levels }
        ensures { Gives result (any.next_of self.now.parser.now.text.now (bindings.binding self.now.parser.now.text.now (handed.values R.expression self.now.parser.now.text.now) context levels) at) }
    {
        let (comma, at) = expect(self.parser.text, Kind::Comma, at)?;
        let (x, at) = self.binding(context, levels, at)?;
        let levels = x.levels;
        let element = x.tree;
        let tree = NextElement { comma, element };
        Ok((Node { tree, levels }, at))
    }

    /// The bindings behind the first.
    #[tactic(auto, unfolding(esb_literal_laws::specs::ElementLists::nexts_of, esb_reader::specs::Reader::repeated))]
    fn next_bindings(
        &self,
        context: Context,
        levels: usize,
        start: usize,
    ) -> Reading<Node<List<NextElement>>>
        requires inner { ReadsExpressions R.expression self.now.parser.now.levels (F.pre self.now.parser.now.expression) (F.post self.now.parser.now.expression) }
        requires fits { levels ≤ self.now.parser.now.levels }
        ensures { Gives result (any.nexts_of self.now.parser.now.text.now (bindings.binding self.now.parser.now.text.now (handed.values R.expression self.now.parser.now.text.now) context levels) start) }
    {
        let mut at = start;
        let mut tree = List::new(self.parser.alloc);
        let mut deepest = 0;
        for _turn in 0..self.parser.text.as_bytes().len() {
            if !is_comma(peek(self.parser.text, Goal::Div, at).kind) {
                return Ok((
                    Node {
                        tree,
                        levels: deepest,
                    },
                    at,
                ));
            }
            let (list, (next, end)) = with(tree, self.next_binding(context, levels, at))?;
            deepest = deepest.max(next.levels);
            tree = next.tree.added_to(list)?;
            at = end;
        }
        Ok((
            Node {
                tree,
                levels: deepest,
            },
            at,
        ))
    }

    /// BindingList (13.3.1) or VariableDeclarationList (13.3.2). What stands in it has fewer than `levels`.
    #[tactic(auto, unfolding(esb_literal_laws::specs::Bindings::bindings, esb_literal_laws::specs::ElementLists::list_of))]
    pub fn bindings(&self, context: Context, levels: usize, at: usize) -> Reading<Node<Elements>>
        requires inner { ReadsExpressions R.expression self.now.parser.now.levels (F.pre self.now.parser.now.expression) (F.post self.now.parser.now.expression) }
        requires fits { levels ≤ self.now.parser.now.levels }
        ensures { Gives result (bindings.bindings self.now.parser.now.text.now (handed.values R.expression self.now.parser.now.text.now) context levels at) }
    {
        let (first, end) = self.binding(context, levels, at)?;
        let (first, (rest, end)) = with(first, self.next_bindings(context, levels, end))?;
        match make_list(Form::Bindings, first, rest) {
            Some(list) => Ok((list, end)),
            None => Err(Fault::NoTree(at)),
        }
    }
}
