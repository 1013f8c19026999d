//! Lists of bindings (ECMA-262, 13.3.1, 13.3.2).

ghost use Rattle.std.specs.Prelude.{◌≡◌, true, false};
ghost use Rattle.esb_reader.specs.Reader.{Gives};
ghost use Rattle.esb_statement_laws.specs.Declarations as spec;
ghost use Rattle.esb_statements.specs.Lists as lists;
ghost use Rattle.esb_statements.specs.Reads.{ReadsBindings};

use crate::parts::Parts;
use crate::readers::StatementReaders;
use esb_base::{List, Text};
use esb_grammar::Context;
use esb_nodes::{Discard, Listed, with};
use esb_reader::{Fault, Node, Reading, expect, peek};
use esb_statement_tests::{is_comma, list_bound};
use esb_token::{Goal, Kind};
use esb_tree::{Element, Elements, Expression, NextElement};
use std::alloc::Global;

impl<
    'a,
    R: StatementReaders,
    E,
    T,
    B: Fn(Global, &Text, Context, usize, usize) -> Reading<Node<Expression>>,
    F,
    C,
    I,
    S,
> Parts<'a, R, E, T, B, F, C, I, S> {
    /// `,` and a binding.
    #[tactic(auto, unfolding(esb_statement_laws::specs::Declarations::next_binding))]
    fn next_binding(&self, context: Context, at: usize) -> Reading<Node<NextElement>>
        requires bindings { ReadsBindings R.handed self.now.levels (B.pre self.now.binding) (B.post self.now.binding) }
        ensures { Gives result (spec.next_binding self.now.text.now context self.now.levels (R.handed self.now.text.now self.now.levels) at) }
    {
        let (comma, at) = expect(self.text, Kind::Comma, at)?;
        let (x, at) = self.bound_value(context, at)?;
        let levels = x.levels;
        let element = Element::Value(x.tree);
        let tree = NextElement { comma, element };
        Ok((Node { tree, levels }, at))
    }

    /// The bindings behind the first.
    #[tactic(auto, unfolding(crate::specs::Lists::next_bindings, esb_reader::specs::Reader::repeated))]
    fn next_bindings(&self, context: Context, start: usize) -> Reading<Node<List<NextElement>>>
        requires bindings { ReadsBindings R.handed self.now.levels (B.pre self.now.binding) (B.post self.now.binding) }
        ensures { Gives result (lists.next_bindings self.now.text.now context self.now.levels (R.handed self.now.text.now self.now.levels) start) }
    {
        let mut at = start;
        let mut tree = List::new(self.alloc);
        let mut levels = 0;
        for _turn in 0..self.text.as_bytes().len() {
            if !is_comma(peek(self.text, Goal::Div, at).kind) {
                return Ok((Node { tree, levels }, at));
            }
            let (list, (next, end)) = with(tree, self.next_binding(context, at))?;
            tree = next.tree.added_to(list)?;
            levels = levels.max(next.levels);
            at = end;
        }
        Ok((Node { tree, levels }, at))
    }

    /// A binding and those behind it.
    #[tactic(auto, unfolding(crate::specs::Lists::next_bindings))]
    fn loose_list(
        &self,
        context: Context,
        at: usize,
    ) -> Reading<Node<(Expression, List<NextElement>)>>
        requires bindings { ReadsBindings R.handed self.now.levels (B.pre self.now.binding) (B.post self.now.binding) }
        ensures { Gives result (spec.loose_list self.now.text.now context self.now.levels (R.handed self.now.text.now self.now.levels) at) }
    {
        let (x, at) = self.bound_value(context, at)?;
        let (x, (rest, at)) = with(x, self.next_bindings(context, at))?;
        let levels = x.levels.max(rest.levels);
        let tree = (x.tree, rest.tree);
        Ok((Node { tree, levels }, at))
    }

    /// Bindings, of which it is not asked that a pattern has a value.
    #[tactic(auto, unfolding(crate::specs::Lists::loose_bindings))]
    pub(crate) fn loose_bindings(&self, context: Context, at: usize) -> Reading<Node<Elements>>
        requires bindings { ReadsBindings R.handed self.now.levels (B.pre self.now.binding) (B.post self.now.binding) }
        ensures { Gives result (lists.loose_bindings self.now.text.now context self.now.levels (R.handed self.now.text.now self.now.levels) at) }
    {
        let (list, at) = self.loose_list(context, at)?;
        let levels = list.levels;
        let (x, rest) = list.tree;
        let first = Element::Value(x);
        let tree = Elements { first, rest };
        Ok((Node { tree, levels }, at))
    }

    /// BindingList (13.3.1) and VariableDeclarationList (13.3.2).
    #[tactic(auto, unfolding(esb_statement_laws::specs::Declarations::bindings))]
    pub(crate) fn bindings(&self, context: Context, at: usize) -> Reading<Node<Elements>>
        requires bindings { ReadsBindings R.handed self.now.levels (B.pre self.now.binding) (B.post self.now.binding) }
        ensures { Gives result (spec.bindings self.now.text.now context self.now.levels (R.handed self.now.text.now self.now.levels) at) }
    {
        let (list, at) = self.loose_list(context, at)?;
        let levels = list.levels;
        let (x, rest) = list.tree;
        let first = Element::Value(x);
        let tree = Elements { first, rest };
        if !list_bound(&tree) {
            tree.discard();
            return Err(Fault::NoTree(at));
        }
        Ok((Node { tree, levels }, at))
    }
}
