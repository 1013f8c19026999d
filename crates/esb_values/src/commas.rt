//! Expressions with commas (ECMA-262, 12.16).

ghost use Rattle.std.specs.Prelude.{◌≡◌, ◌≤◌};
ghost use Rattle.esb_tree.specs.declared.expressions.Expression.TheVariants as e;
ghost use Rattle.esb_grammar.specs.Kinds as kinds;
ghost use Rattle.esb_reader.specs.Reader.{Gives};
ghost use Rattle.esb_reader.specs.Parts.{over};
ghost use Rattle.esb_inner.specs.Inner.{ReadsWithin};
ghost use Rattle.esb_value_laws.specs.Commas as spec;
ghost use Rattle.esb_values.specs.Commas as commas;

use crate::parts::Values;
use esb_base::{List, Text};
use esb_grammar::Context;
use esb_nodes::{Discard, Listed, Nested, with};
use esb_reader::{Fault, Node, Reading, expect, peek};
use esb_token::{Goal, Kind};
use esb_tree::{Expression, Operand};
use std::alloc::Global;
use std::marker::PhantomData;

/// Reads Expressions. What reads an AssignmentExpression within a number of levels is handed in.
#[derive(Drop)]
pub struct Commas<'a, R, V> {
    pub alloc: Global,
    pub text: &'a Text,
    /// How many nodes may stand in one another at most.
    pub levels: usize,
    pub value: V,
    /// Whose definitions say what `value` gives.
    pub readers: PhantomData<R>,
}

fn is_comma(kind: Kind) -> bool
    ensures { result ≡ kinds.is_comma kind }
{
    matches!(kind, Kind::Comma)
}

/// Whether a comma stands at a place.
#[tactic(auto, unfolding(crate::specs::Commas::at_comma))]
fn at_comma(text: &Text, at: usize) -> bool
    ensures { result ≡ commas.at_comma text.now at }
{
    is_comma(peek(text, Goal::Div, at).kind)
}

/// A first value and those behind it as a node, where there are any.
fn joined(
    alloc: Global,
    levels: usize,
    first: Node<Expression>,
    rest: Node<List<Operand>>,
    at: usize,
) -> Reading<Node<Expression>>
    ensures { Gives result (over levels e.Binary first rest at) }
{
    if rest.tree.is_empty() {
        rest.discard();
        return Ok((first, at));
    }
    let deepest = first.levels.max(rest.levels);
    if deepest >= levels {
        first.discard();
        rest.discard();
        return Err(Fault::NoTree(at));
    }
    let (rest, first) = with(rest.tree, first.tree.boxed(alloc))?;
    let tree = Expression::Binary(first, rest);
    let levels = deepest + 1;
    Ok((Node { tree, levels }, at))
}

impl<
    'a,
    R: Values,
    V: Fn(Global, &Text, Context, usize, usize) -> Reading<Node<Expression>>,
> Commas<'a, R, V> {
    /// A comma and the value behind it.
    #[tactic(auto, unfolding(esb_value_laws::specs::Commas::comma_operand))]
    fn operand(&self, context: Context, levels: usize, at: usize) -> Reading<Node<Operand>>
        requires value { ReadsWithin R.value self.now.levels (V.pre self.now.value) (V.post self.now.value) }
        requires fits { levels ≤ self.now.levels }
        ensures { Gives result (spec.comma_operand self.now.text.now (R.value context self.now.text.now levels) at) }
    {
        let (operator, at) = expect(self.text, Kind::Comma, at)?;
        let (x, at) = (self.value)(self.alloc, self.text, context, levels, at)?;
        let levels = x.levels;
        let tree = Operand {
            operator,
            value: x.tree,
        };
        Ok((Node { tree, levels }, at))
    }

    /// Commas, each with the value behind it.
    #[tactic(auto, unfolding(esb_reader::specs::Reader::repeated))]
    fn operands(
        &self,
        context: Context,
        levels: usize,
        start: usize,
    ) -> Reading<Node<List<Operand>>>
        requires value { ReadsWithin R.value self.now.levels (V.pre self.now.value) (V.post self.now.value) }
        requires fits { levels ≤ self.now.levels }
        ensures { Gives result (spec.comma_operands self.now.text.now (R.value context self.now.text.now levels) start) }
    {
        let mut at = start;
        let mut tree = List::new(self.alloc);
        let mut deepest = 0;
        for _turn in 0..self.text.as_bytes().len() {
            if !at_comma(self.text, at) {
                let levels = deepest;
                return Ok((Node { tree, levels }, at));
            }
            let (found, (operand, end)) = with(tree, self.operand(context, levels, at))?;
            deepest = deepest.max(operand.levels);
            tree = operand.tree.added_to(found)?;
            at = end;
        }
        let levels = deepest;
        Ok((Node { tree, levels }, at))
    }

    /// An Expression (ECMA-262, 12.16): a value, or several with commas between them.
    #[tactic(auto, unfolding(esb_value_laws::specs::Commas::expression))]
    pub fn expression(
        &self,
        context: Context,
        levels: usize,
        at: usize,
    ) -> Reading<Node<Expression>>
        requires value { ReadsWithin R.value self.now.levels (V.pre self.now.value) (V.post self.now.value) }
        requires fits { levels ≤ self.now.levels }
        ensures { Gives result (spec.expression self.now.text.now levels (R.value context self.now.text.now levels) at) }
    {
        let (first, at) = (self.value)(self.alloc, self.text, context, levels, at)?;
        let (first, (rest, at)) = with(first, self.operands(context, levels, at))?;
        joined(self.alloc, levels, first, rest, at)
    }
}
