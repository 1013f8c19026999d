//! Names of properties (ECMA-262, 12.2.6).

ghost use Rattle.std.specs.Prelude.{◌≡◌, ◌≤◌};
ghost use Rattle.esb_reader.specs.Reader.{Gives};
ghost use Rattle.esb_inner.specs.Inner.{ReadsExpressions};
ghost use Rattle.esb_literal_laws.specs.Names as names;
ghost use Rattle.esb_literals.specs.Handed as handed;

use crate::kinds::{inside, is_left_bracket};
use crate::literals::Literals;
use esb_base::{List, Text};
use esb_grammar::{Context, is_property_word};
use esb_inner::Readers;
use esb_nodes::with;
use esb_reader::{Fault, Node, Reading, expect, peek, take};
use esb_token::{Goal, Kind};
use esb_tree::{Expression, PropertyName, Statement};
use std::alloc::Global;

impl<
    'a,
    R: Readers,
    F: Fn(Global, &Text, bool, Context, usize, usize) -> Reading<Node<Expression>>,
    S: Fn(Global, &Text, Context, usize, usize) -> Reading<Node<List<Statement>>>,
> Literals<'a, R, F, S> {
    /// LiteralPropertyName (12.2.6).
    #[tactic(auto, unfolding(esb_literal_laws::specs::Names::literal_name))]
    pub fn literal_name(&self, at: usize) -> Reading<Node<PropertyName>>
        ensures { Gives result (names.literal_name self.now.parser.now.text.now at) }
    {
        let (name, at) = take(self.parser.text, Goal::Div, at)?;
        if !is_property_word(name.kind) {
            return Err(Fault::NoTree(name.start));
        }
        let tree = PropertyName::Named(name);
        Ok((Node { tree, levels: 0 }, at))
    }

    /// PropertyName (12.2.6).
    #[tactic(auto, unfolding(esb_literal_laws::specs::Names::property_name, esb_literal_laws::specs::Names::computed_name))]
    pub fn property_name(
        &self,
        context: Context,
        levels: usize,
        at: usize,
    ) -> Reading<Node<PropertyName>>
        requires inner { ReadsExpressions R.expression self.now.parser.now.levels (F.pre self.now.parser.now.expression) (F.post self.now.parser.now.expression) }
        requires fits { levels ≤ self.now.parser.now.levels }
        ensures { Gives result (names.property_name self.now.parser.now.text.now (handed.values R.expression self.now.parser.now.text.now) context levels at) }
    {
        if !is_left_bracket(peek(self.parser.text, Goal::Div, at).kind) {
            return self.literal_name(at);
        }
        let (begin, at) = expect(self.parser.text, Kind::LeftBracket, at)?;
        let (x, at) = self.value(inside(context), levels, at)?;
        let (x, (ending, at)) = with(x, expect(self.parser.text, Kind::RightBracket, at))?;
        let levels = x.levels;
        let tree = PropertyName::Computed(begin, x.tree, ending);
        Ok((Node { tree, levels }, at))
    }
}
