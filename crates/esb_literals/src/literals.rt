//! What is read of what is handed in, lists of values, and templates.

ghost use Rattle.std.specs.Prelude.{◌≡◌, ◌≤◌};
ghost use Rattle.esb_grammar.specs.Contexts.{inside as inside_of};
ghost use Rattle.esb_reader.specs.Reader.{Gives};
ghost use Rattle.esb_inner.specs.Inner.{ReadsExpressions};
ghost use Rattle.esb_expression_laws.specs.Lists as lists;
ghost use Rattle.esb_literal_laws.specs.Templates as templates;
ghost use Rattle.esb_literals.specs.Handed as handed;
ghost use Rattle.esb_literals.specs.Pieces as pieces;

use crate::kinds::{
    closer, ends_element, inside, is_comma, is_dots, is_ending, is_middle, opener, takes_spread,
};
use crate::places::make_list;
use esb_base::{List, Text};
use esb_grammar::{Context, Form};
use esb_inner::{Parser, Readers};
use esb_nodes::{Discard, Listed, with};
use esb_reader::{Fault, Node, Reading, expect, peek, take};
use esb_token::{Goal, Kind, Token};
use esb_tree::{
    Bracketed, Element, Elements, Expression, NextElement, Statement, Substitution, Substitutions,
};
use std::alloc::Global;

/// Reads literals, patterns and parameters.
#[derive(Drop)]
pub struct Literals<'a, R, F, S> {
    pub parser: &'a Parser<'a, R, F, S>,
}

impl<
    'a,
    R: Readers,
    F: Fn(Global, &Text, bool, Context, usize, usize) -> Reading<Node<Expression>>,
    S: Fn(Global, &Text, Context, usize, usize) -> Reading<Node<List<Statement>>>,
> Literals<'a, R, F, S> {
    /// An AssignmentExpression.
    #[tactic(auto, unfolding(crate::specs::Handed::values))]
    pub fn value(&self, context: Context, levels: usize, at: usize) -> Reading<Node<Expression>>
        requires inner { ReadsExpressions R.expression self.now.parser.now.levels (F.pre self.now.parser.now.expression) (F.post self.now.parser.now.expression) }
        requires fits { levels ≤ self.now.parser.now.levels }
        ensures { Gives result (handed.values R.expression self.now.parser.now.text.now context levels at) }
    {
        self.parser.value(context, levels, at)
    }

    /// An Expression.
    #[tactic(auto, unfolding(crate::specs::Handed::expressions))]
    pub fn expression(
        &self,
        context: Context,
        levels: usize,
        at: usize,
    ) -> Reading<Node<Expression>>
        requires inner { ReadsExpressions R.expression self.now.parser.now.levels (F.pre self.now.parser.now.expression) (F.post self.now.parser.now.expression) }
        requires fits { levels ≤ self.now.parser.now.levels }
        ensures { Gives result (handed.expressions R.expression self.now.parser.now.text.now context levels at) }
    {
        self.parser.values(context, levels, at)
    }

    /// `...` and a value, in a list that takes it.
    #[tactic(auto, unfolding(esb_expression_laws::specs::Lists::spread))]
    fn spread(
        &self,
        form: Form,
        context: Context,
        levels: usize,
        at: usize,
    ) -> Reading<Node<Element>>
        requires inner { ReadsExpressions R.expression self.now.parser.now.levels (F.pre self.now.parser.now.expression) (F.post self.now.parser.now.expression) }
        requires fits { levels ≤ self.now.parser.now.levels }
        ensures { Gives result (lists.spread self.now.parser.now.text.now form (handed.values R.expression self.now.parser.now.text.now (inside_of context) levels) at) }
    {
        let (dots, at) = take(self.parser.text, Goal::Div, at)?;
        if !(is_dots(dots.kind) && takes_spread(form)) {
            return Err(Fault::NoTree(dots.start));
        }
        let (x, at) = self.value(inside(context), levels, at)?;
        let levels = x.levels;
        let tree = Element::Spread(dots, x.tree);
        Ok((Node { tree, levels }, at))
    }

    /// What stands between two commas of a ParenthesizedExpression (12.2.10), of Arguments (12.3.8) or of an ArrayLiteral (12.2.5).
    #[tactic(auto, unfolding(esb_expression_laws::specs::Lists::element, esb_expression_laws::specs::Lists::value))]
    pub fn value_element(
        &self,
        form: Form,
        context: Context,
        levels: usize,
        at: usize,
    ) -> Reading<Node<Element>>
        requires inner { ReadsExpressions R.expression self.now.parser.now.levels (F.pre self.now.parser.now.expression) (F.post self.now.parser.now.expression) }
        requires fits { levels ≤ self.now.parser.now.levels }
        ensures { Gives result (lists.element self.now.parser.now.text.now form (handed.values R.expression self.now.parser.now.text.now (inside_of context) levels) at) }
    {
        let token = peek(self.parser.text, Goal::Div, at);
        if ends_element(token) {
            let tree = Element::Hole;
            return Ok((Node { tree, levels: 0 }, at));
        }
        if is_dots(token.kind) {
            return self.spread(form, context, levels, at);
        }
        let (x, at) = self.value(inside(context), levels, at)?;
        let levels = x.levels;
        let tree = Element::Value(x.tree);
        Ok((Node { tree, levels }, at))
    }

    /// A comma, and what stands behind it.
    #[tactic(auto, unfolding(esb_expression_laws::specs::Lists::next_element))]
    pub fn next_value(
        &self,
        form: Form,
        context: Context,
        levels: usize,
        at: usize,
    ) -> Reading<Node<NextElement>>
        requires inner { ReadsExpressions R.expression self.now.parser.now.levels (F.pre self.now.parser.now.expression) (F.post self.now.parser.now.expression) }
        requires fits { levels ≤ self.now.parser.now.levels }
        ensures { Gives result (lists.next_element self.now.parser.now.text.now form (handed.values R.expression self.now.parser.now.text.now (inside_of context) levels) at) }
    {
        let (comma, at) = expect(self.parser.text, Kind::Comma, at)?;
        let (x, at) = self.value_element(form, context, levels, at)?;
        let levels = x.levels;
        let element = x.tree;
        let tree = NextElement { comma, element };
        Ok((Node { tree, levels }, at))
    }

    /// The elements behind the first.
    #[tactic(auto, unfolding(crate::specs::Pieces::next_values, esb_reader::specs::Reader::repeated))]
    fn next_values(
        &self,
        form: Form,
        context: Context,
        levels: usize,
        start: usize,
    ) -> Reading<Node<List<NextElement>>>
        requires inner { ReadsExpressions R.expression self.now.parser.now.levels (F.pre self.now.parser.now.expression) (F.post self.now.parser.now.expression) }
        requires fits { levels ≤ self.now.parser.now.levels }
        ensures { Gives result (pieces.next_values self.now.parser.now.text.now form (handed.values R.expression self.now.parser.now.text.now (inside_of context) levels) start) }
    {
        let mut at = start;
        let mut tree = List::new(self.parser.alloc);
        let mut deepest = 0;
        for _turn in 0..self.parser.text.as_bytes().len() {
            if !is_comma(peek(self.parser.text, Goal::Div, at).kind) {
                return Ok((
                    Node {
                        tree,
                        levels: deepest,
                    },
                    at,
                ));
            }
            let (list, (next, end)) = with(tree, self.next_value(form, context, levels, at))?;
            deepest = deepest.max(next.levels);
            tree = next.tree.added_to(list)?;
            at = end;
        }
        Ok((
            Node {
                tree,
                levels: deepest,
            },
            at,
        ))
    }

    /// The elements of a list of values.
    #[tactic(auto, unfolding(esb_expression_laws::specs::Lists::list, crate::specs::Pieces::next_values))]
    fn values(
        &self,
        form: Form,
        context: Context,
        levels: usize,
        at: usize,
    ) -> Reading<Node<Elements>>
        requires inner { ReadsExpressions R.expression self.now.parser.now.levels (F.pre self.now.parser.now.expression) (F.post self.now.parser.now.expression) }
        requires fits { levels ≤ self.now.parser.now.levels }
        ensures { Gives result (lists.list self.now.parser.now.text.now form (handed.values R.expression self.now.parser.now.text.now (inside_of context) levels) at) }
    {
        let (first, end) = self.value_element(form, context, levels, at)?;
        let (first, (rest, end)) = with(first, self.next_values(form, context, levels, end))?;
        match make_list(form, first, rest) {
            Some(list) => Ok((list, end)),
            None => Err(Fault::NoTree(at)),
        }
    }

    /// ParenthesizedExpression (12.2.10), Arguments (12.3.8) or ArrayLiteral (12.2.5): a list of AssignmentExpressions. Its
    /// elements have fewer than `levels`.
    #[tactic(auto, unfolding(esb_expression_laws::specs::Lists::bracketed))]
    pub fn bracketed(
        &self,
        form: Form,
        context: Context,
        levels: usize,
        at: usize,
    ) -> Reading<Node<Bracketed>>
        requires inner { ReadsExpressions R.expression self.now.parser.now.levels (F.pre self.now.parser.now.expression) (F.post self.now.parser.now.expression) }
        requires fits { levels ≤ self.now.parser.now.levels }
        ensures { Gives result (lists.bracketed self.now.parser.now.text.now form (handed.values R.expression self.now.parser.now.text.now (inside_of context) levels) at) }
    {
        let (begin, at) = expect(self.parser.text, opener(form), at)?;
        let (list, at) = self.values(form, context, levels, at)?;
        let (list, (ending, at)) = with(list, expect(self.parser.text, closer(form), at))?;
        let levels = list.levels;
        let list = list.tree;
        let tree = Bracketed {
            begin,
            list,
            ending,
        };
        Ok((Node { tree, levels }, at))
    }

    /// A further part of a template, and the value behind it (12.2.9).
    #[tactic(auto, unfolding(esb_literal_laws::specs::Templates::substitution))]
    pub fn substitution(
        &self,
        context: Context,
        levels: usize,
        at: usize,
    ) -> Reading<Node<Substitution>>
        requires inner { ReadsExpressions R.expression self.now.parser.now.levels (F.pre self.now.parser.now.expression) (F.post self.now.parser.now.expression) }
        requires fits { levels ≤ self.now.parser.now.levels }
        ensures { Gives result (templates.substitution self.now.parser.now.text.now (handed.expressions R.expression self.now.parser.now.text.now (inside_of context) levels) at) }
    {
        let (middle, at) = take(self.parser.text, Goal::TemplateTail, at)?;
        if !is_middle(middle.kind) {
            return Err(Fault::NoTree(middle.start));
        }
        let (x, at) = self.expression(inside(context), levels, at)?;
        let levels = x.levels;
        let value = x.tree;
        let tree = Substitution { middle, value };
        Ok((Node { tree, levels }, at))
    }

    /// Whether a further part of a template stands there.
    #[tactic(auto, unfolding(esb_literal_laws::specs::Templates::at_middle))]
    pub fn at_middle(&self, at: usize) -> bool
        ensures { result ≡ templates.at_middle self.now.parser.now.text.now at }
    {
        is_middle(peek(self.parser.text, Goal::TemplateTail, at).kind)
    }

    /// The parts of a template behind its first value.
    #[tactic(auto, unfolding(esb_literal_laws::specs::Templates::substitutions, esb_reader::specs::Reader::repeated))]
    fn substitutions(
        &self,
        context: Context,
        levels: usize,
        start: usize,
    ) -> Reading<Node<List<Substitution>>>
        requires inner { ReadsExpressions R.expression self.now.parser.now.levels (F.pre self.now.parser.now.expression) (F.post self.now.parser.now.expression) }
        requires fits { levels ≤ self.now.parser.now.levels }
        ensures { Gives result (templates.substitutions self.now.parser.now.text.now (handed.expressions R.expression self.now.parser.now.text.now (inside_of context) levels) start) }
    {
        let mut at = start;
        let mut tree = List::new(self.parser.alloc);
        let mut deepest = 0;
        for _turn in 0..self.parser.text.as_bytes().len() {
            if !self.at_middle(at) {
                return Ok((
                    Node {
                        tree,
                        levels: deepest,
                    },
                    at,
                ));
            }
            let (list, (part, end)) = with(tree, self.substitution(context, levels, at))?;
            deepest = deepest.max(part.levels);
            tree = part.tree.added_to(list)?;
            at = end;
        }
        Ok((
            Node {
                tree,
                levels: deepest,
            },
            at,
        ))
    }

    /// The parts of a template behind its first value, and its end.
    #[tactic(auto, unfolding(crate::specs::Pieces::template_rest))]
    fn template_rest(
        &self,
        context: Context,
        levels: usize,
        at: usize,
    ) -> Reading<Node<(List<Substitution>, Token)>>
        requires inner { ReadsExpressions R.expression self.now.parser.now.levels (F.pre self.now.parser.now.expression) (F.post self.now.parser.now.expression) }
        requires fits { levels ≤ self.now.parser.now.levels }
        ensures { Gives result (pieces.template_rest self.now.parser.now.text.now (handed.expressions R.expression self.now.parser.now.text.now (inside_of context) levels) at) }
    {
        let (rest, at) = self.substitutions(context, levels, at)?;
        let (rest, (tail, at)) = with(rest, take(self.parser.text, Goal::TemplateTail, at))?;
        if !is_ending(tail.kind) {
            rest.discard();
            return Err(Fault::NoTree(tail.start));
        }
        let levels = rest.levels;
        let tree = (rest.tree, tail);
        Ok((Node { tree, levels }, at))
    }

    /// TemplateLiteral with substitutions (12.2.9). Its values have fewer than `levels`.
    #[tactic(auto, unfolding(esb_literal_laws::specs::Templates::template, crate::specs::Pieces::template_rest))]
    pub fn template(
        &self,
        context: Context,
        levels: usize,
        at: usize,
    ) -> Reading<Node<Substitutions>>
        requires inner { ReadsExpressions R.expression self.now.parser.now.levels (F.pre self.now.parser.now.expression) (F.post self.now.parser.now.expression) }
        requires fits { levels ≤ self.now.parser.now.levels }
        ensures { Gives result (templates.template self.now.parser.now.text.now (handed.expressions R.expression self.now.parser.now.text.now (inside_of context) levels) at) }
    {
        let (head, at) = expect(self.parser.text, Kind::TemplateHead, at)?;
        let (x, at) = self.expression(inside(context), levels, at)?;
        let (x, (more, at)) = with(x, self.template_rest(context, levels, at))?;
        let levels = x.levels.max(more.levels);
        let first = x.tree;
        let (rest, tail) = more.tree;
        let tree = Substitutions {
            head,
            first,
            rest,
            tail,
        };
        Ok((Node { tree, levels }, at))
    }
}
