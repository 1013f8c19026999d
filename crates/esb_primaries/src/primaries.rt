//! What reads PrimaryExpressions.

ghost use Rattle.std.specs.Prelude.{◌≤◌, false};
ghost use Rattle.esb_tree.specs.declared.expressions.Expression.TheVariants as e;
ghost use Rattle.esb_grammar.specs.declared.form.Form.TheVariants as form;
ghost use Rattle.esb_grammar.specs.Contexts as contexts;
ghost use Rattle.esb_reader.specs.Parts.{above};
ghost use Rattle.esb_reader.specs.Reader.{Gives};
ghost use Rattle.esb_inner.specs.Inner.{ReadsExpressions, ReadsItems};
ghost use Rattle.esb_expression_laws.specs.Lists as lists;
ghost use Rattle.esb_functions.specs.Bodies.{bodies};
ghost use Rattle.esb_functions.specs.Heads.{heads, ReadsHeads};
ghost use Rattle.esb_literal_laws.specs.Classes as classes;
ghost use Rattle.esb_literal_laws.specs.Functions as functions;
ghost use Rattle.esb_literal_laws.specs.Objects as objects;
ghost use Rattle.esb_literal_laws.specs.Templates as templates;
ghost use Rattle.esb_literals.specs.Handed.{expressions, values};
ghost use Rattle.esb_value_laws.specs.Primaries as spec;

use crate::nodes::{array, class, function, object, parenthesized, template};
use crate::tokens::{at_function, is_class, is_head, is_left_parenthesis};
use esb_base::{List, Text};
use esb_expressions::leaf;
use esb_functions::Functions;
use esb_grammar::{Context, Form};
use esb_inner::{Parser, Readers};
use esb_literals::{Literals, is_left_brace, is_left_bracket};
use esb_reader::{Node, Reading, peek};
use esb_token::{Goal, Kind};
use esb_tree::{Expression, Statement};
use std::alloc::Global;

/// Reads PrimaryExpressions.
#[derive(Drop)]
pub struct Primaries<'a, R, F, S, H> {
    pub parser: &'a Parser<'a, R, F, S>,
    /// Reads a LeftHandSideExpression that a class extends, within a number of levels.
    pub head: H,
}

impl<
    'a,
    R: Readers,
    F: Fn(Global, &Text, bool, Context, usize, usize) -> Reading<Node<Expression>>,
    S: Fn(Global, &Text, Context, usize, usize) -> Reading<Node<List<Statement>>>,
    H: Fn(Global, &Text, Context, usize, usize) -> Reading<Node<Expression>>,
> Primaries<'a, R, F, S, H> {
    /// ParenthesizedExpression (12.2.10).
    fn parenthesized(&self, context: Context, levels: usize, at: usize) -> Reading<Node<Expression>>
        requires inner { ReadsExpressions R.expression self.now.parser.now.levels (F.pre self.now.parser.now.expression) (F.post self.now.parser.now.expression) }
        requires fits { levels ≤ self.now.parser.now.levels }
        ensures { Gives result (above levels e.Parenthesized (lists.bracketed self.now.parser.now.text.now form.Values (values R.expression self.now.parser.now.text.now (contexts.inside context) levels)) at) }
    {
        let literals = Literals {
            parser: self.parser,
        };
        let (list, at) = literals.bracketed(Form::Values, context, levels, at)?;
        parenthesized(self.parser.alloc, levels, list, at)
    }

    /// ArrayLiteral (12.2.5).
    fn array(&self, context: Context, levels: usize, at: usize) -> Reading<Node<Expression>>
        requires inner { ReadsExpressions R.expression self.now.parser.now.levels (F.pre self.now.parser.now.expression) (F.post self.now.parser.now.expression) }
        requires fits { levels ≤ self.now.parser.now.levels }
        ensures { Gives result (above levels e.ArrayLiteral (lists.bracketed self.now.parser.now.text.now form.Array (values R.expression self.now.parser.now.text.now (contexts.inside context) levels)) at) }
    {
        let literals = Literals {
            parser: self.parser,
        };
        let (list, at) = literals.bracketed(Form::Array, context, levels, at)?;
        array(self.parser.alloc, levels, list, at)
    }

    /// ObjectLiteral (12.2.6).
    fn object(&self, context: Context, levels: usize, at: usize) -> Reading<Node<Expression>>
        requires inner { ReadsExpressions R.expression self.now.parser.now.levels (F.pre self.now.parser.now.expression) (F.post self.now.parser.now.expression) }
        requires items { ReadsItems R.items self.now.parser.now.levels (S.pre self.now.parser.now.items) (S.post self.now.parser.now.items) }
        requires fits { levels ≤ self.now.parser.now.levels }
        ensures { Gives result (above levels e.ObjectLiteral (objects.object self.now.parser.now.text.now (values R.expression self.now.parser.now.text.now) (bodies R.items self.now.parser.now.text.now) context levels) at) }
    {
        let functions = Functions {
            parser: self.parser,
        };
        let (list, at) = functions.object(context, levels, at)?;
        object(self.parser.alloc, levels, list, at)
    }

    /// TemplateLiteral with substitutions (12.2.9).
    fn template(&self, context: Context, levels: usize, at: usize) -> Reading<Node<Expression>>
        requires inner { ReadsExpressions R.expression self.now.parser.now.levels (F.pre self.now.parser.now.expression) (F.post self.now.parser.now.expression) }
        requires fits { levels ≤ self.now.parser.now.levels }
        ensures { Gives result (above levels e.TemplateLiteral (templates.template self.now.parser.now.text.now (expressions R.expression self.now.parser.now.text.now (contexts.inside context) levels)) at) }
    {
        let literals = Literals {
            parser: self.parser,
        };
        let (parts, at) = literals.template(context, levels, at)?;
        template(self.parser.alloc, levels, parts, at)
    }

    /// FunctionExpression (14.1), also of generators and async functions.
    fn function(&self, levels: usize, at: usize) -> Reading<Node<Expression>>
        requires inner { ReadsExpressions R.expression self.now.parser.now.levels (F.pre self.now.parser.now.expression) (F.post self.now.parser.now.expression) }
        requires items { ReadsItems R.items self.now.parser.now.levels (S.pre self.now.parser.now.items) (S.post self.now.parser.now.items) }
        requires fits { levels ≤ self.now.parser.now.levels }
        ensures { Gives result (above levels e.FunctionExpression (functions.function self.now.parser.now.text.now (values R.expression self.now.parser.now.text.now) (bodies R.items self.now.parser.now.text.now) false levels) at) }
    {
        let functions = Functions {
            parser: self.parser,
        };
        let (x, at) = functions.function(false, levels, at)?;
        function(self.parser.alloc, levels, x, at)
    }

    /// ClassExpression (14.6).
    fn class(&self, context: Context, levels: usize, at: usize) -> Reading<Node<Expression>>
        requires inner { ReadsExpressions R.expression self.now.parser.now.levels (F.pre self.now.parser.now.expression) (F.post self.now.parser.now.expression) }
        requires items { ReadsItems R.items self.now.parser.now.levels (S.pre self.now.parser.now.items) (S.post self.now.parser.now.items) }
        requires heads { ReadsHeads R.left self.now.parser.now.levels (H.pre self.now.head) (H.post self.now.head) }
        requires fits { levels ≤ self.now.parser.now.levels }
        ensures { Gives result (above levels e.ClassExpression (classes.class self.now.parser.now.text.now (values R.expression self.now.parser.now.text.now) (heads R.left self.now.parser.now.text.now) (bodies R.items self.now.parser.now.text.now) false context levels) at) }
    {
        let functions = Functions {
            parser: self.parser,
        };
        let (x, at) = functions.class(&self.head, false, context, levels, at)?;
        class(self.parser.alloc, levels, x, at)
    }

    /// A list, a class, a template or an expression of one token.
    #[tactic(auto, unfolding(esb_value_laws::specs::Primaries::bracket_or_leaf))]
    fn bracket_or_leaf(
        &self,
        context: Context,
        levels: usize,
        at: usize,
    ) -> Reading<Node<Expression>>
        requires inner { ReadsExpressions R.expression self.now.parser.now.levels (F.pre self.now.parser.now.expression) (F.post self.now.parser.now.expression) }
        requires items { ReadsItems R.items self.now.parser.now.levels (S.pre self.now.parser.now.items) (S.post self.now.parser.now.items) }
        requires heads { ReadsHeads R.left self.now.parser.now.levels (H.pre self.now.head) (H.post self.now.head) }
        requires fits { levels ≤ self.now.parser.now.levels }
        ensures { Gives result (spec.bracket_or_leaf self.now.parser.now.text.now context levels (lists.bracketed self.now.parser.now.text.now form.Values (values R.expression self.now.parser.now.text.now (contexts.inside context) levels)) (lists.bracketed self.now.parser.now.text.now form.Array (values R.expression self.now.parser.now.text.now (contexts.inside context) levels)) (objects.object self.now.parser.now.text.now (values R.expression self.now.parser.now.text.now) (bodies R.items self.now.parser.now.text.now) context levels) (templates.template self.now.parser.now.text.now (expressions R.expression self.now.parser.now.text.now (contexts.inside context) levels)) (functions.function self.now.parser.now.text.now (values R.expression self.now.parser.now.text.now) (bodies R.items self.now.parser.now.text.now) false levels) (classes.class self.now.parser.now.text.now (values R.expression self.now.parser.now.text.now) (heads R.left self.now.parser.now.text.now) (bodies R.items self.now.parser.now.text.now) false context levels) at) }
    {
        let kind = peek(self.parser.text, Goal::Div, at).kind;
        if is_left_parenthesis(kind) {
            return self.parenthesized(context, levels, at);
        }
        if is_left_bracket(kind) {
            return self.array(context, levels, at);
        }
        if is_left_brace(kind) {
            return self.object(context, levels, at);
        }
        if is_class(kind) {
            return self.class(context, levels, at);
        }
        if is_head(kind) {
            return self.template(context, levels, at);
        }
        leaf(self.parser.text, context, at)
    }

    /// PrimaryExpression (12.2). What stands in it has fewer than `levels`.
    #[tactic(auto, unfolding(esb_value_laws::specs::Primaries::primary))]
    pub fn primary(&self, context: Context, levels: usize, at: usize) -> Reading<Node<Expression>>
        requires inner { ReadsExpressions R.expression self.now.parser.now.levels (F.pre self.now.parser.now.expression) (F.post self.now.parser.now.expression) }
        requires items { ReadsItems R.items self.now.parser.now.levels (S.pre self.now.parser.now.items) (S.post self.now.parser.now.items) }
        requires heads { ReadsHeads R.left self.now.parser.now.levels (H.pre self.now.head) (H.post self.now.head) }
        requires fits { levels ≤ self.now.parser.now.levels }
        ensures { Gives result (spec.primary self.now.parser.now.text.now context levels (lists.bracketed self.now.parser.now.text.now form.Values (values R.expression self.now.parser.now.text.now (contexts.inside context) levels)) (lists.bracketed self.now.parser.now.text.now form.Array (values R.expression self.now.parser.now.text.now (contexts.inside context) levels)) (objects.object self.now.parser.now.text.now (values R.expression self.now.parser.now.text.now) (bodies R.items self.now.parser.now.text.now) context levels) (templates.template self.now.parser.now.text.now (expressions R.expression self.now.parser.now.text.now (contexts.inside context) levels)) (functions.function self.now.parser.now.text.now (values R.expression self.now.parser.now.text.now) (bodies R.items self.now.parser.now.text.now) false levels) (classes.class self.now.parser.now.text.now (values R.expression self.now.parser.now.text.now) (heads R.left self.now.parser.now.text.now) (bodies R.items self.now.parser.now.text.now) false context levels) at) }
    {
        if at_function(self.parser.text, at) {
            return self.function(levels, at);
        }
        self.bracket_or_leaf(context, levels, at)
    }
}
