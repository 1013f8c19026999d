//! Classes (ECMA-262, 14.6).

ghost use Rattle.std.specs.Prelude.{◌≡◌, ◌≤◌};
ghost use Rattle.esb_reader.specs.Reader.{Gives};
ghost use Rattle.esb_inner.specs.Inner.{ReadsExpressions, ReadsItems};
ghost use Rattle.esb_functions.specs.Bodies.{bodies};
ghost use Rattle.esb_literals.specs.Handed as handed;
ghost use Rattle.esb_literal_laws.specs.Classes as classes;
ghost use Rattle.esb_functions.specs.Heads.{ReadsHeads};
ghost use Rattle.esb_functions.specs.Heads as heads;
ghost use Rattle.esb_functions.specs.Definitions as definitions;

use crate::kinds::{is_extends, is_right_brace, is_semicolon, is_static};
use crate::parser::Functions;
use esb_base::{List, Text};
use esb_grammar::Context;
use esb_inner::Readers;
use esb_literals::begins_name;
use esb_nodes::{Listed, with};
use esb_reader::{Fault, Node, Reading, expect, peek, take};
use esb_token::{Goal, Kind, Token};
use esb_tree::{Class, ClassElement, Expression, Heritage, Statement};
use std::alloc::Global;

impl<
    'a,
    R: Readers,
    F: Fn(Global, &Text, bool, Context, usize, usize) -> Reading<Node<Expression>>,
    S: Fn(Global, &Text, Context, usize, usize) -> Reading<Node<List<Statement>>>,
> Functions<'a, R, F, S> {
    /// A LeftHandSideExpression within the levels below a number.
    #[tactic(auto, unfolding(esb_inner::specs::Inner::below, crate::specs::Heads::heads))]
    fn head<H: Fn(Global, &Text, Context, usize, usize) -> Reading<Node<Expression>>>(
        &self,
        head: &H,
        context: Context,
        levels: usize,
        at: usize,
    ) -> Reading<Node<Expression>>
        requires heads { ReadsHeads R.left self.now.parser.now.levels (H.pre head.now) (H.post head.now) }
        requires fits { levels ≤ self.now.parser.now.levels }
        ensures { Gives result (heads.heads R.left self.now.parser.now.text.now context levels at) }
    {
        if levels == 0 {
            return Err(Fault::NoTree(at));
        }
        head(self.parser.alloc, self.parser.text, context, levels - 1, at)
    }

    /// ClassHeritage, which may be absent.
    #[tactic(auto, unfolding(esb_literal_laws::specs::Classes::heritage, esb_literal_laws::specs::Classes::extended))]
    fn heritage<H: Fn(Global, &Text, Context, usize, usize) -> Reading<Node<Expression>>>(
        &self,
        head: &H,
        context: Context,
        levels: usize,
        at: usize,
    ) -> Reading<Node<Heritage>>
        requires heads { ReadsHeads R.left self.now.parser.now.levels (H.pre head.now) (H.post head.now) }
        requires fits { levels ≤ self.now.parser.now.levels }
        ensures { Gives result (classes.heritage self.now.parser.now.text.now (handed.values R.expression self.now.parser.now.text.now) (heads.heads R.left self.now.parser.now.text.now) (bodies R.items self.now.parser.now.text.now) context levels at) }
    {
        if !is_extends(peek(self.parser.text, Goal::Div, at).kind) {
            let tree = Heritage::NoHeritage;
            return Ok((Node { tree, levels: 0 }, at));
        }
        let (word, at) = expect(self.parser.text, Kind::Extends, at)?;
        let (x, at) = self.head(head, context, levels, at)?;
        let levels = x.levels;
        let tree = Heritage::Extends(word, x.tree);
        Ok((Node { tree, levels }, at))
    }

    #[tactic(auto, unfolding(esb_literal_laws::specs::Classes::empty_member))]
    fn empty_member(&self, at: usize) -> Reading<Node<ClassElement>>
        ensures { Gives result (classes.empty_member self.now.parser.now.text.now at) }
    {
        let (semicolon, at) = expect(self.parser.text, Kind::Semicolon, at)?;
        let tree = ClassElement::EmptyElement(semicolon);
        Ok((Node { tree, levels: 0 }, at))
    }

    /// Whether a method behind the word `static` stands there.
    #[tactic(auto, unfolding(esb_literal_laws::specs::Classes::at_static))]
    fn at_static(&self, at: usize) -> bool
        ensures { result ≡ classes.at_static self.now.parser.now.text.now at }
    {
        is_static(peek(self.parser.text, Goal::Div, at).kind) && begins_name(self.second(at))
    }

    /// A method behind the word `static`.
    #[tactic(auto, unfolding(esb_literal_laws::specs::Classes::static_member))]
    fn static_member(
        &self,
        context: Context,
        levels: usize,
        at: usize,
    ) -> Reading<Node<ClassElement>>
        requires inner { ReadsExpressions R.expression self.now.parser.now.levels (F.pre self.now.parser.now.expression) (F.post self.now.parser.now.expression) }
        requires items { ReadsItems R.items self.now.parser.now.levels (S.pre self.now.parser.now.items) (S.post self.now.parser.now.items) }
        requires fits { levels ≤ self.now.parser.now.levels }
        ensures { Gives result (classes.static_member self.now.parser.now.text.now (handed.values R.expression self.now.parser.now.text.now) (heads.heads R.left self.now.parser.now.text.now) (bodies R.items self.now.parser.now.text.now) context levels at) }
    {
        let (word, at) = take(self.parser.text, Goal::Div, at)?;
        if !is_static(word.kind) {
            return Err(Fault::NoTree(word.start));
        }
        let (x, at) = self.method(context, levels, at)?;
        let levels = x.levels;
        let tree = ClassElement::ClassMethod(Some(word), x.tree);
        Ok((Node { tree, levels }, at))
    }

    /// ClassElement.
    #[tactic(auto, unfolding(esb_literal_laws::specs::Classes::member))]
    fn member(&self, context: Context, levels: usize, at: usize) -> Reading<Node<ClassElement>>
        requires inner { ReadsExpressions R.expression self.now.parser.now.levels (F.pre self.now.parser.now.expression) (F.post self.now.parser.now.expression) }
        requires items { ReadsItems R.items self.now.parser.now.levels (S.pre self.now.parser.now.items) (S.post self.now.parser.now.items) }
        requires fits { levels ≤ self.now.parser.now.levels }
        ensures { Gives result (classes.member self.now.parser.now.text.now (handed.values R.expression self.now.parser.now.text.now) (heads.heads R.left self.now.parser.now.text.now) (bodies R.items self.now.parser.now.text.now) context levels at) }
    {
        if is_semicolon(peek(self.parser.text, Goal::Div, at).kind) {
            return self.empty_member(at);
        }
        if self.at_static(at) {
            return self.static_member(context, levels, at);
        }
        let (x, at) = self.method(context, levels, at)?;
        let levels = x.levels;
        let tree = ClassElement::ClassMethod(None, x.tree);
        Ok((Node { tree, levels }, at))
    }

    /// The elements of a class.
    #[tactic(auto, unfolding(esb_literal_laws::specs::Classes::members, esb_reader::specs::Reader::repeated))]
    fn members(
        &self,
        context: Context,
        levels: usize,
        start: usize,
    ) -> Reading<Node<List<ClassElement>>>
        requires inner { ReadsExpressions R.expression self.now.parser.now.levels (F.pre self.now.parser.now.expression) (F.post self.now.parser.now.expression) }
        requires items { ReadsItems R.items self.now.parser.now.levels (S.pre self.now.parser.now.items) (S.post self.now.parser.now.items) }
        requires fits { levels ≤ self.now.parser.now.levels }
        ensures { Gives result (classes.members self.now.parser.now.text.now (handed.values R.expression self.now.parser.now.text.now) (heads.heads R.left self.now.parser.now.text.now) (bodies R.items self.now.parser.now.text.now) context levels start) }
    {
        let mut at = start;
        let mut tree = List::new(self.parser.alloc);
        let mut deepest = 0;
        for _turn in 0..self.parser.text.as_bytes().len() {
            if is_right_brace(peek(self.parser.text, Goal::Div, at).kind) {
                return Ok((
                    Node {
                        tree,
                        levels: deepest,
                    },
                    at,
                ));
            }
            let (list, (next, end)) = with(tree, self.member(context, levels, at))?;
            deepest = deepest.max(next.levels);
            tree = next.tree.added_to(list)?;
            at = end;
        }
        Ok((
            Node {
                tree,
                levels: deepest,
            },
            at,
        ))
    }

    /// The elements of a class in their braces.
    fn class_body(
        &self,
        context: Context,
        levels: usize,
        at: usize,
    ) -> Reading<Node<(Token, (List<ClassElement>, Token))>>
        requires inner { ReadsExpressions R.expression self.now.parser.now.levels (F.pre self.now.parser.now.expression) (F.post self.now.parser.now.expression) }
        requires items { ReadsItems R.items self.now.parser.now.levels (S.pre self.now.parser.now.items) (S.post self.now.parser.now.items) }
        requires fits { levels ≤ self.now.parser.now.levels }
        ensures { Gives result (definitions.class_body self.now.parser.now.text.now (handed.values R.expression self.now.parser.now.text.now) (bodies R.items self.now.parser.now.text.now) (heads.heads R.left self.now.parser.now.text.now) context levels at) }
    {
        let (begin, at) = expect(self.parser.text, Kind::LeftBrace, at)?;
        let (x, at) = self.members(context, levels, at)?;
        let (x, (ending, at)) = with(x, expect(self.parser.text, Kind::RightBrace, at))?;
        let levels = x.levels;
        let tree = (begin, (x.tree, ending));
        Ok((Node { tree, levels }, at))
    }

    /// ClassExpression or ClassDeclaration (14.6), whose name has to be there where the flag says so. What stands in it has fewer
    /// than `levels`.
    #[tactic(auto, unfolding(esb_literal_laws::specs::Classes::class))]
    pub fn class<H: Fn(Global, &Text, Context, usize, usize) -> Reading<Node<Expression>>>(
        &self,
        head: &H,
        is_named: bool,
        context: Context,
        levels: usize,
        at: usize,
    ) -> Reading<Node<Class>>
        requires inner { ReadsExpressions R.expression self.now.parser.now.levels (F.pre self.now.parser.now.expression) (F.post self.now.parser.now.expression) }
        requires items { ReadsItems R.items self.now.parser.now.levels (S.pre self.now.parser.now.items) (S.post self.now.parser.now.items) }
        requires heads { ReadsHeads R.left self.now.parser.now.levels (H.pre head.now) (H.post head.now) }
        requires fits { levels ≤ self.now.parser.now.levels }
        ensures { Gives result (classes.class self.now.parser.now.text.now (handed.values R.expression self.now.parser.now.text.now) (heads.heads R.left self.now.parser.now.text.now) (bodies R.items self.now.parser.now.text.now) is_named context levels at) }
    {
        let (word, at) = expect(self.parser.text, Kind::Class, at)?;
        let (name, at) = self.own_name(is_named, at)?;
        let (heritage, at) = self.heritage(head, context, levels, at)?;
        let (heritage, (body, at)) = with(heritage, self.class_body(context, levels, at))?;
        let levels = name.levels.max(heritage.levels.max(body.levels));
        let heritage = heritage.tree;
        let name = name.tree;
        let (begin, (elements, ending)) = body.tree;
        let tree = Class {
            word,
            name,
            heritage,
            begin,
            elements,
            ending,
        };
        Ok((Node { tree, levels }, at))
    }
}
