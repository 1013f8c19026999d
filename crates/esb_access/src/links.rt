//! The links of members, calls and optional chains.

ghost use Rattle.std.specs.Prelude.{◌≡◌, ◌<◌, ◌≤◌, true, false, length, IfOk};
ghost use Rattle.esb_reader.specs.Reader.{Gives};
ghost use Rattle.esb_inner.specs.Inner.{ReadsExpressions};
ghost use Rattle.esb_access.specs.Handed as handed;
ghost use Rattle.esb_access.specs.Handed.{ReadsParts};

use crate::accesses::Accesses;
use crate::kinds::{
    begins_link_in, inside, is_dot, is_head, is_left_bracket, is_left_parenthesis, is_whole,
};
use crate::parts::Parts;
use esb_base::{List, Text};
use esb_grammar::{Context, is_identifier_name};
use esb_inner::Readers;
use esb_nodes::{Listed, with};
use esb_reader::{Fault, Node, Reading, expect, peek, take};
use esb_token::{Goal, Kind, Token};
use esb_tree::{Bracketed, Expression, Link, Statement, Substitutions};
use std::alloc::Global;

/// How many bytes a text has, and so how many links at most.
pub fn length_of(text: &Text) -> usize
    ensures { result ≡ length text.now }
{
    text.as_bytes().len()
}

impl<
    'a,
    R: Readers + Parts,
    F: Fn(Global, &Text, bool, Context, usize, usize) -> Reading<Node<Expression>>,
    S: Fn(Global, &Text, Context, usize, usize) -> Reading<Node<List<Statement>>>,
    P,
    A: Fn(Global, &Text, Context, usize, usize) -> Reading<Node<Bracketed>>,
    T: Fn(Global, &Text, Context, usize, usize) -> Reading<Node<Substitutions>>,
> Accesses<'a, R, F, S, P, A, T> {
    /// An Expression in brackets.
    fn bracket(
        &self,
        context: Context,
        levels: usize,
        at: usize,
    ) -> Reading<Node<((Token, Expression), Token)>>
        requires inner { ReadsExpressions R.expression self.now.parser.now.levels (F.pre self.now.parser.now.expression) (F.post self.now.parser.now.expression) }
        requires fits { levels ≤ self.now.parser.now.levels }
        ensures { Gives result (handed.bracket R.expression R.arguments R.template context self.now.parser.now.text.now levels at) }
    {
        let (begin, at) = expect(self.parser.text, Kind::LeftBracket, at)?;
        let (x, at) = self.parser.values(inside(context), levels, at)?;
        let (x, (ending, at)) = with(x, expect(self.parser.text, Kind::RightBracket, at))?;
        let levels = x.levels;
        let tree = ((begin, x.tree), ending);
        Ok((Node { tree, levels }, at))
    }

    /// `.` and an IdentifierName.
    #[tactic(auto, unfolding(esb_access_laws::specs::Links::dot))]
    fn dot(&self, context: Context, levels: usize, at: usize) -> Reading<Node<Link>>
        ensures { Gives result (handed.dot R.expression R.arguments R.template context self.now.parser.now.text.now levels at) }
    {
        let (dot, at) = expect(self.parser.text, Kind::Dot, at)?;
        let (name, at) = take(self.parser.text, Goal::Div, at)?;
        if !is_identifier_name(name.kind) {
            return Err(Fault::NoTree(name.start));
        }
        let tree = Link::Dot(dot, name);
        Ok((Node { tree, levels: 0 }, at))
    }

    /// An Expression in brackets, as a link.
    #[tactic(auto, unfolding(esb_access_laws::specs::Links::index))]
    fn index(&self, context: Context, levels: usize, at: usize) -> Reading<Node<Link>>
        requires inner { ReadsExpressions R.expression self.now.parser.now.levels (F.pre self.now.parser.now.expression) (F.post self.now.parser.now.expression) }
        requires fits { levels ≤ self.now.parser.now.levels }
        ensures { Gives result (handed.index R.expression R.arguments R.template context self.now.parser.now.text.now levels at) }
    {
        let (part, at) = self.bracket(context, levels, at)?;
        let levels = part.levels;
        let ((begin, x), ending) = part.tree;
        let tree = Link::Index(begin, x, ending);
        Ok((Node { tree, levels }, at))
    }

    /// `?.` and what is behind it (12.3.9).
    #[tactic(auto, unfolding(esb_access_laws::specs::Links::optional))]
    fn optional(&self, context: Context, levels: usize, at: usize) -> Reading<Node<Link>>
        requires inner { ReadsExpressions R.expression self.now.parser.now.levels (F.pre self.now.parser.now.expression) (F.post self.now.parser.now.expression) }
        requires lists { ReadsParts R.arguments self.now.parser.now.levels (A.pre self.now.arguments) (A.post self.now.arguments) }
        requires fits { levels ≤ self.now.parser.now.levels }
        ensures { Gives result (handed.optional R.expression R.arguments R.template context self.now.parser.now.text.now levels at) }
    {
        let (dot, at) = expect(self.parser.text, Kind::QuestionDot, at)?;
        let kind = peek(self.parser.text, Goal::Div, at).kind;
        if is_left_bracket(kind) {
            let (part, at) = self.bracket(context, levels, at)?;
            let levels = part.levels;
            let ((begin, x), ending) = part.tree;
            let tree = Link::OptionalIndex(dot, begin, x, ending);
            return Ok((Node { tree, levels }, at));
        }
        if is_left_parenthesis(kind) {
            let (list, at) = self.read_arguments(context, levels, at)?;
            let levels = list.levels;
            let tree = Link::OptionalCall(dot, list.tree);
            return Ok((Node { tree, levels }, at));
        }
        let (name, at) = take(self.parser.text, Goal::Div, at)?;
        if !is_identifier_name(name.kind) {
            return Err(Fault::NoTree(name.start));
        }
        let tree = Link::OptionalDot(dot, name);
        Ok((Node { tree, levels: 0 }, at))
    }

    /// Arguments or an optional link, where there may be calls.
    #[tactic(auto, unfolding(esb_access_laws::specs::Links::called))]
    fn called(&self, context: Context, calls: bool, levels: usize, at: usize) -> Reading<Node<Link>>
        requires inner { ReadsExpressions R.expression self.now.parser.now.levels (F.pre self.now.parser.now.expression) (F.post self.now.parser.now.expression) }
        requires lists { ReadsParts R.arguments self.now.parser.now.levels (A.pre self.now.arguments) (A.post self.now.arguments) }
        requires fits { levels ≤ self.now.parser.now.levels }
        ensures { Gives result (handed.called R.expression R.arguments R.template context self.now.parser.now.text.now levels calls at) }
    {
        if !calls {
            return Err(Fault::NoTree(at));
        }
        if !is_left_parenthesis(peek(self.parser.text, Goal::Div, at).kind) {
            return self.optional(context, levels, at);
        }
        let (list, at) = self.read_arguments(context, levels, at)?;
        let levels = list.levels;
        let tree = Link::Call(list.tree);
        Ok((Node { tree, levels }, at))
    }

    /// A template, or what stands only where there may be calls.
    fn templated(
        &self,
        context: Context,
        calls: bool,
        levels: usize,
        at: usize,
    ) -> Reading<Node<Link>>
        requires inner { ReadsExpressions R.expression self.now.parser.now.levels (F.pre self.now.parser.now.expression) (F.post self.now.parser.now.expression) }
        requires lists { ReadsParts R.arguments self.now.parser.now.levels (A.pre self.now.arguments) (A.post self.now.arguments) }
        requires templates { ReadsParts R.template self.now.parser.now.levels (T.pre self.now.template) (T.post self.now.template) }
        requires fits { levels ≤ self.now.parser.now.levels }
        ensures { Gives result (handed.templated R.expression R.arguments R.template context self.now.parser.now.text.now levels calls at) }
    {
        let kind = peek(self.parser.text, Goal::Div, at).kind;
        if is_whole(kind) {
            let (token, at) = expect(self.parser.text, Kind::TemplateWhole, at)?;
            let tree = Link::Tagged(token);
            return Ok((Node { tree, levels: 0 }, at));
        }
        if !is_head(kind) {
            return self.called(context, calls, levels, at);
        }
        let (template, at) = self.read_template(context, levels, at)?;
        let levels = template.levels;
        let tree = Link::TaggedTemplate(template.tree);
        Ok((Node { tree, levels }, at))
    }

    /// A link.
    #[tactic(auto, unfolding(esb_access_laws::specs::Links::link))]
    fn link(&self, context: Context, calls: bool, levels: usize, at: usize) -> Reading<Node<Link>>
        requires inner { ReadsExpressions R.expression self.now.parser.now.levels (F.pre self.now.parser.now.expression) (F.post self.now.parser.now.expression) }
        requires lists { ReadsParts R.arguments self.now.parser.now.levels (A.pre self.now.arguments) (A.post self.now.arguments) }
        requires templates { ReadsParts R.template self.now.parser.now.levels (T.pre self.now.template) (T.post self.now.template) }
        requires fits { levels ≤ self.now.parser.now.levels }
        ensures { Gives result (handed.link R.expression R.arguments R.template context self.now.parser.now.text.now levels calls at) }
    {
        let kind = peek(self.parser.text, Goal::Div, at).kind;
        if is_dot(kind) {
            return self.dot(context, levels, at);
        }
        if is_left_bracket(kind) {
            return self.index(context, levels, at);
        }
        self.templated(context, calls, levels, at)
    }

    /// At most so many links, behind those that were read.
    #[tactic(auto, unfolding(esb_reader::specs::Reader::repeated))]
    pub(crate) fn links_from(
        &self,
        context: Context,
        calls: bool,
        levels: usize,
        turns: usize,
        found: Node<List<Link>>,
        start: usize,
    ) -> Reading<Node<List<Link>>>
        requires inner { ReadsExpressions R.expression self.now.parser.now.levels (F.pre self.now.parser.now.expression) (F.post self.now.parser.now.expression) }
        requires lists { ReadsParts R.arguments self.now.parser.now.levels (A.pre self.now.arguments) (A.post self.now.arguments) }
        requires templates { ReadsParts R.template self.now.parser.now.levels (T.pre self.now.template) (T.post self.now.template) }
        requires fits { levels ≤ self.now.parser.now.levels }
        ensures { Gives result (handed.links_from R.expression R.arguments R.template context self.now.parser.now.text.now levels calls turns found start) }
    {
        let mut at = start;
        let mut tree = found.tree;
        let mut deepest = found.levels;
        for _turn in 0..turns {
            if !begins_link_in(calls, peek(self.parser.text, Goal::Div, at).kind) {
                let levels = deepest;
                return Ok((Node { tree, levels }, at));
            }
            let (list, (link, end)) = with(tree, self.link(context, calls, levels, at))?;
            deepest = deepest.max(link.levels);
            tree = link.tree.added_to(list)?;
            at = end;
        }
        let levels = deepest;
        Ok((Node { tree, levels }, at))
    }

    /// All links from a place on.
    #[tactic(auto, unfolding(esb_access_laws::specs::Links::links))]
    pub(crate) fn links(
        &self,
        context: Context,
        calls: bool,
        levels: usize,
        at: usize,
    ) -> Reading<Node<List<Link>>>
        requires inner { ReadsExpressions R.expression self.now.parser.now.levels (F.pre self.now.parser.now.expression) (F.post self.now.parser.now.expression) }
        requires lists { ReadsParts R.arguments self.now.parser.now.levels (A.pre self.now.arguments) (A.post self.now.arguments) }
        requires templates { ReadsParts R.template self.now.parser.now.levels (T.pre self.now.template) (T.post self.now.template) }
        requires fits { levels ≤ self.now.parser.now.levels }
        ensures { Gives result (handed.links R.expression R.arguments R.template context self.now.parser.now.text.now levels calls at) }
    {
        let turns = length_of(self.parser.text);
        let tree = List::new(self.parser.alloc);
        self.links_from(context, calls, levels, turns, Node { tree, levels: 0 }, at)
    }
}
