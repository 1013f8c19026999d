//! What members and calls begin with, and the whole.

ghost use Rattle.std.specs.Prelude.{◌≡◌, ◌<◌, ◌≤◌, true, false, length, IfOk};
ghost use Rattle.esb_reader.specs.Reader.{Gives, pure};
ghost use Rattle.esb_reader.specs.Parts.{behind};
ghost use Rattle.esb_inner.specs.Inner.{ReadsExpressions};
ghost use Rattle.esb_access_laws.specs.Links.{is_left_parenthesis as is_left_parenthesis_of};
ghost use Rattle.esb_access.specs.Handed as handed;
ghost use Rattle.esb_access.specs.Handed.{ReadsParts};

use crate::accesses::Accesses;
use crate::chains::{chained, dot_word, new_plain, new_with, one_call, plain};
use crate::kinds::{
    begins_link_in, inside, is_dot, is_import, is_left_parenthesis, is_new, is_super,
};
use crate::links::length_of;
use crate::parts::Parts;
use crate::shapes::is_new_alone;
use esb_base::{List, Text};
use esb_grammar::Context;
use esb_inner::Readers;
use esb_nodes::{Discard, Nested, with};
use esb_reader::{Fault, Node, Reading, expect, peek};
use esb_token::{Goal, Kind, Token};
use esb_tree::{Bracketed, Expression, Link, Statement, Substitutions};
use std::alloc::Global;

impl<
    'a,
    R: Readers + Parts,
    F: Fn(Global, &Text, bool, Context, usize, usize) -> Reading<Node<Expression>>,
    S: Fn(Global, &Text, Context, usize, usize) -> Reading<Node<List<Statement>>>,
    P: Fn(Global, &Text, Context, usize, usize) -> Reading<Node<Expression>>,
    A: Fn(Global, &Text, Context, usize, usize) -> Reading<Node<Bracketed>>,
    T: Fn(Global, &Text, Context, usize, usize) -> Reading<Node<Substitutions>>,
> Accesses<'a, R, F, S, P, A, T> {
    /// The links behind a node that was read, and the chain over the two.
    #[tactic(auto, unfolding(esb_access_laws::specs::Access::accessed))]
    pub fn links_behind(
        &self,
        context: Context,
        calls: bool,
        levels: usize,
        first: Node<Expression>,
        at: usize,
    ) -> Reading<Node<Expression>>
        requires inner { ReadsExpressions R.expression self.now.parser.now.levels (F.pre self.now.parser.now.expression) (F.post self.now.parser.now.expression) }
        requires lists { ReadsParts R.arguments self.now.parser.now.levels (A.pre self.now.arguments) (A.post self.now.arguments) }
        requires templates { ReadsParts R.template self.now.parser.now.levels (T.pre self.now.template) (T.post self.now.template) }
        requires fits { levels ≤ self.now.parser.now.levels }
        ensures { Gives result (handed.accessed R.expression R.primary R.arguments R.template context self.now.parser.now.text.now levels calls (pure first) at) }
    {
        let kind = peek(self.parser.text, Goal::Div, at).kind;
        if !begins_link_in(calls, kind) || is_new_alone(&first.tree) {
            return plain(first, at);
        }
        let (first, (links, end)) = with(first, self.links(context, calls, levels, at))?;
        chained(self.parser.alloc, levels, first, links, end)
    }

    /// All links from a place on, where arguments that were read are the first. `end` is the place behind these.
    #[tactic(auto, using(crate::proofs::Calls::no_links))]
    fn links_from_call(
        &self,
        context: Context,
        levels: usize,
        at: usize,
        list: Node<Bracketed>,
        end: usize,
    ) -> Reading<Node<List<Link>>>
        requires inner { ReadsExpressions R.expression self.now.parser.now.levels (F.pre self.now.parser.now.expression) (F.post self.now.parser.now.expression) }
        requires lists { ReadsParts R.arguments self.now.parser.now.levels (A.pre self.now.arguments) (A.post self.now.arguments) }
        requires templates { ReadsParts R.template self.now.parser.now.levels (T.pre self.now.template) (T.post self.now.template) }
        requires fits { levels ≤ self.now.parser.now.levels }
        requires seen { is_left_parenthesis_of (behind self.now.parser.now.text.now at).kind ≡ true }
        requires read { R.arguments context self.now.parser.now.text.now levels at ≡ Some (list, end) }
        ensures { Gives result (handed.links R.expression R.arguments R.template context self.now.parser.now.text.now levels true at) }
    {
        let length = length_of(self.parser.text);
        if length == 0 {
            list.discard();
            let tree = List::new(self.parser.alloc);
            return Ok((Node { tree, levels: 0 }, at));
        }
        let found = one_call(self.parser.alloc, list)?;
        self.links_from(context, true, levels, length - 1, found, end)
    }

    /// The links behind a node that was read and arguments behind it that were read too, and the chain over all of them. `at` is
    /// the place of the arguments, and `end` the one behind them.
    #[tactic(auto, using(crate::proofs::Calls::begun), unfolding(esb_access_laws::specs::Access::accessed))]
    pub fn links_behind_call(
        &self,
        context: Context,
        levels: usize,
        first: Node<Expression>,
        at: usize,
        list: Node<Bracketed>,
        end: usize,
    ) -> Reading<Node<Expression>>
        requires inner { ReadsExpressions R.expression self.now.parser.now.levels (F.pre self.now.parser.now.expression) (F.post self.now.parser.now.expression) }
        requires lists { ReadsParts R.arguments self.now.parser.now.levels (A.pre self.now.arguments) (A.post self.now.arguments) }
        requires templates { ReadsParts R.template self.now.parser.now.levels (T.pre self.now.template) (T.post self.now.template) }
        requires fits { levels ≤ self.now.parser.now.levels }
        requires seen { is_left_parenthesis_of (behind self.now.parser.now.text.now at).kind ≡ true }
        requires read { R.arguments context self.now.parser.now.text.now levels at ≡ Some (list, end) }
        ensures { Gives result (handed.accessed R.expression R.primary R.arguments R.template context self.now.parser.now.text.now levels true (pure first) at) }
    {
        if is_new_alone(&first.tree) {
            list.discard();
            return plain(first, at);
        }
        let (first, (links, end)) = with(
            first,
            self.links_from_call(context, levels, at, list, end),
        )?;
        chained(self.parser.alloc, levels, first, links, end)
    }

    /// What `new` is of, one level down.
    #[cycle(left)]
    #[tactic(auto, unfolding(esb_inner::specs::Inner::below))]
    fn callee(&self, context: Context, levels: usize, at: usize) -> Reading<Node<Expression>>
        requires inner { ReadsExpressions R.expression self.now.parser.now.levels (F.pre self.now.parser.now.expression) (F.post self.now.parser.now.expression) }
        requires primaries { ReadsParts R.primary self.now.parser.now.levels (P.pre self.now.primary) (P.post self.now.primary) }
        requires lists { ReadsParts R.arguments self.now.parser.now.levels (A.pre self.now.arguments) (A.post self.now.arguments) }
        requires templates { ReadsParts R.template self.now.parser.now.levels (T.pre self.now.template) (T.post self.now.template) }
        requires fits { levels ≤ self.now.parser.now.levels }
        ensures { Gives result (handed.callee R.expression R.primary R.arguments R.template context self.now.parser.now.text.now levels at) }
    {
        if levels == 0 {
            return Err(Fault::NoTree(at));
        }
        self.left(context, false, levels - 1, at)
    }

    /// What stands behind `new` where no dot does.
    #[cycle(left)]
    fn new_object(
        &self,
        context: Context,
        levels: usize,
        word: Token,
        at: usize,
    ) -> Reading<Node<Expression>>
        requires inner { ReadsExpressions R.expression self.now.parser.now.levels (F.pre self.now.parser.now.expression) (F.post self.now.parser.now.expression) }
        requires primaries { ReadsParts R.primary self.now.parser.now.levels (P.pre self.now.primary) (P.post self.now.primary) }
        requires lists { ReadsParts R.arguments self.now.parser.now.levels (A.pre self.now.arguments) (A.post self.now.arguments) }
        requires templates { ReadsParts R.template self.now.parser.now.levels (T.pre self.now.template) (T.post self.now.template) }
        requires fits { levels ≤ self.now.parser.now.levels }
        ensures { Gives result (handed.new_object R.expression R.primary R.arguments R.template context self.now.parser.now.text.now levels word at) }
    {
        let (callee, at) = self.callee(context, levels, at)?;
        if !is_left_parenthesis(peek(self.parser.text, Goal::Div, at).kind) {
            return new_plain(self.parser.alloc, levels, word, callee, at);
        }
        let (callee, (list, at)) = with(callee, self.read_arguments(context, levels, at))?;
        new_with(self.parser.alloc, levels, word, callee, list, at)
    }

    /// `new.target`, and `new` with a callee.
    #[cycle(left)]
    #[tactic(auto, unfolding(esb_access_laws::specs::Access::new_expression))]
    fn new_expression(
        &self,
        context: Context,
        levels: usize,
        at: usize,
    ) -> Reading<Node<Expression>>
        requires inner { ReadsExpressions R.expression self.now.parser.now.levels (F.pre self.now.parser.now.expression) (F.post self.now.parser.now.expression) }
        requires primaries { ReadsParts R.primary self.now.parser.now.levels (P.pre self.now.primary) (P.post self.now.primary) }
        requires lists { ReadsParts R.arguments self.now.parser.now.levels (A.pre self.now.arguments) (A.post self.now.arguments) }
        requires templates { ReadsParts R.template self.now.parser.now.levels (T.pre self.now.template) (T.post self.now.template) }
        requires fits { levels ≤ self.now.parser.now.levels }
        ensures { Gives result (handed.new_expression R.expression R.primary R.arguments R.template context self.now.parser.now.text.now levels at) }
    {
        let (word, at) = expect(self.parser.text, Kind::New, at)?;
        if !is_dot(peek(self.parser.text, Goal::Div, at).kind) {
            return self.new_object(context, levels, word, at);
        }
        let (part, at) = dot_word(self.parser.text, b"target", at)?;
        if part.levels >= levels {
            return Err(Fault::NoTree(at));
        }
        let levels = part.levels + 1;
        let (dot, name) = part.tree;
        let tree = Expression::MetaProperty(word, dot, name);
        Ok((Node { tree, levels }, at))
    }

    /// `import` with what it takes.
    fn import_call(
        &self,
        context: Context,
        calls: bool,
        levels: usize,
        word: Token,
        at: usize,
    ) -> Reading<Node<Expression>>
        requires inner { ReadsExpressions R.expression self.now.parser.now.levels (F.pre self.now.parser.now.expression) (F.post self.now.parser.now.expression) }
        requires fits { levels ≤ self.now.parser.now.levels }
        ensures { Gives result (handed.import_call R.expression R.primary R.arguments R.template context self.now.parser.now.text.now calls levels word at) }
    {
        let (begin, at) = expect(self.parser.text, Kind::LeftParenthesis, at)?;
        let (x, at) = self.parser.value(inside(context), levels, at)?;
        let (x, (ending, at)) = with(x, expect(self.parser.text, Kind::RightParenthesis, at))?;
        if !calls || x.levels >= levels {
            x.discard();
            return Err(Fault::NoTree(at));
        }
        let levels = x.levels + 1;
        let value = x.tree.boxed(self.parser.alloc)?;
        let tree = Expression::ImportCall(word, begin, value, ending);
        Ok((Node { tree, levels }, at))
    }

    /// `import.meta`, and `import` with what it takes.
    #[tactic(auto, unfolding(esb_access_laws::specs::Access::import_expression))]
    fn import_expression(
        &self,
        context: Context,
        calls: bool,
        levels: usize,
        at: usize,
    ) -> Reading<Node<Expression>>
        requires inner { ReadsExpressions R.expression self.now.parser.now.levels (F.pre self.now.parser.now.expression) (F.post self.now.parser.now.expression) }
        requires fits { levels ≤ self.now.parser.now.levels }
        ensures { Gives result (handed.import_expression R.expression R.primary R.arguments R.template context self.now.parser.now.text.now calls levels at) }
    {
        let (word, at) = expect(self.parser.text, Kind::Import, at)?;
        if !is_dot(peek(self.parser.text, Goal::Div, at).kind) {
            return self.import_call(context, calls, levels, word, at);
        }
        let (part, at) = dot_word(self.parser.text, b"meta", at)?;
        if part.levels >= levels {
            return Err(Fault::NoTree(at));
        }
        let levels = part.levels + 1;
        let (dot, name) = part.tree;
        let tree = Expression::MetaProperty(word, dot, name);
        Ok((Node { tree, levels }, at))
    }

    /// What a chain begins with.
    #[cycle(left)]
    #[tactic(auto, unfolding(esb_access_laws::specs::Access::origin))]
    fn origin(
        &self,
        context: Context,
        calls: bool,
        levels: usize,
        at: usize,
    ) -> Reading<Node<Expression>>
        requires inner { ReadsExpressions R.expression self.now.parser.now.levels (F.pre self.now.parser.now.expression) (F.post self.now.parser.now.expression) }
        requires primaries { ReadsParts R.primary self.now.parser.now.levels (P.pre self.now.primary) (P.post self.now.primary) }
        requires lists { ReadsParts R.arguments self.now.parser.now.levels (A.pre self.now.arguments) (A.post self.now.arguments) }
        requires templates { ReadsParts R.template self.now.parser.now.levels (T.pre self.now.template) (T.post self.now.template) }
        requires fits { levels ≤ self.now.parser.now.levels }
        ensures { Gives result (handed.origin R.expression R.primary R.arguments R.template context self.now.parser.now.text.now calls levels at) }
    {
        let kind = peek(self.parser.text, Goal::Div, at).kind;
        if is_new(kind) {
            return self.new_expression(context, levels, at);
        }
        if is_import(kind) {
            return self.import_expression(context, calls, levels, at);
        }
        if is_super(kind) {
            let (word, at) = expect(self.parser.text, Kind::Super, at)?;
            let tree = Expression::Primary(word);
            return Ok((Node { tree, levels: 0 }, at));
        }
        self.read_primary(context, levels, at)
    }

    /// An origin and its links.
    #[cycle(left)]
    fn accessed(
        &self,
        context: Context,
        calls: bool,
        levels: usize,
        at: usize,
    ) -> Reading<Node<Expression>>
        requires inner { ReadsExpressions R.expression self.now.parser.now.levels (F.pre self.now.parser.now.expression) (F.post self.now.parser.now.expression) }
        requires primaries { ReadsParts R.primary self.now.parser.now.levels (P.pre self.now.primary) (P.post self.now.primary) }
        requires lists { ReadsParts R.arguments self.now.parser.now.levels (A.pre self.now.arguments) (A.post self.now.arguments) }
        requires templates { ReadsParts R.template self.now.parser.now.levels (T.pre self.now.template) (T.post self.now.template) }
        requires fits { levels ≤ self.now.parser.now.levels }
        ensures { Gives result (handed.accessed R.expression R.primary R.arguments R.template context self.now.parser.now.text.now levels calls (handed.origin R.expression R.primary R.arguments R.template context self.now.parser.now.text.now calls levels) at) }
    {
        let (first, at) = self.origin(context, calls, levels, at)?;
        self.links_behind(context, calls, levels, first, at)
    }

    /// A LeftHandSideExpression, and without calls a MemberExpression or a NewExpression (12.3).
    #[cycle(left)]
    pub fn left(
        &self,
        context: Context,
        calls: bool,
        levels: usize,
        at: usize,
    ) -> Reading<Node<Expression>>
        requires inner { ReadsExpressions R.expression self.now.parser.now.levels (F.pre self.now.parser.now.expression) (F.post self.now.parser.now.expression) }
        requires primaries { ReadsParts R.primary self.now.parser.now.levels (P.pre self.now.primary) (P.post self.now.primary) }
        requires lists { ReadsParts R.arguments self.now.parser.now.levels (A.pre self.now.arguments) (A.post self.now.arguments) }
        requires templates { ReadsParts R.template self.now.parser.now.levels (T.pre self.now.template) (T.post self.now.template) }
        requires fits { levels ≤ self.now.parser.now.levels }
        ensures { Gives result (handed.left R.expression R.primary R.arguments R.template context self.now.parser.now.text.now calls levels at) }
    {
        self.accessed(context, calls, levels, at)
    }
}
