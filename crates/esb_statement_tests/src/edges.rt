//! The edges of an expression: the token with which it begins, the one with which it ends, and whether it is one token. Each is
//! found by a walk along that edge of the tree.

ghost use Rattle.std.specs.Prelude.{◌≡◌};
ghost use Rattle.esb_grammar.specs.Edges as edges;
ghost use Rattle.esb_grammar.specs.Kinds as kinds;
ghost use Rattle.esb_grammar.specs.Semicolons as semicolons;
ghost use Rattle.esb_grammar.specs.Words as words;
ghost use Rattle.esb_statement_tests.specs.Last.{last_or};
ghost use Rattle.esb_token.specs.declared.token.Token.{Token as AnyToken};
ghost use Rattle.esb_tree.specs.Trees.{written};
ghost use Rattle.esb_tree.specs.Yields.{tokens_of_concise_body, tokens_of_expression, tokens_of_function, tokens_of_link, tokens_of_operand};

use crate::kinds::{is_let, is_update};
use esb_token::{Kind, Token};
use esb_tree::{ConciseBody, Expression, Function, Link};

/// Whether an expression ends with the block of an arrow function, or with a `yield` that has no operand.
#[cycle(endings)]
pub(crate) fn ends_assignment(x: &Expression) -> bool
    ensures { result ≡ edges.ends_assignment x.now }
{
    match x {
        Expression::Primary(_) => false,
        Expression::MetaProperty(_, _, _) => false,
        Expression::ArrayLiteral(_) => false,
        Expression::ObjectLiteral(_) => false,
        Expression::Parenthesized(_) => false,
        Expression::TemplateLiteral(_) => false,
        Expression::FunctionExpression(_) => false,
        Expression::ClassExpression(_) => false,
        Expression::Member(_, _) => false,
        Expression::New(_, _, _) => false,
        Expression::NewPlain(_, _) => false,
        Expression::ImportCall(_, _, _, _) => false,
        Expression::PrefixUpdate(_, _) => false,
        Expression::PostfixUpdate(_, _) => false,
        Expression::Unary(_, _) => false,
        Expression::Await(_, _) => false,
        Expression::Binary(_, rest) => match rest.as_slice() {
            [.., last] => ends_assignment(&last.value),
            [] => false,
        },
        Expression::Conditional(_, _, _, _, x) => ends_assignment(x.get()),
        Expression::Assignment(_, _, x) => ends_assignment(x.get()),
        Expression::Arrow(_, _, body) => body_ends_assignment(body.get()),
        Expression::AsyncArrow(_, _, _, body) => body_ends_assignment(body.get()),
        Expression::Yield(_) => true,
        Expression::YieldValue(_, x) => ends_assignment(x.get()),
        Expression::YieldEach(_, _, x) => ends_assignment(x.get()),
    }
}

#[cycle(endings)]
fn body_ends_assignment(body: &ConciseBody) -> bool
    ensures { result ≡ edges.body_ends_assignment body.now }
{
    match body {
        ConciseBody::ConciseValue(x) => ends_assignment(x),
        ConciseBody::ConciseBlock(_) => true,
    }
}

/// The last token of what goes on with a chain.
fn last_of_link(link: &Link) -> Token
    ensures { (before : AnyToken) → last_or before (tokens_of_link written link.now) ≡ result }
{
    match link {
        Link::Dot(_, name) => *name,
        Link::Index(_, _, ending) => *ending,
        Link::Call(arguments) => arguments.ending,
        Link::Tagged(template) => *template,
        Link::TaggedTemplate(template) => template.tail,
        Link::OptionalDot(_, name) => *name,
        Link::OptionalIndex(_, _, _, ending) => *ending,
        Link::OptionalCall(_, arguments) => arguments.ending,
    }
}

/// The last token of an expression and of a token before it.
#[cycle(lasts)]
fn last_token(before: Token, x: &Expression) -> Token
    ensures { result ≡ last_or before (tokens_of_expression written x.now) }
{
    match x {
        Expression::Primary(token) => *token,
        Expression::MetaProperty(_, _, name) => *name,
        Expression::ArrayLiteral(list) => list.get().ending,
        Expression::ObjectLiteral(list) => list.get().ending,
        Expression::Parenthesized(list) => list.get().ending,
        Expression::TemplateLiteral(template) => template.get().tail,
        Expression::FunctionExpression(function) => function.get().body.ending,
        Expression::ClassExpression(class) => class.get().ending,
        Expression::Member(object, links) => match links.as_slice() {
            [.., last] => last_of_link(last),
            [] => last_token(before, object.get()),
        },
        Expression::New(_, _, arguments) => arguments.get().ending,
        Expression::NewPlain(word, callee) => last_token(*word, callee.get()),
        Expression::ImportCall(_, _, _, ending) => *ending,
        Expression::PrefixUpdate(operator, x) => last_token(*operator, x.get()),
        Expression::PostfixUpdate(_, operator) => *operator,
        Expression::Unary(operator, x) => last_token(*operator, x.get()),
        Expression::Await(word, x) => last_token(*word, x.get()),
        Expression::Binary(first, rest) => match rest.as_slice() {
            [.., last] => last_token(last.operator, &last.value),
            [] => last_token(before, first.get()),
        },
        Expression::Conditional(_, _, _, colon, x) => last_token(*colon, x.get()),
        Expression::Assignment(_, operator, x) => last_token(*operator, x.get()),
        Expression::Arrow(_, arrow, body) => last_of_body(*arrow, body.get()),
        Expression::AsyncArrow(_, _, arrow, body) => last_of_body(*arrow, body.get()),
        Expression::Yield(word) => *word,
        Expression::YieldValue(word, x) => last_token(*word, x.get()),
        Expression::YieldEach(_, star, x) => last_token(*star, x.get()),
    }
}

#[cycle(lasts)]
fn last_of_body(before: Token, body: &ConciseBody) -> Token
    ensures { result ≡ last_or before (tokens_of_concise_body written body.now) }
{
    match body {
        ConciseBody::ConciseValue(x) => last_token(before, x),
        ConciseBody::ConciseBlock(block) => block.ending,
    }
}

/// Whether an expression ends with `++` or `--`.
pub(crate) fn ends_with_update(x: &Expression) -> bool
    ensures { result ≡ semicolons.ends_with kinds.is_update (tokens_of_expression written x.now) }
{
    let nothing = Token {
        kind: Kind::End,
        start: 0,
        end: 0,
        after_line: false,
    };
    is_update(last_token(nothing, x).kind)
}

/// Whether an expression is the token `let` alone.
#[cycle(alone)]
pub(crate) fn is_let_alone(x: &Expression) -> bool
    ensures { result ≡ semicolons.is_one kinds.is_let (tokens_of_expression written x.now) }
{
    match x {
        Expression::Primary(token) => is_let(token.kind),
        Expression::Yield(word) => is_let(word.kind),
        Expression::Member(object, links) => match links.as_slice() {
            [] => is_let_alone(object.get()),
            [_, ..] => false,
        },
        Expression::Binary(first, rest) => match rest.as_slice() {
            [] => is_let_alone(first.get()),
            [_, ..] => false,
        },
        Expression::MetaProperty(_, _, _) => false,
        Expression::ArrayLiteral(_) => false,
        Expression::ObjectLiteral(_) => false,
        Expression::Parenthesized(_) => false,
        Expression::TemplateLiteral(_) => false,
        Expression::FunctionExpression(_) => false,
        Expression::ClassExpression(_) => false,
        Expression::New(_, _, _) => false,
        Expression::NewPlain(_, _) => false,
        Expression::ImportCall(_, _, _, _) => false,
        Expression::PrefixUpdate(_, _) => false,
        Expression::PostfixUpdate(_, _) => false,
        Expression::Unary(_, _) => false,
        Expression::Await(_, _) => false,
        Expression::Conditional(_, _, _, _, _) => false,
        Expression::Assignment(_, _, _) => false,
        Expression::Arrow(_, _, _) => false,
        Expression::AsyncArrow(_, _, _, _) => false,
        Expression::YieldValue(_, _) => false,
        Expression::YieldEach(_, _, _) => false,
    }
}

fn first_of_function(function: &Function) -> Token
    ensures { words.begins_let (tokens_of_function written function.now) ≡ kinds.is_let result.kind }
{
    match function.async_word {
        Some(word) => word,
        None => function.word,
    }
}

/// Whether an expression begins with `let`.
#[cycle(firsts)]
pub(crate) fn begins_let(x: &Expression) -> bool
    ensures { result ≡ words.begins_let (tokens_of_expression written x.now) }
{
    match x {
        Expression::Primary(token) => is_let(token.kind),
        Expression::MetaProperty(word, _, _) => is_let(word.kind),
        Expression::ArrayLiteral(list) => is_let(list.get().begin.kind),
        Expression::ObjectLiteral(list) => is_let(list.get().begin.kind),
        Expression::Parenthesized(list) => is_let(list.get().begin.kind),
        Expression::TemplateLiteral(template) => is_let(template.get().head.kind),
        Expression::FunctionExpression(function) => is_let(first_of_function(function.get()).kind),
        Expression::ClassExpression(class) => is_let(class.get().word.kind),
        Expression::Member(object, _) => begins_let(object.get()),
        Expression::New(word, _, _) => is_let(word.kind),
        Expression::NewPlain(word, _) => is_let(word.kind),
        Expression::ImportCall(word, _, _, _) => is_let(word.kind),
        Expression::PrefixUpdate(operator, _) => is_let(operator.kind),
        Expression::PostfixUpdate(x, _) => begins_let(x.get()),
        Expression::Unary(operator, _) => is_let(operator.kind),
        Expression::Await(word, _) => is_let(word.kind),
        Expression::Binary(first, _) => begins_let(first.get()),
        Expression::Conditional(test, _, _, _, _) => begins_let(test.get()),
        Expression::Assignment(target, _, _) => begins_let(target.get()),
        Expression::Arrow(head, _, _) => begins_let(head.get()),
        Expression::AsyncArrow(word, _, _, _) => is_let(word.kind),
        Expression::Yield(word) => is_let(word.kind),
        Expression::YieldValue(word, _) => is_let(word.kind),
        Expression::YieldEach(word, _, _) => is_let(word.kind),
    }
}
