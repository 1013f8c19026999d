//! The tokens of a tree, in the order of its text.

ghost use Rattle.std.specs.Prelude.{[], ◌∷◌};
ghost use Rattle.std.specs.List.{flat_map};
ghost use Rattle.esb_tree.specs.Gathered.{Adds};
ghost use Rattle.esb_tree.specs.Trees.{completed};
ghost use Rattle.esb_tree.specs.Yields as spec;

use crate::classes::{Class, ClassElement, Heritage};
use crate::expressions::{Expression, Link, Operand, Substitution, Substitutions};
use crate::functions::{ConciseBody, Function, Method};
use crate::gathered::{Gathered, put, put_end, put_maybe};
use crate::patterns::{Bracketed, Element, Elements, NextElement, PropertyName};
use crate::statements::{
    Block, CaseClause, Declaration, Else, ElseIf, Finalizer, ForStart, Handler, IfClause,
    MaybeExpression, Statement,
};

#[cycle(tokens)]
pub fn put_class_element(x: &ClassElement, out: &mut Gathered)
    ensures { Adds (spec.tokens_of_class_element completed x.now) out.old out.new }
{
    match x {
        ClassElement::ClassMethod(word, method) => {
            put_maybe(*word, out);
            put_method(method, out);
        }
        ClassElement::EmptyElement(semicolon) => put(*semicolon, out),
    }
}

#[cycle(tokens)]
pub fn put_heritage(x: &Heritage, out: &mut Gathered)
    ensures { Adds (spec.tokens_of_heritage completed x.now) out.old out.new }
{
    match x {
        Heritage::NoHeritage => {}
        Heritage::Extends(word, x) => {
            put(*word, out);
            put_expression(x, out);
        }
    }
}

#[cycle(tokens)]
pub fn put_expression(x: &Expression, out: &mut Gathered)
    ensures { Adds (spec.tokens_of_expression completed x.now) out.old out.new }
{
    match x {
        Expression::Primary(t) => put(*t, out),
        Expression::MetaProperty(word, dot, name) => {
            put(*word, out);
            put(*dot, out);
            put(*name, out);
        }
        Expression::ArrayLiteral(list) => put_bracketed(list.get(), out),
        Expression::ObjectLiteral(list) => put_bracketed(list.get(), out),
        Expression::Parenthesized(list) => put_bracketed(list.get(), out),
        Expression::TemplateLiteral(template) => put_substitutions(template.get(), out),
        Expression::FunctionExpression(function) => put_function(function.get(), out),
        Expression::ClassExpression(class) => put_class(class.get(), out),
        Expression::Member(object, links) => {
            put_expression(object.get(), out);
            put_links(links.as_slice(), out);
        }
        Expression::New(word, callee, arguments) => {
            put(*word, out);
            put_expression(callee.get(), out);
            put_bracketed(arguments.get(), out);
        }
        Expression::NewPlain(word, callee) => {
            put(*word, out);
            put_expression(callee.get(), out);
        }
        Expression::ImportCall(word, begin, x, ending) => {
            put(*word, out);
            put(*begin, out);
            put_expression(x.get(), out);
            put(*ending, out);
        }
        Expression::PrefixUpdate(operator, x) => {
            put(*operator, out);
            put_expression(x.get(), out);
        }
        Expression::PostfixUpdate(x, operator) => {
            put_expression(x.get(), out);
            put(*operator, out);
        }
        Expression::Unary(operator, x) => {
            put(*operator, out);
            put_expression(x.get(), out);
        }
        Expression::Await(word, x) => {
            put(*word, out);
            put_expression(x.get(), out);
        }
        Expression::Binary(first, rest) => {
            put_expression(first.get(), out);
            put_operands(rest.as_slice(), out);
        }
        Expression::Conditional(test, question, x, colon, other) => {
            put_expression(test.get(), out);
            put(*question, out);
            put_expression(x.get(), out);
            put(*colon, out);
            put_expression(other.get(), out);
        }
        Expression::Assignment(target, operator, x) => {
            put_expression(target.get(), out);
            put(*operator, out);
            put_expression(x.get(), out);
        }
        Expression::Arrow(head, arrow, body) => {
            put_expression(head.get(), out);
            put(*arrow, out);
            put_concise_body(body.get(), out);
        }
        Expression::AsyncArrow(word, name, arrow, body) => {
            put(*word, out);
            put(*name, out);
            put(*arrow, out);
            put_concise_body(body.get(), out);
        }
        Expression::Yield(word) => put(*word, out),
        Expression::YieldValue(word, x) => {
            put(*word, out);
            put_expression(x.get(), out);
        }
        Expression::YieldEach(word, star, x) => {
            put(*word, out);
            put(*star, out);
            put_expression(x.get(), out);
        }
    }
}

#[cycle(tokens)]
pub fn put_link(x: &Link, out: &mut Gathered)
    ensures { Adds (spec.tokens_of_link completed x.now) out.old out.new }
{
    match x {
        Link::Dot(dot, name) => {
            put(*dot, out);
            put(*name, out);
        }
        Link::Index(begin, x, ending) => {
            put(*begin, out);
            put_expression(x, out);
            put(*ending, out);
        }
        Link::Call(arguments) => put_bracketed(arguments, out),
        Link::Tagged(template) => put(*template, out),
        Link::TaggedTemplate(template) => put_substitutions(template, out),
        Link::OptionalDot(dot, name) => {
            put(*dot, out);
            put(*name, out);
        }
        Link::OptionalIndex(dot, begin, x, ending) => {
            put(*dot, out);
            put(*begin, out);
            put_expression(x, out);
            put(*ending, out);
        }
        Link::OptionalCall(dot, arguments) => {
            put(*dot, out);
            put_bracketed(arguments, out);
        }
    }
}

#[cycle(tokens)]
pub fn put_concise_body(x: &ConciseBody, out: &mut Gathered)
    ensures { Adds (spec.tokens_of_concise_body completed x.now) out.old out.new }
{
    match x {
        ConciseBody::ConciseValue(x) => put_expression(x, out),
        ConciseBody::ConciseBlock(block) => put_block(block, out),
    }
}

#[cycle(tokens)]
pub fn put_element(x: &Element, out: &mut Gathered)
    ensures { Adds (spec.tokens_of_element completed x.now) out.old out.new }
{
    match x {
        Element::Hole => {}
        Element::Value(x) => put_expression(x, out),
        Element::Spread(dots, x) => {
            put(*dots, out);
            put_expression(x, out);
        }
        Element::Shorthand(name) => put(*name, out),
        Element::Initialized(name, sign, x) => {
            put(*name, out);
            put(*sign, out);
            put_expression(x, out);
        }
        Element::Property(name, colon, x) => {
            put_property_name(name, out);
            put(*colon, out);
            put_expression(x, out);
        }
        Element::MethodProperty(method) => put_method(method.get(), out),
    }
}

#[cycle(tokens)]
pub fn put_property_name(x: &PropertyName, out: &mut Gathered)
    ensures { Adds (spec.tokens_of_property_name completed x.now) out.old out.new }
{
    match x {
        PropertyName::Named(name) => put(*name, out),
        PropertyName::Computed(begin, x, ending) => {
            put(*begin, out);
            put_expression(x, out);
            put(*ending, out);
        }
    }
}

#[cycle(tokens)]
pub fn put_case_clause(x: &CaseClause, out: &mut Gathered)
    ensures { Adds (spec.tokens_of_case_clause completed x.now) out.old out.new }
{
    match x {
        CaseClause::Case(word, x, colon, body) => {
            put(*word, out);
            put_expression(x, out);
            put(*colon, out);
            put_statements(body.as_slice(), out);
        }
        CaseClause::Default(word, colon, body) => {
            put(*word, out);
            put(*colon, out);
            put_statements(body.as_slice(), out);
        }
    }
}

#[cycle(tokens)]
pub fn put_else(x: &Else, out: &mut Gathered)
    ensures { Adds (spec.tokens_of_else completed x.now) out.old out.new }
{
    match x {
        Else::NoElse => {}
        Else::Otherwise(word, body) => {
            put(*word, out);
            put_statement(body.get(), out);
        }
    }
}

#[cycle(tokens)]
pub fn put_finalizer(x: &Finalizer, out: &mut Gathered)
    ensures { Adds (spec.tokens_of_finalizer completed x.now) out.old out.new }
{
    match x {
        Finalizer::NoFinalizer => {}
        Finalizer::Finally(word, block) => {
            put(*word, out);
            put_block(block, out);
        }
    }
}

#[cycle(tokens)]
pub fn put_for_start(x: &ForStart, out: &mut Gathered)
    ensures { Adds (spec.tokens_of_for_start completed x.now) out.old out.new }
{
    match x {
        ForStart::NoStart => {}
        ForStart::StartExpression(x) => put_expression(x, out),
        ForStart::StartDeclaration(declaration) => put_declaration(declaration, out),
    }
}

#[cycle(tokens)]
pub fn put_handler(x: &Handler, out: &mut Gathered)
    ensures { Adds (spec.tokens_of_handler completed x.now) out.old out.new }
{
    match x {
        Handler::NoHandler => {}
        Handler::Catch(word, block) => {
            put(*word, out);
            put_block(block, out);
        }
        Handler::CatchParameter(word, begin, x, ending, block) => {
            put(*word, out);
            put(*begin, out);
            put_expression(x, out);
            put(*ending, out);
            put_block(block, out);
        }
    }
}

#[cycle(tokens)]
pub fn put_maybe_expression(x: &MaybeExpression, out: &mut Gathered)
    ensures { Adds (spec.tokens_of_maybe_expression completed x.now) out.old out.new }
{
    match x {
        MaybeExpression::Absent => {}
        MaybeExpression::Present(x) => put_expression(x, out),
    }
}

#[cycle(tokens)]
pub fn put_statement(x: &Statement, out: &mut Gathered)
    ensures { Adds (spec.tokens_of_statement completed x.now) out.old out.new }
{
    match x {
        Statement::BlockStatement(block) => put_block(block, out),
        Statement::Variables(declaration, end) => {
            put_declaration(declaration, out);
            put_end(*end, out);
        }
        Statement::Empty(semicolon) => put(*semicolon, out),
        Statement::ExpressionStatement(x, end) => {
            put_expression(x, out);
            put_end(*end, out);
        }
        Statement::If(clause, rest, last) => {
            put_if_clause(clause, out);
            put_else_ifs(rest.as_slice(), out);
            put_else(last, out);
        }
        Statement::DoWhile(word, body, while_word, begin, x, ending, end) => {
            put(*word, out);
            put_statement(body.get(), out);
            put(*while_word, out);
            put(*begin, out);
            put_expression(x, out);
            put(*ending, out);
            put_end(*end, out);
        }
        Statement::While(word, begin, x, ending, body) => {
            put(*word, out);
            put(*begin, out);
            put_expression(x, out);
            put(*ending, out);
            put_statement(body.get(), out);
        }
        Statement::For(word, begin, start, first, test, second, step, ending, body) => {
            put(*word, out);
            put(*begin, out);
            put_for_start(start, out);
            put(*first, out);
            put_maybe_expression(test, out);
            put(*second, out);
            put_maybe_expression(step, out);
            put(*ending, out);
            put_statement(body.get(), out);
        }
        Statement::ForEach(word, await_word, begin, start, middle, x, ending, body) => {
            put(*word, out);
            put_maybe(*await_word, out);
            put(*begin, out);
            put_for_start(start, out);
            put(*middle, out);
            put_expression(x, out);
            put(*ending, out);
            put_statement(body.get(), out);
        }
        Statement::Continue(word, label, end) => {
            put(*word, out);
            put_maybe(*label, out);
            put_end(*end, out);
        }
        Statement::Break(word, label, end) => {
            put(*word, out);
            put_maybe(*label, out);
            put_end(*end, out);
        }
        Statement::Return(word, x, end) => {
            put(*word, out);
            put_maybe_expression(x, out);
            put_end(*end, out);
        }
        Statement::Switch(word, begin, x, ending, left, clauses, right) => {
            put(*word, out);
            put(*begin, out);
            put_expression(x, out);
            put(*ending, out);
            put(*left, out);
            put_case_clauses(clauses.as_slice(), out);
            put(*right, out);
        }
        Statement::Labelled(label, colon, body) => {
            put(*label, out);
            put(*colon, out);
            put_statement(body.get(), out);
        }
        Statement::Throw(word, x, end) => {
            put(*word, out);
            put_expression(x, out);
            put_end(*end, out);
        }
        Statement::Try(word, block, handler, finalizer) => {
            put(*word, out);
            put_block(block, out);
            put_handler(handler, out);
            put_finalizer(finalizer, out);
        }
        Statement::Debugger(word, end) => {
            put(*word, out);
            put_end(*end, out);
        }
        Statement::FunctionDeclaration(function) => put_function(function, out),
        Statement::ClassDeclaration(class) => put_class(class, out),
    }
}

#[cycle(tokens)]
pub fn put_class(x: &Class, out: &mut Gathered)
    ensures { Adds (spec.tokens_of_class completed x.now) out.old out.new }
{
    put(x.word, out);
    put_maybe(x.name, out);
    put_heritage(&x.heritage, out);
    put(x.begin, out);
    put_class_elements(x.elements.as_slice(), out);
    put(x.ending, out);
}

#[cycle(tokens)]
pub fn put_operand(x: &Operand, out: &mut Gathered)
    ensures { Adds (spec.tokens_of_operand completed x.now) out.old out.new }
{
    put(x.operator, out);
    put_expression(&x.value, out);
}

#[cycle(tokens)]
pub fn put_substitution(x: &Substitution, out: &mut Gathered)
    ensures { Adds (spec.tokens_of_substitution completed x.now) out.old out.new }
{
    put(x.middle, out);
    put_expression(&x.value, out);
}

#[cycle(tokens)]
pub fn put_substitutions(x: &Substitutions, out: &mut Gathered)
    ensures { Adds (spec.tokens_of_substitutions completed x.now) out.old out.new }
{
    put(x.head, out);
    put_expression(&x.first, out);
    put_each_substitution(x.rest.as_slice(), out);
    put(x.tail, out);
}

#[cycle(tokens)]
pub fn put_function(x: &Function, out: &mut Gathered)
    ensures { Adds (spec.tokens_of_function completed x.now) out.old out.new }
{
    put_maybe(x.async_word, out);
    put(x.word, out);
    put_maybe(x.star, out);
    put_maybe(x.name, out);
    put_bracketed(&x.parameters, out);
    put_block(&x.body, out);
}

#[cycle(tokens)]
pub fn put_method(x: &Method, out: &mut Gathered)
    ensures { Adds (spec.tokens_of_method completed x.now) out.old out.new }
{
    put_maybe(x.word, out);
    put_maybe(x.star, out);
    put_property_name(&x.name, out);
    put_bracketed(&x.parameters, out);
    put_block(&x.body, out);
}

#[cycle(tokens)]
pub fn put_bracketed(x: &Bracketed, out: &mut Gathered)
    ensures { Adds (spec.tokens_of_bracketed completed x.now) out.old out.new }
{
    put(x.begin, out);
    put_elements(&x.list, out);
    put(x.ending, out);
}

#[cycle(tokens)]
pub fn put_elements(x: &Elements, out: &mut Gathered)
    ensures { Adds (spec.tokens_of_elements completed x.now) out.old out.new }
{
    put_element(&x.first, out);
    put_next_elements(x.rest.as_slice(), out);
}

#[cycle(tokens)]
pub fn put_next_element(x: &NextElement, out: &mut Gathered)
    ensures { Adds (spec.tokens_of_next_element completed x.now) out.old out.new }
{
    put(x.comma, out);
    put_element(&x.element, out);
}

#[cycle(tokens)]
pub fn put_block(x: &Block, out: &mut Gathered)
    ensures { Adds (spec.tokens_of_block completed x.now) out.old out.new }
{
    put(x.begin, out);
    put_statements(x.body.as_slice(), out);
    put(x.ending, out);
}

#[cycle(tokens)]
pub fn put_declaration(x: &Declaration, out: &mut Gathered)
    ensures { Adds (spec.tokens_of_declaration completed x.now) out.old out.new }
{
    put(x.word, out);
    put_elements(&x.bindings, out);
}

#[cycle(tokens)]
pub fn put_else_if(x: &ElseIf, out: &mut Gathered)
    ensures { Adds (spec.tokens_of_else_if completed x.now) out.old out.new }
{
    put(x.else_word, out);
    put_if_clause(&x.clause, out);
}

#[cycle(tokens)]
pub fn put_if_clause(x: &IfClause, out: &mut Gathered)
    ensures { Adds (spec.tokens_of_if_clause completed x.now) out.old out.new }
{
    put(x.word, out);
    put(x.begin, out);
    put_expression(&x.condition, out);
    put(x.ending, out);
    put_statement(x.body.get(), out);
}

#[cycle(tokens)]
fn put_case_clauses(items: &[CaseClause], out: &mut Gathered)
    ensures { Adds (flat_map (spec.tokens_of_case_clause completed) items.now) out.old out.new }
{
    for item in items {
        put_case_clause(item, out);
    }
}

#[cycle(tokens)]
fn put_class_elements(items: &[ClassElement], out: &mut Gathered)
    ensures { Adds (flat_map (spec.tokens_of_class_element completed) items.now) out.old out.new }
{
    for item in items {
        put_class_element(item, out);
    }
}

#[cycle(tokens)]
fn put_else_ifs(items: &[ElseIf], out: &mut Gathered)
    ensures { Adds (flat_map (spec.tokens_of_else_if completed) items.now) out.old out.new }
{
    for item in items {
        put_else_if(item, out);
    }
}

#[cycle(tokens)]
fn put_links(items: &[Link], out: &mut Gathered)
    ensures { Adds (flat_map (spec.tokens_of_link completed) items.now) out.old out.new }
{
    for item in items {
        put_link(item, out);
    }
}

#[cycle(tokens)]
fn put_next_elements(items: &[NextElement], out: &mut Gathered)
    ensures { Adds (flat_map (spec.tokens_of_next_element completed) items.now) out.old out.new }
{
    for item in items {
        put_next_element(item, out);
    }
}

#[cycle(tokens)]
fn put_operands(items: &[Operand], out: &mut Gathered)
    ensures { Adds (flat_map (spec.tokens_of_operand completed) items.now) out.old out.new }
{
    for item in items {
        put_operand(item, out);
    }
}

#[cycle(tokens)]
fn put_statements(items: &[Statement], out: &mut Gathered)
    ensures { Adds (flat_map (spec.tokens_of_statement completed) items.now) out.old out.new }
{
    for item in items {
        put_statement(item, out);
    }
}

#[cycle(tokens)]
fn put_each_substitution(items: &[Substitution], out: &mut Gathered)
    ensures { Adds (flat_map (spec.tokens_of_substitution completed) items.now) out.old out.new }
{
    for item in items {
        put_substitution(item, out);
    }
}
