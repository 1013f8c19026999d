//! The walk over a tree that finds the first breach.

ghost use Rattle.std.specs.Prelude.{◌≡◌, ◌&&◌, ◌||◌, map};
ghost use Rattle.esb_grammar.specs.Forms.{is_empty};
ghost use Rattle.esb_early_checks.specs.Findings.{Finds, behind, each, unlabelled};
ghost use Rattle.esb_early.specs.Rules as spec;
ghost use Rattle.esb_early_checks.specs.Shapes as shapes;

use crate::directives::check_strict;
use crate::repeated::check_names_of_head;
use crate::repeated::check_names_of_parameters;
use esb_early_checks::BracketedShape;
use esb_early_checks::ElementShape;
use esb_early_checks::ElementsShape;
use esb_early_checks::ExpressionShape;
use esb_early_checks::Found;
use esb_early_checks::Label;
use esb_early_checks::LinkShape;
use esb_early_checks::LinksShape;
use esb_early_checks::ListRole;
use esb_early_checks::Place;
use esb_early_checks::PropertyNameShape;
use esb_early_checks::Role;
use esb_early_checks::Setting;
use esb_early_checks::access_link;
use esb_early_checks::after_link;
use esb_early_checks::array_role;
use esb_early_checks::assigned_role;
use esb_early_checks::bracketed_shape;
use esb_early_checks::call_link;
use esb_early_checks::check_accessor;
use esb_early_checks::check_assignment;
use esb_early_checks::check_bound;
use esb_early_checks::check_break;
use esb_early_checks::check_constructor;
use esb_early_checks::check_continue;
use esb_early_checks::check_declared;
use esb_early_checks::check_delete;
use esb_early_checks::check_initialized;
use esb_early_checks::check_label;
use esb_early_checks::check_literal;
use esb_early_checks::check_member;
use esb_early_checks::check_meta;
use esb_early_checks::check_method_property;
use esb_early_checks::check_operator;
use esb_early_checks::check_parenthesized;
use esb_early_checks::check_primary;
use esb_early_checks::check_reference;
use esb_early_checks::check_return;
use esb_early_checks::check_second_constructor;
use esb_early_checks::check_second_proto;
use esb_early_checks::check_shorthand;
use esb_early_checks::check_spread;
use esb_early_checks::check_super;
use esb_early_checks::check_value;
use esb_early_checks::computed_shape;
use esb_early_checks::element_role;
use esb_early_checks::elements_shape;
use esb_early_checks::enter;
use esb_early_checks::hole_shape;
use esb_early_checks::is_prototype_method;
use esb_early_checks::key_of_prototype;
use esb_early_checks::leave;
use esb_early_checks::member_shape;
use esb_early_checks::named_shape;
use esb_early_checks::no_links;
use esb_early_checks::object_role;
use esb_early_checks::of_body;
use esb_early_checks::of_function;
use esb_early_checks::of_function_parameters;
use esb_early_checks::of_loop;
use esb_early_checks::of_method_parameters;
use esb_early_checks::of_named_method;
use esb_early_checks::of_parameters;
use esb_early_checks::of_switch;
use esb_early_checks::optional_link;
use esb_early_checks::other_element;
use esb_early_checks::other_shape;
use esb_early_checks::parenthesized_role;
use esb_early_checks::parenthesized_shape;
use esb_early_checks::placed;
use esb_early_checks::primary_shape;
use esb_early_checks::property_element;
use esb_early_checks::put_back;
use esb_early_checks::set_aside;
use esb_early_checks::spread_role;
use esb_early_checks::start_of_function;
use esb_early_checks::template_link;
use esb_early_checks::value_shape;
use esb_names::is_constructor;
use esb_names::is_proto_in;
use esb_token::Token;
use esb_tree::Block;
use esb_tree::Bracketed;
use esb_tree::CaseClause;
use esb_tree::Class;
use esb_tree::ClassElement;
use esb_tree::ConciseBody;
use esb_tree::Declaration;
use esb_tree::Element;
use esb_tree::Elements;
use esb_tree::Else;
use esb_tree::ElseIf;
use esb_tree::Expression;
use esb_tree::Finalizer;
use esb_tree::ForStart;
use esb_tree::Function;
use esb_tree::Handler;
use esb_tree::Heritage;
use esb_tree::IfClause;
use esb_tree::Link;
use esb_tree::MaybeExpression;
use esb_tree::Method;
use esb_tree::NextElement;
use esb_tree::Operand;
use esb_tree::PropertyName;
use esb_tree::Statement;
use esb_tree::Substitution;
use esb_tree::Substitutions;

#[cycle(walk)]
pub fn walk_class_element(
    text: &[u8],
    x: &ClassElement,
    setting: Setting,
    is_derived: bool,
    out: &mut Found,
) -> Option<Token>
    ensures shape { result ≡ spec.shape_of_class_element x.now }
    ensures breaches { Finds (spec.breaches_of_class_element x.now text.now setting is_derived) out.old out.new }
{
    match x {
        ClassElement::ClassMethod(word, method) => {
            let method = walk_method(
                text,
                method,
                setting,
                is_prototype_method(*word),
                is_derived,
                out,
            );
            key_of_prototype(*word, method)
        }
        ClassElement::EmptyElement(_) => None,
    }
}

#[cycle(walk)]
pub fn walk_heritage(text: &[u8], x: &Heritage, setting: Setting, out: &mut Found) -> bool
    ensures shape { result ≡ spec.shape_of_heritage x.now }
    ensures breaches { Finds (spec.breaches_of_heritage x.now text.now setting) out.old out.new }
{
    match x {
        Heritage::NoHeritage => false,
        Heritage::Extends(_, x) => {
            walk_expression(text, x, setting, Role::Value, out);
            true
        }
    }
}

#[cycle(walk)]
pub fn walk_expression(
    text: &[u8],
    x: &Expression,
    setting: Setting,
    role: Role,
    out: &mut Found,
) -> ExpressionShape
    ensures shape { result ≡ spec.shape_of_expression x.now }
    ensures breaches { Finds (spec.breaches_of_expression x.now text.now setting role) out.old out.new }
{
    match x {
        Expression::Primary(t) => {
            check_primary(text, *t, role, out);
            primary_shape(*t)
        }
        Expression::MetaProperty(word, _, _) => {
            check_meta(*word, setting, out);
            check_value(role, word.start, out);
            other_shape(word.start)
        }
        Expression::ArrayLiteral(list) => {
            let list = walk_bracketed(text, list.get(), setting, array_role(role), out);
            check_literal(role, list.start, out);
            other_shape(list.start)
        }
        Expression::ObjectLiteral(list) => {
            let list = walk_bracketed(text, list.get(), setting, object_role(role), out);
            check_literal(role, list.start, out);
            other_shape(list.start)
        }
        Expression::Parenthesized(list) => {
            let list = walk_bracketed(text, list.get(), setting, parenthesized_role(role), out);
            check_parenthesized(text, role, list, out);
            parenthesized_shape(list)
        }
        Expression::TemplateLiteral(template) => {
            let template = walk_substitutions(text, template.get(), setting, out);
            check_value(role, template, out);
            other_shape(template)
        }
        Expression::FunctionExpression(function) => {
            let function = walk_function(text, function.get(), setting, out);
            check_value(role, function, out);
            other_shape(function)
        }
        Expression::ClassExpression(class) => {
            let class = walk_class(text, class.get(), setting, out);
            check_value(role, class, out);
            other_shape(class)
        }
        Expression::Member(object, links) => {
            let object = walk_expression(text, object.get(), setting, Role::Value, out);
            let links = walk_links(text, links.as_slice(), setting, role, out);
            check_super(object.token, links.begins_with_call, setting, out);
            check_member(role, links, object.start, out);
            member_shape(object.start, links)
        }
        Expression::New(word, callee, arguments) => {
            walk_expression(text, callee.get(), setting, Role::Value, out);
            walk_bracketed(text, arguments.get(), setting, ListRole::Values, out);
            check_value(role, word.start, out);
            other_shape(word.start)
        }
        Expression::NewPlain(word, callee) => {
            walk_expression(text, callee.get(), setting, Role::Value, out);
            check_value(role, word.start, out);
            other_shape(word.start)
        }
        Expression::ImportCall(word, _, x, _) => {
            walk_expression(text, x.get(), setting, Role::Value, out);
            check_value(role, word.start, out);
            other_shape(word.start)
        }
        Expression::PrefixUpdate(operator, x) => {
            walk_expression(text, x.get(), setting, Role::Simple, out);
            check_value(role, operator.start, out);
            other_shape(operator.start)
        }
        Expression::PostfixUpdate(x, _) => {
            let x = walk_expression(text, x.get(), setting, Role::Simple, out);
            check_value(role, x.start, out);
            other_shape(x.start)
        }
        Expression::Unary(operator, x) => {
            let x = walk_expression(text, x.get(), setting, Role::Value, out);
            check_delete(*operator, x.name, out);
            check_value(role, operator.start, out);
            other_shape(operator.start)
        }
        Expression::Await(word, x) => {
            walk_expression(text, x.get(), setting, Role::Value, out);
            check_operator(*word, setting, out);
            check_value(role, word.start, out);
            other_shape(word.start)
        }
        Expression::Binary(first, rest) => {
            let first = walk_expression(text, first.get(), setting, Role::Value, out);
            walk_operands(text, rest.as_slice(), setting, out);
            check_value(role, first.start, out);
            other_shape(first.start)
        }
        Expression::Conditional(test, _, x, _, other) => {
            let test = walk_expression(text, test.get(), setting, Role::Value, out);
            walk_expression(text, x.get(), setting, Role::Value, out);
            walk_expression(text, other.get(), setting, Role::Value, out);
            check_value(role, test.start, out);
            other_shape(test.start)
        }
        Expression::Assignment(target, operator, x) => {
            let target = walk_expression(
                text,
                target.get(),
                setting,
                assigned_role(operator.kind),
                out,
            );
            walk_expression(text, x.get(), setting, Role::Value, out);
            check_assignment(role, *operator, target.start, out);
            other_shape(target.start)
        }
        Expression::Arrow(head, _, body) => {
            check_names_of_head(text, head.get(), out);
            let head = walk_expression(
                text,
                head.get(),
                of_parameters(setting),
                Role::Parameters,
                out,
            );
            walk_concise_body(text, body.get(), of_body(setting), head.is_plain, out);
            check_value(role, head.start, out);
            other_shape(head.start)
        }
        Expression::AsyncArrow(word, name, _, body) => {
            check_bound(text, *name, out);
            walk_concise_body(text, body.get(), of_body(setting), true, out);
            check_value(role, word.start, out);
            other_shape(word.start)
        }
        Expression::Yield(word) => {
            check_operator(*word, setting, out);
            check_value(role, word.start, out);
            other_shape(word.start)
        }
        Expression::YieldValue(word, x) => {
            walk_expression(text, x.get(), setting, Role::Value, out);
            check_operator(*word, setting, out);
            check_value(role, word.start, out);
            other_shape(word.start)
        }
        Expression::YieldEach(word, _, x) => {
            walk_expression(text, x.get(), setting, Role::Value, out);
            check_operator(*word, setting, out);
            check_value(role, word.start, out);
            other_shape(word.start)
        }
    }
}

#[cycle(walk)]
pub fn walk_link(text: &[u8], x: &Link, setting: Setting, role: Role, out: &mut Found) -> LinkShape
    ensures shape { result ≡ spec.shape_of_link x.now }
    ensures breaches { Finds (spec.breaches_of_link x.now text.now setting role) out.old out.new }
{
    match x {
        Link::Dot(_, _) => access_link(),
        Link::Index(_, x, _) => {
            walk_expression(text, x, setting, Role::Value, out);
            access_link()
        }
        Link::Call(arguments) => {
            let arguments = walk_bracketed(text, arguments, setting, parenthesized_role(role), out);
            call_link(arguments.is_plain)
        }
        Link::Tagged(_) => template_link(),
        Link::TaggedTemplate(template) => {
            walk_substitutions(text, template, setting, out);
            template_link()
        }
        Link::OptionalDot(_, _) => optional_link(),
        Link::OptionalIndex(_, _, x, _) => {
            walk_expression(text, x, setting, Role::Value, out);
            optional_link()
        }
        Link::OptionalCall(_, arguments) => {
            walk_bracketed(text, arguments, setting, ListRole::Values, out);
            optional_link()
        }
    }
}

#[cycle(walk)]
pub fn walk_concise_body(
    text: &[u8],
    x: &ConciseBody,
    setting: Setting,
    is_plain: bool,
    out: &mut Found,
)
    ensures { Finds (spec.breaches_of_concise_body x.now text.now setting is_plain) out.old out.new }
{
    match x {
        ConciseBody::ConciseValue(x) => {
            walk_expression(text, x, setting, Role::Value, out);
        }
        ConciseBody::ConciseBlock(block) => {
            walk_body(text, block, setting, out);
            check_strict(text, is_plain, block, out);
        }
    }
}

#[cycle(walk)]
pub fn walk_element(
    text: &[u8],
    x: &Element,
    setting: Setting,
    place: Place,
    out: &mut Found,
) -> ElementShape
    ensures shape { result ≡ spec.shape_of_element x.now }
    ensures breaches { Finds (spec.breaches_of_element x.now text.now setting place) out.old out.new }
{
    match x {
        Element::Hole => hole_shape(),
        Element::Value(x) => {
            let x = walk_expression(text, x, setting, element_role(place), out);
            value_shape(x)
        }
        Element::Spread(_, x) => {
            walk_expression(text, x, setting, spread_role(place), out);
            check_spread(place, out);
            other_element()
        }
        Element::Shorthand(name) => {
            check_shorthand(text, *name, place, out);
            other_element()
        }
        Element::Initialized(name, sign, x) => {
            walk_expression(text, x, setting, Role::Value, out);
            check_initialized(text, *name, *sign, place, out);
            other_element()
        }
        Element::Property(name, _, x) => {
            let name = walk_property_name(text, name, setting, out);
            walk_expression(text, x, setting, element_role(place), out);
            property_element(name.key)
        }
        Element::MethodProperty(method) => {
            walk_method(text, method.get(), setting, false, false, out);
            check_method_property(place, out);
            other_element()
        }
    }
}

#[cycle(walk)]
pub fn walk_property_name(
    text: &[u8],
    x: &PropertyName,
    setting: Setting,
    out: &mut Found,
) -> PropertyNameShape
    ensures shape { result ≡ spec.shape_of_property_name x.now }
    ensures breaches { Finds (spec.breaches_of_property_name x.now text.now setting) out.old out.new }
{
    match x {
        PropertyName::Named(name) => named_shape(*name),
        PropertyName::Computed(begin, x, _) => {
            walk_expression(text, x, setting, Role::Value, out);
            computed_shape(*begin)
        }
    }
}

#[cycle(walk)]
pub fn walk_case_clause(text: &[u8], x: &CaseClause, setting: Setting, out: &mut Found)
    ensures { Finds (spec.breaches_of_case_clause x.now text.now setting) out.old out.new }
{
    match x {
        CaseClause::Case(_, x, _, body) => {
            walk_expression(text, x, setting, Role::Value, out);
            walk_statements(text, body.as_slice(), setting, out);
        }
        CaseClause::Default(_, _, body) => walk_statements(text, body.as_slice(), setting, out),
    }
}

#[cycle(walk)]
pub fn walk_else(text: &[u8], x: &Else, setting: Setting, out: &mut Found)
    ensures { Finds (spec.breaches_of_else x.now text.now setting) out.old out.new }
{
    match x {
        Else::NoElse => {}
        Else::Otherwise(_, body) => walk_statement(text, body.get(), setting, out),
    }
}

#[cycle(walk)]
pub fn walk_finalizer(text: &[u8], x: &Finalizer, setting: Setting, out: &mut Found)
    ensures { Finds (spec.breaches_of_finalizer x.now text.now setting) out.old out.new }
{
    match x {
        Finalizer::NoFinalizer => {}
        Finalizer::Finally(_, block) => walk_block(text, block, setting, out),
    }
}

#[cycle(walk)]
pub fn walk_for_start(text: &[u8], x: &ForStart, setting: Setting, role: Role, out: &mut Found)
    ensures { Finds (spec.breaches_of_for_start x.now text.now setting role) out.old out.new }
{
    match x {
        ForStart::NoStart => {}
        ForStart::StartExpression(x) => {
            walk_expression(text, x, setting, role, out);
        }
        ForStart::StartDeclaration(declaration) => walk_declaration(
            text,
            declaration,
            setting,
            out,
        ),
    }
}

#[cycle(walk)]
pub fn walk_handler(text: &[u8], x: &Handler, setting: Setting, out: &mut Found)
    ensures { Finds (spec.breaches_of_handler x.now text.now setting) out.old out.new }
{
    match x {
        Handler::NoHandler => {}
        Handler::Catch(_, block) => walk_block(text, block, setting, out),
        Handler::CatchParameter(_, _, x, _, block) => {
            walk_expression(text, x, setting, Role::Target, out);
            walk_block(text, block, setting, out);
        }
    }
}

#[cycle(walk)]
pub fn walk_maybe_expression(text: &[u8], x: &MaybeExpression, setting: Setting, out: &mut Found)
    ensures { Finds (spec.breaches_of_maybe_expression x.now text.now setting) out.old out.new }
{
    match x {
        MaybeExpression::Absent => {}
        MaybeExpression::Present(x) => {
            walk_expression(text, x, setting, Role::Value, out);
        }
    }
}

#[cycle(walk)]
pub fn walk_statement(text: &[u8], x: &Statement, setting: Setting, out: &mut Found)
    ensures { Finds (spec.breaches_of_statement x.now text.now setting) out.old out.new }
{
    match x {
        Statement::BlockStatement(block) => walk_block(text, block, setting, out),
        Statement::Variables(declaration, _) => walk_declaration(text, declaration, setting, out),
        Statement::Empty(_) => {}
        Statement::ExpressionStatement(x, _) => {
            walk_expression(text, x, setting, Role::Value, out);
        }
        Statement::If(clause, rest, last) => {
            walk_if_clause(text, clause, setting, out);
            walk_else_ifs(text, rest.as_slice(), setting, out);
            walk_else(text, last, setting, out);
        }
        Statement::DoWhile(_, body, _, _, x, _, _) => {
            walk_statement(text, body.get(), of_loop(setting), out);
            walk_expression(text, x, setting, Role::Value, out);
        }
        Statement::While(_, _, x, _, body) => {
            walk_expression(text, x, setting, Role::Value, out);
            walk_statement(text, body.get(), of_loop(setting), out);
        }
        Statement::For(_, _, start, _, test, _, step, _, body) => {
            walk_for_start(text, start, setting, Role::Value, out);
            walk_maybe_expression(text, test, setting, out);
            walk_maybe_expression(text, step, setting, out);
            walk_statement(text, body.get(), of_loop(setting), out);
        }
        Statement::ForEach(_, _, _, start, _, x, _, body) => {
            walk_for_start(text, start, setting, Role::Target, out);
            walk_expression(text, x, setting, Role::Value, out);
            walk_statement(text, body.get(), of_loop(setting), out);
        }
        Statement::Continue(word, label, _) => check_continue(text, *word, *label, setting, out),
        Statement::Break(word, label, _) => check_break(text, *word, *label, setting, out),
        Statement::Return(word, x, _) => {
            check_return(*word, setting, out);
            walk_maybe_expression(text, x, setting, out);
        }
        Statement::Switch(_, _, x, _, _, clauses, _) => {
            walk_expression(text, x, setting, Role::Value, out);
            walk_case_clauses(text, clauses.as_slice(), of_switch(setting), out);
        }
        Statement::Labelled(label, _, body) => {
            check_label(text, *label, out);
            check_reference(text, *label, out);
            walk_behind(text, *label, body.get(), setting, out);
        }
        Statement::Throw(_, x, _) => {
            walk_expression(text, x, setting, Role::Value, out);
        }
        Statement::Try(_, block, handler, finalizer) => {
            walk_block(text, block, setting, out);
            walk_handler(text, handler, setting, out);
            walk_finalizer(text, finalizer, setting, out);
        }
        Statement::Debugger(_, _) => {}
        Statement::FunctionDeclaration(function) => {
            walk_function(text, function, setting, out);
        }
        Statement::ClassDeclaration(class) => {
            walk_class(text, class, setting, out);
        }
    }
}

#[cycle(walk)]
pub fn walk_class(text: &[u8], x: &Class, setting: Setting, out: &mut Found) -> usize
    ensures shape { result ≡ spec.shape_of_class x.now }
    ensures breaches { Finds (spec.breaches_of_class x.now text.now setting) out.old out.new }
{
    check_declared(text, x.name, out);
    let heritage = walk_heritage(text, &x.heritage, setting, out);
    walk_class_elements(text, x.elements.as_slice(), setting, heritage, false, out);
    x.word.start
}

#[cycle(walk)]
pub fn walk_operand(text: &[u8], x: &Operand, setting: Setting, out: &mut Found)
    ensures { Finds (spec.breaches_of_operand x.now text.now setting) out.old out.new }
{
    walk_expression(text, &x.value, setting, Role::Value, out);
}

#[cycle(walk)]
pub fn walk_substitution(text: &[u8], x: &Substitution, setting: Setting, out: &mut Found)
    ensures { Finds (spec.breaches_of_substitution x.now text.now setting) out.old out.new }
{
    walk_expression(text, &x.value, setting, Role::Value, out);
}

#[cycle(walk)]
pub fn walk_substitutions(
    text: &[u8],
    x: &Substitutions,
    setting: Setting,
    out: &mut Found,
) -> usize
    ensures shape { result ≡ spec.shape_of_substitutions x.now }
    ensures breaches { Finds (spec.breaches_of_substitutions x.now text.now setting) out.old out.new }
{
    walk_expression(text, &x.first, setting, Role::Value, out);
    walk_each_substitution(text, x.rest.as_slice(), setting, out);
    x.head.start
}

#[cycle(walk)]
pub fn walk_function(text: &[u8], x: &Function, setting: Setting, out: &mut Found) -> usize
    ensures shape { result ≡ spec.shape_of_function x.now }
    ensures breaches { Finds (spec.breaches_of_function x.now text.now setting) out.old out.new }
{
    check_declared(text, x.name, out);
    check_names_of_parameters(text, &x.parameters, out);
    let parameters = walk_bracketed(
        text,
        &x.parameters,
        of_function_parameters(),
        ListRole::ArrayPattern,
        out,
    );
    walk_body(text, &x.body, of_function(), out);
    check_strict(text, parameters.is_plain, &x.body, out);
    start_of_function(x.async_word, x.word)
}

#[cycle(walk)]
pub fn walk_method(
    text: &[u8],
    x: &Method,
    setting: Setting,
    is_prototype: bool,
    is_derived: bool,
    out: &mut Found,
) -> Option<Token>
    ensures shape { result ≡ spec.shape_of_method x.now }
    ensures breaches { Finds (spec.breaches_of_method x.now text.now setting is_prototype is_derived) out.old out.new }
{
    let name = walk_property_name(text, &x.name, setting, out);
    check_constructor(text, is_prototype, name.key, x.word, x.star, out);
    check_names_of_parameters(text, &x.parameters, out);
    let parameters = walk_bracketed(
        text,
        &x.parameters,
        of_method_parameters(text, is_prototype, is_derived, name.key),
        ListRole::ArrayPattern,
        out,
    );
    check_accessor(
        text,
        x.word,
        name.start,
        parameters.is_empty,
        parameters.is_one_value,
        out,
    );
    walk_body(
        text,
        &x.body,
        of_named_method(text, is_prototype, is_derived, name.key),
        out,
    );
    check_strict(text, parameters.is_plain, &x.body, out);
    name.key
}

#[cycle(walk)]
pub fn walk_bracketed(
    text: &[u8],
    x: &Bracketed,
    setting: Setting,
    role: ListRole,
    out: &mut Found,
) -> BracketedShape
    ensures shape { result ≡ spec.shape_of_bracketed x.now }
    ensures breaches { Finds (spec.breaches_of_bracketed x.now text.now setting role) out.old out.new }
{
    let list = walk_elements(text, &x.list, setting, role, x.begin.start, out);
    bracketed_shape(x.begin, list)
}

#[cycle(walk)]
pub fn walk_next_element(
    text: &[u8],
    x: &NextElement,
    setting: Setting,
    place: Place,
    out: &mut Found,
) -> ElementShape
    ensures shape { result ≡ spec.shape_of_next_element x.now }
    ensures breaches { Finds (spec.breaches_of_next_element x.now text.now setting place) out.old out.new }
{
    let element = walk_element(text, &x.element, setting, place, out);
    element
}

#[cycle(walk)]
pub fn walk_block(text: &[u8], x: &Block, setting: Setting, out: &mut Found)
    ensures { Finds (spec.breaches_of_block x.now text.now setting) out.old out.new }
{
    walk_statements(text, x.body.as_slice(), setting, out);
}

#[cycle(walk)]
pub fn walk_declaration(text: &[u8], x: &Declaration, setting: Setting, out: &mut Found)
    ensures { Finds (spec.breaches_of_declaration x.now text.now setting) out.old out.new }
{
    walk_elements(
        text,
        &x.bindings,
        setting,
        ListRole::ArrayPattern,
        x.word.start,
        out,
    );
}

#[cycle(walk)]
pub fn walk_else_if(text: &[u8], x: &ElseIf, setting: Setting, out: &mut Found)
    ensures { Finds (spec.breaches_of_else_if x.now text.now setting) out.old out.new }
{
    walk_if_clause(text, &x.clause, setting, out);
}

#[cycle(walk)]
pub fn walk_if_clause(text: &[u8], x: &IfClause, setting: Setting, out: &mut Found)
    ensures { Finds (spec.breaches_of_if_clause x.now text.now setting) out.old out.new }
{
    walk_expression(text, &x.condition, setting, Role::Value, out);
    walk_statement(text, x.body.get(), setting, out);
}

#[cycle(walk)]
fn walk_case_clauses(text: &[u8], items: &[CaseClause], setting: Setting, out: &mut Found)
    ensures { Finds (each text.now setting (map spec.breaches_of_case_clause items.now)) out.old out.new }
{
    for item in items {
        walk_case_clause(text, item, setting, out);
    }
}

#[cycle(walk)]
fn walk_each_substitution(text: &[u8], items: &[Substitution], setting: Setting, out: &mut Found)
    ensures { Finds (each text.now setting (map spec.breaches_of_substitution items.now)) out.old out.new }
{
    for item in items {
        walk_substitution(text, item, setting, out);
    }
}

#[cycle(walk)]
fn walk_else_ifs(text: &[u8], items: &[ElseIf], setting: Setting, out: &mut Found)
    ensures { Finds (each text.now setting (map spec.breaches_of_else_if items.now)) out.old out.new }
{
    for item in items {
        walk_else_if(text, item, setting, out);
    }
}

#[cycle(walk)]
fn walk_operands(text: &[u8], items: &[Operand], setting: Setting, out: &mut Found)
    ensures { Finds (each text.now setting (map spec.breaches_of_operand items.now)) out.old out.new }
{
    for item in items {
        walk_operand(text, item, setting, out);
    }
}

#[cycle(walk)]
fn walk_statements(text: &[u8], items: &[Statement], setting: Setting, out: &mut Found)
    ensures { Finds (each text.now setting (map (λ f. f.breaches) (map spec.facts_of_statement items.now))) out.old out.new }
{
    for item in items {
        walk_statement(text, item, setting, out);
    }
}

#[cycle(walk)]
pub fn walk_elements(
    text: &[u8],
    x: &Elements,
    setting: Setting,
    role: ListRole,
    begin: usize,
    out: &mut Found,
) -> ElementsShape
    ensures shape { result ≡ spec.shape_of_elements x.now }
    ensures breaches { Finds (spec.breaches_of_elements x.now text.now setting role begin) out.old out.new }
{
    let rest = x.rest.as_slice();
    let is_only = is_none(rest);
    let first = walk_element(text, &x.first, setting, placed(role, begin, is_only), out);
    let has_proto = is_proto_in(text, first.key);
    let are_plain = walk_next_elements(text, rest, setting, role, begin, has_proto, out);
    elements_shape(first, are_plain, is_only)
}

#[cycle(walk)]
fn walk_next_elements(
    text: &[u8],
    items: &[NextElement],
    setting: Setting,
    role: ListRole,
    begin: usize,
    has_proto: bool,
    out: &mut Found,
) -> bool
    ensures shape { result ≡ spec.are_plain (map spec.facts_of_next_element items.now) }
    ensures breaches { Finds (spec.nexts_breaches text.now setting role begin has_proto (map spec.facts_of_next_element items.now)) out.old out.new }
{
    let mut are_plain = true;
    let mut has_one = has_proto;
    let mut left = items.len();
    for item in items {
        left -= 1;
        let element = walk_next_element(text, item, setting, placed(role, begin, left == 0), out);
        check_second_proto(text, role, has_one, element.key, out);
        has_one = or(has_one, is_proto_in(text, element.key));
        are_plain = and(are_plain, element.is_plain);
    }
    are_plain
}

#[cycle(walk)]
fn walk_links(
    text: &[u8],
    items: &[Link],
    setting: Setting,
    role: Role,
    out: &mut Found,
) -> LinksShape
    ensures shape { result ≡ shapes.links_shape (map (λ f. f.shape) (map spec.facts_of_link items.now)) }
    ensures breaches { Finds (spec.links_breaches text.now setting role (map spec.facts_of_link items.now)) out.old out.new }
{
    let mut links = no_links();
    for item in items {
        let link = walk_link(text, item, setting, role, out);
        links = after_link(links, link);
    }
    links
}

#[cycle(walk)]
fn walk_class_elements(
    text: &[u8],
    items: &[ClassElement],
    setting: Setting,
    is_derived: bool,
    has_constructor: bool,
    out: &mut Found,
)
    ensures { Finds (spec.class_elements_breaches text.now setting is_derived has_constructor (map spec.facts_of_class_element items.now)) out.old out.new }
{
    let mut has_one = has_constructor;
    for item in items {
        let key = walk_class_element(text, item, setting, is_derived, out);
        check_second_constructor(text, has_one, key, out);
        has_one = or(has_one, is_constructor(text, key));
    }
}

/// Walks over the body of a function, in which the labels round it count no more.
#[cycle(walk)]
fn walk_body(text: &[u8], block: &Block, setting: Setting, out: &mut Found)
    ensures { Finds (unlabelled (spec.breaches_of_block block.now text.now setting)) out.old out.new }
{
    let outer = set_aside(out);
    walk_block(text, block, setting, out);
    put_back(outer, out);
}

/// Walks over a statement behind a label.
#[cycle(walk)]
fn walk_behind(text: &[u8], name: Token, body: &Statement, setting: Setting, out: &mut Found)
    ensures { Finds (behind (record { name = name; is_loop = spec.is_loop_of_statement body.now }) (spec.breaches_of_statement body.now text.now setting)) out.old out.new }
{
    let label = Label {
        name,
        is_loop: is_loop(body),
    };
    enter(label, out);
    walk_statement(text, body, setting, out);
    leave(out);
}

/// Whether no element is behind the first.
fn is_none(rest: &[NextElement]) -> bool
    ensures { result ≡ is_empty rest.now }
{
    rest.is_empty()
}

fn or(a: bool, b: bool) -> bool
    ensures { result ≡ (a || b) }
{
    a || b
}

fn and(a: bool, b: bool) -> bool
    ensures { result ≡ (a && b) }
{
    a && b
}

/// Whether a statement is a loop, also behind labels.
fn is_loop(x: &Statement) -> bool
    ensures { result ≡ spec.is_loop_of_statement x.now }
{
    match x {
        Statement::BlockStatement(_) => false,
        Statement::Variables(_, _) => false,
        Statement::Empty(_) => false,
        Statement::ExpressionStatement(_, _) => false,
        Statement::If(_, _, _) => false,
        Statement::DoWhile(_, _, _, _, _, _, _) => true,
        Statement::While(_, _, _, _, _) => true,
        Statement::For(_, _, _, _, _, _, _, _, _) => true,
        Statement::ForEach(_, _, _, _, _, _, _, _) => true,
        Statement::Continue(_, _, _) => false,
        Statement::Break(_, _, _) => false,
        Statement::Return(_, _, _) => false,
        Statement::Switch(_, _, _, _, _, _, _) => false,
        Statement::Labelled(_, _, body) => is_loop(body.get()),
        Statement::Throw(_, _, _) => false,
        Statement::Try(_, _, _, _) => false,
        Statement::Debugger(_, _) => false,
        Statement::FunctionDeclaration(_) => false,
        Statement::ClassDeclaration(_) => false,
    }
}
