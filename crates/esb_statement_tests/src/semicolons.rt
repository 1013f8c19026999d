//! Where the semicolon at the end of a statement may be left out (ECMA-262, 11.9).

ghost use Rattle.std.specs.Prelude.{◌≡◌, ◌&&◌, ◌||◌, not};
ghost use Rattle.esb_grammar.specs.Edges as edges;
ghost use Rattle.esb_grammar.specs.Kinds as kinds;
ghost use Rattle.esb_grammar.specs.Semicolons as semicolons;
ghost use Rattle.esb_statement_laws.specs.Declarations as declarations;
ghost use Rattle.esb_statement_laws.specs.Endings.{may_end};
ghost use Rattle.esb_statement_laws.specs.Statements as statements;
ghost use Rattle.esb_tree.specs.declared.patterns.Element.{out-Element};
ghost use Rattle.esb_tree.specs.declared.patterns.Elements.{out-Elements};

use crate::edges::{ends_assignment, ends_with_update, is_let_alone};
use crate::kinds::{
    begins_link, is_assign, is_comma, is_end, is_left_brace, is_right_brace, is_semicolon,
};
use esb_grammar::{goes_on, is_binding};
use esb_token::Token;
use esb_tree::{Declaration, Element, Elements, Expression};

/// Whether an expression goes on with a token. Behind a block of an arrow function and behind a `yield` without an operand only
/// a comma does; behind `++` and `--` no link does.
#[tactic(auto, unfolding(esb_grammar::specs::Semicolons::expression_goes_on))]
fn expression_goes_on(x: &Expression, token: Token) -> bool
    ensures { result ≡ semicolons.expression_goes_on x.now token }
{
    if ends_assignment(x) {
        return is_comma(token.kind);
    }
    if ends_with_update(x) {
        return goes_on(token.kind) && !begins_link(token.kind);
    }
    goes_on(token.kind)
}

/// The same of an expression that is a statement: `let` alone would be a declaration with what may be bound behind it.
#[tactic(auto, unfolding(esb_grammar::specs::Semicolons::statement_goes_on))]
fn statement_goes_on(x: &Expression, token: Token) -> bool
    ensures { result ≡ semicolons.statement_goes_on x.now token }
{
    expression_goes_on(x, token)
        || (is_let_alone(x) && (is_binding(token.kind) || is_left_brace(token.kind)))
}

#[tactic(auto, unfolding(esb_grammar::specs::Edges::is_token))]
fn is_token(x: &Expression) -> bool
    ensures { result ≡ edges.is_token x.now }
{
    matches!(x, Expression::Primary(_))
}

/// Whether a binding goes on with a token. One of a name may get a value.
fn binding_goes_on(element: &Element, token: Token) -> bool
    ensures { result ≡ semicolons.binding_goes_on (edges.value_layer (out-Element element.now)) token }
{
    match element {
        Element::Value(x) => {
            if is_token(x) {
                is_comma(token.kind) || is_assign(token.kind)
            } else {
                expression_goes_on(x, token)
            }
        }
        _ => false,
    }
}

/// The last binding of a declaration.
fn last_element(list: &Elements) -> &Element
    ensures { result.now ≡ edges.last_element (out-Elements list.now).first (out-Elements list.now).rest }
{
    match list.rest.as_slice() {
        [.., last] => &last.element,
        [] => &list.first,
    }
}

/// Whether bindings go on with a token.
#[tactic(auto, unfolding(esb_grammar::specs::Semicolons::bindings_go_on, esb_grammar::specs::Edges::last_binding))]
fn bindings_go_on(list: &Elements, token: Token) -> bool
    ensures { result ≡ semicolons.bindings_go_on list.now token }
{
    binding_goes_on(last_element(list), token)
}

/// Whether a semicolon may be left out before a token, by whether what stands before it goes on with the token.
pub fn lets_end(on: bool, token: Token) -> bool
    ensures { result ≡ ((not on && not (kinds.is_semicolon token.kind)) && (token.after_line || kinds.is_right_brace token.kind || kinds.is_end token.kind)) }
{
    !on && !is_semicolon(token.kind)
        && (token.after_line || is_right_brace(token.kind) || is_end(token.kind))
}

/// Whether it may before the token that stands there, if there is one, behind an Expression.
pub(crate) fn ends_expression_before(x: &Expression, token: Option<Token>) -> bool
    ensures { result ≡ may_end (statements.behind_expression x.now) token }
{
    match token {
        Some(token) => lets_end(expression_goes_on(x, token), token),
        None => false,
    }
}

/// Behind an ExpressionStatement's Expression (13.5).
pub(crate) fn ends_statement_before(x: &Expression, token: Option<Token>) -> bool
    ensures { result ≡ may_end (statements.behind_statement x.now) token }
{
    match token {
        Some(token) => lets_end(statement_goes_on(x, token), token),
        None => false,
    }
}

/// Behind a word or a label.
pub(crate) fn ends_word_before(token: Option<Token>) -> bool
    ensures { result ≡ may_end (semicolons.lets_end semicolons.nothing_goes_on) token }
{
    match token {
        Some(token) => lets_end(false, token),
        None => false,
    }
}

/// Behind the parenthesis of `do` `while` (13.7.2), where it may before each other token.
pub(crate) fn ends_loop_before(token: Option<Token>) -> bool
    ensures { result ≡ may_end semicolons.is_other token }
{
    match token {
        Some(token) => !is_semicolon(token.kind),
        None => false,
    }
}

/// Behind bindings (13.3.1, 13.3.2).
pub(crate) fn ends_bindings_before(declaration: &Declaration, token: Option<Token>) -> bool
    ensures { result ≡ may_end (declarations.behind_bindings declaration.now) token }
{
    match token {
        Some(token) => lets_end(bindings_go_on(&declaration.bindings, token), token),
        None => false,
    }
}
