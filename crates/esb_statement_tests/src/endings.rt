//! The semicolon at the end of a statement, which is there or may have been left out (ECMA-262, 11.9).

ghost use Rattle.std.specs.Prelude.{true, false};
ghost use Rattle.esb_grammar.specs.Semicolons as semicolons;
ghost use Rattle.esb_reader.specs.Reader.{Gives};
ghost use Rattle.esb_statement_laws.specs.Declarations as declarations;
ghost use Rattle.esb_statement_laws.specs.Endings as spec;
ghost use Rattle.esb_statement_laws.specs.Statements as statements;
ghost use Rattle.esb_statement_tests.specs.Closings.{ending_if};

use crate::kinds::is_semicolon;
use crate::semicolons::{
    ends_bindings_before, ends_expression_before, ends_loop_before, ends_statement_before,
    ends_word_before,
};
use esb_base::Text;
use esb_reader::{Fault, Node, Reading, expect, peek, token_at};
use esb_token::{Goal, Kind, Token};
use esb_tree::{Declaration, Expression};

/// The semicolon, or none where it may have been left out.
#[tactic(auto, unfolding(crate::specs::Closings::ending_if))]
pub fn ending(text: &Text, may_be_left_out: bool, at: usize) -> Reading<Node<Option<Token>>>
    ensures { Gives result (ending_if text.now may_be_left_out at) }
{
    if is_semicolon(peek(text, Goal::Div, at).kind) {
        let (semicolon, at) = expect(text, Kind::Semicolon, at)?;
        let tree = Some(semicolon);
        return Ok((Node { tree, levels: 0 }, at));
    }
    if !may_be_left_out {
        return Err(Fault::NoTree(at));
    }
    let tree = None;
    Ok((Node { tree, levels: 0 }, at))
}

/// Behind an Expression.
#[tactic(auto, unfolding(esb_statement_laws::specs::Endings::ending, crate::specs::Closings::ending_if))]
pub fn expression_end(text: &Text, x: &Expression, at: usize) -> Reading<Node<Option<Token>>>
    ensures { Gives result (spec.ending text.now (statements.behind_expression x.now) at) }
{
    let may = ends_expression_before(x, token_at(text, Goal::Div, at));
    ending(text, may, at)
}

/// Behind the Expression of an ExpressionStatement.
#[tactic(auto, unfolding(esb_statement_laws::specs::Endings::ending, crate::specs::Closings::ending_if))]
pub fn statement_end(text: &Text, x: &Expression, at: usize) -> Reading<Node<Option<Token>>>
    ensures { Gives result (spec.ending text.now (statements.behind_statement x.now) at) }
{
    let may = ends_statement_before(x, token_at(text, Goal::Div, at));
    ending(text, may, at)
}

/// Behind a word or a label.
#[tactic(auto, unfolding(esb_statement_laws::specs::Endings::ending, crate::specs::Closings::ending_if))]
pub fn word_end(text: &Text, at: usize) -> Reading<Node<Option<Token>>>
    ensures { Gives result (spec.ending text.now (semicolons.lets_end semicolons.nothing_goes_on) at) }
{
    let may = ends_word_before(token_at(text, Goal::Div, at));
    ending(text, may, at)
}

/// Behind the parenthesis of `do` `while`.
#[tactic(auto, unfolding(esb_statement_laws::specs::Endings::ending, crate::specs::Closings::ending_if))]
pub fn loop_end(text: &Text, at: usize) -> Reading<Node<Option<Token>>>
    ensures { Gives result (spec.ending text.now semicolons.is_other at) }
{
    let may = ends_loop_before(token_at(text, Goal::Div, at));
    ending(text, may, at)
}

/// Behind bindings.
#[tactic(auto, unfolding(esb_statement_laws::specs::Endings::ending, crate::specs::Closings::ending_if))]
pub fn bindings_end(
    text: &Text,
    declaration: &Declaration,
    at: usize,
) -> Reading<Node<Option<Token>>>
    ensures { Gives result (spec.ending text.now (declarations.behind_bindings declaration.now) at) }
{
    let may = ends_bindings_before(declaration, token_at(text, Goal::Div, at));
    ending(text, may, at)
}
