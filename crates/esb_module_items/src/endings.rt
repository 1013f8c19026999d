//! The semicolon at the end of an `export`, which is there or may have been left out (ECMA-262, 11.9).

ghost use Rattle.std.specs.Prelude.{◌≡◌, true, false};
ghost use Rattle.esb_grammar.specs.Semicolons as semicolons;
ghost use Rattle.esb_module_laws.specs.Items as items;
ghost use Rattle.esb_reader.specs.Reader.{Gives};
ghost use Rattle.esb_statement_laws.specs.Endings as spec;
ghost use Rattle.esb_statement_laws.specs.Endings.{may_end};

use crate::words::is_from;
use esb_base::Text;
use esb_reader::{Node, Reading, token_at};
use esb_statement_tests::{ending, lets_end, word_end};
use esb_token::{Goal, Token};

/// Whether it may be left out behind names, which may be those of a module.
fn ends_names_before(text: &Text, token: Option<Token>) -> bool
    ensures { result ≡ may_end (semicolons.lets_end (semicolons.from_goes_on text.now)) token }
{
    match token {
        Some(token) => lets_end(is_from(text, token), token),
        None => false,
    }
}

/// Behind the names of an `export`, or behind the module that they are of.
#[tactic(auto, unfolding(esb_statement_laws::specs::Endings::ending, esb_statement_tests::specs::Closings::ending_if))]
pub(crate) fn names_end(
    text: &Text,
    clause: Option<(Token, Token)>,
    at: usize,
) -> Reading<Node<Option<Token>>>
    ensures { Gives result (spec.ending text.now (items.behind_clause text.now clause) at) }
{
    match clause {
        Some(_) => word_end(text, at),
        None => ending(
            text,
            ends_names_before(text, token_at(text, Goal::Div, at)),
            at,
        ),
    }
}
