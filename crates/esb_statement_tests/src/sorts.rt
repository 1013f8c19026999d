//! What a statement is, by its first tokens.

ghost use Rattle.std.specs.Prelude.{◌≡◌};
ghost use Rattle.esb_statement_laws.specs.Marks as marks;

use crate::kinds::{begins_target, is_colon, is_function};
use crate::words::is_async;
use esb_base::Text;
use esb_grammar::{Context, is_reference};
use esb_reader::peek;
use esb_statement_laws::Sort;
use esb_token::{Goal, Kind, Token};

/// By a name and the token behind it.
fn named_sort(text: &Text, context: Context, first: Token, second: Token) -> Sort
    ensures { result ≡ marks.named_sort text.now context first second }
{
    if is_reference(context, first.kind) && is_colon(second.kind) {
        return Sort::Labelled;
    }
    if is_async(text, first) && is_function(second.kind) && !second.after_line {
        return Sort::Function;
    }
    Sort::Expression
}

/// By `let` and the token behind it.
fn let_sort(text: &Text, context: Context, first: Token, second: Token) -> Sort
    ensures { result ≡ marks.let_sort text.now context first second }
{
    if begins_target(second.kind) {
        return Sort::Lexical;
    }
    named_sort(text, context, first, second)
}

/// By its first two tokens.
#[tactic(auto, unfolding(esb_statement_laws::specs::Marks::sort_of))]
fn sort_of(text: &Text, context: Context, first: Token, second: Token) -> Sort
    ensures { result ≡ marks.sort_of text.now context first second }
{
    match first.kind {
        Kind::LeftBrace => Sort::Block,
        Kind::Var => Sort::Variables,
        Kind::Const => Sort::Lexical,
        Kind::Let => let_sort(text, context, first, second),
        Kind::Semicolon => Sort::Empty,
        Kind::If => Sort::If,
        Kind::Do => Sort::Do,
        Kind::While => Sort::While,
        Kind::For => Sort::For,
        Kind::Continue => Sort::Continue,
        Kind::Break => Sort::Break,
        Kind::Return => Sort::Return,
        Kind::Switch => Sort::Switch,
        Kind::Throw => Sort::Throw,
        Kind::Try => Sort::Try,
        Kind::Debugger => Sort::Debugger,
        Kind::Function => Sort::Function,
        Kind::Class => Sort::Class,
        _ => named_sort(text, context, first, second),
    }
}

/// What the statement at a place of a text is (ECMA-262, clause 13).
pub fn sort_at(text: &Text, context: Context, at: usize) -> Sort
    ensures { result ≡ marks.sort_at text.now context at }
{
    let first = peek(text, Goal::Div, at);
    sort_of(text, context, first, peek(text, Goal::Div, first.end))
}
