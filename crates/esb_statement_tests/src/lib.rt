//! Tests of tokens and of nodes by which statements are told apart and ended (ECMA-262, 11.9 and clause 13).
#![tactic(auto)]

mod bindings;
mod clauses;
mod edges;
mod endings;
mod heads;
mod kinds;
mod semicolons;
mod sorts;
mod words;

pub use bindings::list_bound;
pub use clauses::{is_handled, one_default};
pub use endings::{bindings_end, ending, expression_end, loop_end, statement_end, word_end};
pub use heads::{is_classic, is_each, is_of_each};
pub use kinds::{
    begins_item, begins_target, ends_expression, inside, is_await_in, is_case, is_catch, is_clause,
    is_comma, is_else, is_finally, is_function, is_if_word, is_in, is_label, is_left_parenthesis,
    is_lexical, is_semicolon, is_var, is_variable, returns_nothing, without_in,
};
pub use semicolons::lets_end;
pub use sorts::sort_at;
pub use words::{is_async, is_of, is_word};
