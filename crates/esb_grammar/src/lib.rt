//! Which trees of modules are well formed (ECMA-262, 11th edition, clauses 12 to 15). `specs` has one line for each
//! production; the code has the classes of tokens that these lines name.
#![tactic(auto)]

mod context;
mod form;
mod kinds;
mod laws;

pub use context::Context;
pub use form::Form;
pub use kinds::{
    goes_on, is_binding, is_identifier, is_identifier_name, is_literal, is_property_word,
    is_reference,
};
pub use laws::{
    has_expressions, has_no_expressions, has_no_statements, has_statements, has_words, left_out,
};
