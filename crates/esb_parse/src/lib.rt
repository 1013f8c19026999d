//! The parser of modules (ECMA-262, clauses 12 to 15). The parsers of expressions, functions and statements hold one another: here
//! each is handed the others, one level down.
#![tactic(auto)]

mod knot;
mod module;

pub use module::parse_items;
