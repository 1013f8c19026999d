//! Statements and declarations, from left to right (ECMA-262, clause 13). Each function gives what the reader of its production
//! gives, of which the laws say that it reads exactly the nodes that stand in the text. What stands in statements is read by
//! functions that are handed in, statements and lists of them among these: their own functions, one level down.
#![tactic(auto)]

mod bindings;
mod branches;
mod clauses;
mod declarations;
mod fors;
mod parts;
mod readers;
mod simple;
mod statements;

pub use parts::Parts;
pub use readers::StatementReaders;
