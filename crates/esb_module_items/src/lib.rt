//! The parser of module items (ECMA-262, 15.2). Each function gives what the reader of its production gives, over readers of the
//! statements, functions, classes and expressions in it.
#![tactic(auto)]

mod clauses;
mod endings;
mod exports;
mod imports;
mod items;
mod kinds;
mod parts;
mod readers;
mod sorts;
mod specifiers;
mod words;

pub use parts::ItemParts;
pub use readers::ItemReaders;
