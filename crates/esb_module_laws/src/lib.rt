//! What it is to read an item of a module (ECMA-262, 15.2), and that what is read so are exactly the well-formed items of a text:
//! laws, each the contract of a function that does nothing.
#![tactic(auto)]

mod imported;
mod item_sort;
mod laws;

pub use imported::Imported;
pub use item_sort::ItemSort;
pub use laws::{import_clauses, module_items, modules, specifiers};
