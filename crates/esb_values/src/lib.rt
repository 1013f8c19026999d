//! AssignmentExpressions and Expressions as a whole (ECMA-262, 12.15 and 12.16): `yield`, arrow functions, and what is told from
//! them. A list in parentheses is read once, and the token behind it says what it is.
#![tactic(auto)]

mod arrows;
mod bodies;
mod commas;
mod covers;
mod kinds;
mod lists;
mod parts;
mod values;
mod words;
mod yields;

pub use bodies::Arrows;
pub use commas::Commas;
pub use covers::covers_parameters;
pub use lists::is_plain_list;
pub use parts::{Blocks, Values};
pub use values::Assignments;
pub use yields::yielded;
