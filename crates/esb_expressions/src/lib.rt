//! Expressions, from left to right (ECMA-262, clause 12). What reads the nodes in them is handed in, so that each production is
//! proved by itself. Each function gives what the reader of its production gives, of which the laws say that it reads exactly
//! the nodes that stand in the text.
#![tactic(auto)]

mod assignments;
mod between;
mod choices;
mod fits;
mod kinds;
mod operators;
mod primary;
mod values;

pub use assignments::assignment_behind;
pub use choices::choice_behind;
pub use fits::fits_level;
pub use operators::{Operators, postfix_behind};
pub use primary::leaf;
pub use values::{assigned, left_behind, operand_behind};
