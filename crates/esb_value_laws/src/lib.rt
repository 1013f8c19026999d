//! AssignmentExpressions and Expressions as a whole (ECMA-262, 12.15 and 12.16), `yield` and arrow functions: the definitions of how
//! they are read, and the laws, each the contract of a function that does nothing.
#![tactic(auto)]

mod laws;

pub use laws::{
    bare, bodies, expressions, going_on, handed, lets, levels, once, operands, parameters,
    primaries, tied, values, yields,
};
