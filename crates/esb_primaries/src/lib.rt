//! The parser of PrimaryExpressions (ECMA-262, 12.2): the token in front tells which literal, function or class stands there.
#![tactic(auto)]

mod nodes;
mod primaries;
mod tokens;

pub use primaries::Primaries;
