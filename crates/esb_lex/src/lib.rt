//! The next token of a JavaScript text, and the value of a string literal.
#![tactic(auto)]

mod bytes;
mod code_units;
mod gap;
mod name;
mod number;
mod punctuator;
mod read;
mod regular_expression;
mod reserved;
mod run;
mod string;
mod template;

pub use code_units::string_value;
pub use esb_token::Goal;
pub use read::{LexFault, next};

#[cfg(test)]
mod tests;
