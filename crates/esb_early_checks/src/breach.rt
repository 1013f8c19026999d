//! Breaches of early rules.

/// The number of an early rule, from 1 to 18.
pub type Rule = u8;

/// An early rule that is broken, and the place of the token at which it is: how many bytes stand before it.
#[derive(Clone, Copy, Debug, PartialEq, Eq)]
pub struct Breach {
    pub at: usize,
    pub rule: Rule,
}
