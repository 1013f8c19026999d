//! The parameters of productions.

/// The parameters In, Yield and Await of a production (ECMA-262, 5.1.5).
#[derive(Clone, Copy, Debug, PartialEq, Eq)]
pub struct Context {
    /// `in` is an operator.
    pub has_in: bool,
    /// `yield` is an operator.
    pub has_yield: bool,
    /// `await` is an operator.
    pub has_await: bool,
}
