//! What a statement is, by its first tokens.

/// What a statement or a declaration is, by its first tokens (ECMA-262, clause 13).
#[derive(Clone, Copy, Debug, PartialEq, Eq)]
pub enum Sort {
    Block,
    /// `var`.
    Variables,
    /// `let` or `const`.
    Lexical,
    Empty,
    If,
    Do,
    While,
    For,
    Continue,
    Break,
    Return,
    Switch,
    Labelled,
    Throw,
    Try,
    Debugger,
    /// A function, a generator, or one of their async kinds.
    Function,
    Class,
    Expression,
}
