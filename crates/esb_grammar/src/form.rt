//! What a list of elements stands for.

/// What a list of elements stands for (ECMA-262, 12.2.5, 12.2.6, 12.2.10, 12.3.8, 13.3, 14.1).
#[derive(Clone, Copy, Debug, PartialEq, Eq)]
pub enum Form {
    /// ParenthesizedExpression.
    Values,
    Arguments,
    /// ArrayLiteral.
    Array,
    /// ObjectLiteral.
    Object,
    /// FormalParameters.
    Parameters,
    /// ArrayBindingPattern.
    ArrayPattern,
    /// ObjectBindingPattern.
    ObjectPattern,
    /// BindingList or VariableDeclarationList.
    Bindings,
}
