//! What a module item is, by its first tokens.

/// What an item of a module is, by its first tokens (ECMA-262, 15.2).
#[derive(Clone, Copy, Debug, PartialEq, Eq)]
pub enum ItemSort {
    /// A statement or a declaration, and an expression that begins with `import`.
    Statement,
    /// `import` of a module alone.
    ImportModule,
    /// `import` of bindings.
    Import,
    /// `export` of all that a module exports.
    ExportAll,
    /// `export` of names.
    ExportNames,
    ExportDeclaration,
    /// `export` `default` of a function, a generator, or one of their async kinds.
    DefaultFunction,
    DefaultClass,
    /// `export` `default` of an expression.
    DefaultValue,
}
