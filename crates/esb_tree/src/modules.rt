//! Modules (ECMA-262, 15.2). `None` at the end of an item is a semicolon that was left out.

use crate::expressions::Expression;
use crate::statements::Statement;
use esb_base::List;
use esb_token::Token;

/// Module (15.2).
#[derive(Drop)]
pub struct Tree {
    pub items: List<ModuleItem>,
}

/// ModuleItem (15.2). The fields stand in the order of the text.
#[derive(Drop)]
pub enum ModuleItem {
    /// StatementListItem.
    Item(Statement),
    /// `import` of a module alone (15.2.2).
    ImportModule(Token, Token, Option<Token>),
    /// `import` of bindings, `from`, and the module (15.2.2).
    Import(Token, ImportClause, Token, Token, Option<Token>),
    /// `export` `*` `from` a module (15.2.3).
    ExportAll(Token, Token, Token, Token, Option<Token>),
    /// `export` `*` `as` a name `from` a module (15.2.3).
    ExportAllAs(Token, Token, Token, Token, Token, Token, Option<Token>),
    /// `export` of names `from` a module (15.2.3).
    ExportFrom(Token, Specifiers, Token, Token, Option<Token>),
    /// `export` of names (15.2.3).
    ExportNames(Token, Specifiers, Option<Token>),
    /// `export` of a VariableStatement or a Declaration (15.2.3).
    ExportDeclaration(Token, Statement),
    /// `export` `default` of a function or a class, whose name may be absent (15.2.3).
    ExportDefaultDeclaration(Token, Token, Statement),
    /// `export` `default` of an AssignmentExpression (15.2.3).
    ExportDefault(Token, Token, Expression, Option<Token>),
}

/// ImportClause (15.2.2).
#[derive(Drop)]
pub enum ImportClause {
    /// ImportedDefaultBinding.
    DefaultBinding(Token),
    /// NameSpaceImport: `*` `as` a name.
    NameSpace(Token, Token, Token),
    /// NamedImports.
    Names(Specifiers),
    /// ImportedDefaultBinding `,` NameSpaceImport.
    DefaultAndNameSpace(Token, Token, Token, Token, Token),
    /// ImportedDefaultBinding `,` NamedImports.
    DefaultAndNames(Token, Token, Specifiers),
}

/// NamedImports (15.2.2) or NamedExports (15.2.3), in braces. There is one specifier more than there are commas.
#[derive(Drop)]
pub struct Specifiers {
    pub begin: Token,
    pub first: Specifier,
    pub rest: List<NextSpecifier>,
    pub ending: Token,
}

/// A comma and what stands behind it.
#[derive(Drop)]
pub struct NextSpecifier {
    pub comma: Token,
    pub specifier: Specifier,
}

/// ImportSpecifier (15.2.2) or ExportSpecifier (15.2.3).
#[derive(Drop)]
pub enum Specifier {
    /// Nothing: what follows a last comma, or the whole of an empty list.
    NoSpecifier,
    /// A name under which it is known on both sides.
    Same(Token),
    /// A name, `as`, and another name.
    Renamed(Token, Token, Token),
}
