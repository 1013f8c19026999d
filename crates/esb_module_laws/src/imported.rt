//! What an `import` binds beside a default.

use esb_token::Token;
use esb_tree::Specifiers;

/// NameSpaceImport or NamedImports (ECMA-262, 15.2.2).
#[derive(Drop)]
pub enum Imported {
    /// `*` `as` a name.
    NameSpace(Token, Token, Token),
    Names(Specifiers),
}
