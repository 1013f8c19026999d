//! Classes (ECMA-262, 14.6).

use crate::expressions::Expression;
use crate::functions::Method;
use esb_base::List;
use esb_token::Token;

/// ClassDeclaration or ClassExpression (14.6).
#[cycle(tree)]
#[derive(Drop)]
pub struct Class {
    pub word: Token,
    pub name: Option<Token>,
    pub heritage: Heritage,
    pub begin: Token,
    pub elements: List<ClassElement>,
    pub ending: Token,
}

/// ClassHeritage (14.6), which may be absent.
#[cycle(tree)]
#[derive(Drop)]
pub enum Heritage {
    NoHeritage,
    Extends(Token, Expression),
}

/// ClassElement (14.6).
#[cycle(tree)]
#[derive(Drop)]
pub enum ClassElement {
    /// A method, behind its `static` if it has one.
    ClassMethod(Option<Token>, Method),
    /// `;`
    EmptyElement(Token),
}
