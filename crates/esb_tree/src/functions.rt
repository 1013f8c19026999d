//! Functions (ECMA-262, 14.1 to 14.5, 14.7, 14.8). The parameters of a function are a list in parentheses.

use crate::expressions::Expression;
use crate::patterns::{Bracketed, PropertyName};
use crate::statements::Block;
use esb_token::Token;

/// A function by the word `function`: its `async`, its `*` and its name may be absent (14.1, 14.4, 14.5, 14.7).
#[cycle(tree)]
#[derive(Drop)]
pub struct Function {
    pub async_word: Option<Token>,
    pub word: Token,
    pub star: Option<Token>,
    pub name: Option<Token>,
    pub parameters: Bracketed,
    pub body: Block,
}

/// MethodDefinition (14.3): the word before it may be `get`, `set` or `async`.
#[cycle(tree)]
#[derive(Drop)]
pub struct Method {
    pub word: Option<Token>,
    pub star: Option<Token>,
    pub name: PropertyName,
    pub parameters: Bracketed,
    pub body: Block,
}

/// ConciseBody (14.2), AsyncConciseBody (14.8).
#[cycle(tree)]
#[derive(Drop)]
pub enum ConciseBody {
    ConciseValue(Expression),
    ConciseBlock(Block),
}
