//! Expressions (ECMA-262, clause 12, and of 14 what is an expression).
//!
//! A chain of operators of one precedence is one node, and so is a chain of members and calls. What may turn out to be a
//! pattern or the parameters of a function stays the expression as which it is read.

use crate::classes::Class;
use crate::functions::{ConciseBody, Function};
use crate::patterns::Bracketed;
use esb_base::List;
use esb_token::Token;
use sqlite_items::Boxed;

/// An expression. The fields stand in the order of the text.
#[cycle(tree)]
#[derive(Drop)]
pub enum Expression {
    /// A PrimaryExpression of one token (12.2): `this`, a name, a literal, a regular expression or a template without
    /// substitutions. As what a chain begins with also `super` (12.3.7).
    Primary(Token),
    /// MetaProperty (12.3): `new.target` and `import.meta`.
    MetaProperty(Token, Token, Token),
    /// ArrayLiteral (12.2.5), or a pattern in brackets (12.15.5, 13.3.3).
    ArrayLiteral(Boxed<Bracketed>),
    /// ObjectLiteral (12.2.6), or a pattern in braces (12.15.5, 13.3.3).
    ObjectLiteral(Boxed<Bracketed>),
    /// CoverParenthesizedExpressionAndArrowParameterList (12.2).
    Parenthesized(Boxed<Bracketed>),
    /// TemplateLiteral with substitutions (12.2.9).
    TemplateLiteral(Boxed<Substitutions>),
    /// FunctionExpression, GeneratorExpression, AsyncFunctionExpression, AsyncGeneratorExpression (14.1, 14.4, 14.5, 14.7).
    FunctionExpression(Boxed<Function>),
    /// ClassExpression (14.6).
    ClassExpression(Boxed<Class>),
    /// MemberExpression, CallExpression and OptionalExpression (12.3), and CoverCallExpressionAndAsyncArrowHead (14.8): what
    /// the chain begins with, and its links.
    Member(Boxed<Expression>, List<Link>),
    /// `new` with arguments, a MemberExpression (12.3).
    New(Token, Boxed<Expression>, Boxed<Bracketed>),
    /// NewExpression without arguments (12.3).
    NewPlain(Token, Boxed<Expression>),
    /// ImportCall (12.3.10): `import`, and what stands in its parentheses.
    ImportCall(Token, Token, Boxed<Expression>, Token),
    /// `++` or `--` before what it changes, an UpdateExpression (12.4).
    PrefixUpdate(Token, Boxed<Expression>),
    /// `++` or `--` behind what it changes, an UpdateExpression (12.4).
    PostfixUpdate(Boxed<Expression>, Token),
    /// UnaryExpression (12.5): `delete`, `void`, `typeof`, `+`, `-`, `~`, `!`.
    Unary(Token, Boxed<Expression>),
    /// AwaitExpression (14.7).
    Await(Token, Boxed<Expression>),
    /// The operands of operators of one precedence: ExponentiationExpression to ShortCircuitExpression (12.6 to 12.13), and
    /// Expression, whose operator is the comma (12.16).
    Binary(Boxed<Expression>, List<Operand>),
    /// ConditionalExpression (12.14).
    Conditional(Boxed<Expression>, Token, Boxed<Expression>, Token, Boxed<Expression>),
    /// AssignmentExpression with an operator (12.15). What is assigned to may be a pattern.
    Assignment(Boxed<Expression>, Token, Boxed<Expression>),
    /// ArrowFunction (14.2), and AsyncArrowFunction (14.8) whose parameters stand in parentheses: a name, parentheses, or a
    /// call of `async`.
    Arrow(Boxed<Expression>, Token, Boxed<ConciseBody>),
    /// AsyncArrowFunction of one name (14.8).
    AsyncArrow(Token, Token, Token, Boxed<ConciseBody>),
    /// YieldExpression without an operand (14.4).
    Yield(Token),
    /// YieldExpression with an operand (14.4).
    YieldValue(Token, Boxed<Expression>),
    /// YieldExpression `yield *` (14.4).
    YieldEach(Token, Token, Boxed<Expression>),
}

/// An operator and the operand behind it.
#[cycle(tree)]
#[derive(Drop)]
pub struct Operand {
    pub operator: Token,
    pub value: Expression,
}

/// What goes on with a chain of members and calls (12.3).
#[cycle(tree)]
#[derive(Drop)]
pub enum Link {
    /// `.` and an IdentifierName.
    Dot(Token, Token),
    /// An Expression in brackets.
    Index(Token, Expression, Token),
    /// Arguments (12.3.8).
    Call(Bracketed),
    /// A template without substitutions behind its tag (12.3.11).
    Tagged(Token),
    /// A template with substitutions behind its tag (12.3.11).
    TaggedTemplate(Substitutions),
    /// `?.` and an IdentifierName (12.3.9).
    OptionalDot(Token, Token),
    /// `?.` and an Expression in brackets (12.3.9).
    OptionalIndex(Token, Token, Expression, Token),
    /// `?.` and Arguments (12.3.9).
    OptionalCall(Token, Bracketed),
}

/// SubstitutionTemplate (12.2.9): its head, the first expression, the others, and its tail.
#[cycle(tree)]
#[derive(Drop)]
pub struct Substitutions {
    pub head: Token,
    pub first: Expression,
    pub rest: List<Substitution>,
    pub tail: Token,
}

/// TemplateMiddle and the expression behind it (12.2.9).
#[cycle(tree)]
#[derive(Drop)]
pub struct Substitution {
    pub middle: Token,
    pub value: Expression,
}
