//! Statements and declarations (ECMA-262, clause 13). `None` at the end of a statement is a semicolon that was left out.

use crate::classes::Class;
use crate::expressions::Expression;
use crate::functions::Function;
use crate::patterns::Elements;
use esb_base::List;
use esb_token::Token;
use sqlite_items::Boxed;

/// A statement or a declaration. The fields stand in the order of the text.
#[cycle(tree)]
#[derive(Drop)]
pub enum Statement {
    /// BlockStatement (13.2).
    BlockStatement(Block),
    /// VariableStatement (13.3.2) or LexicalDeclaration (13.3.1).
    Variables(Declaration, Option<Token>),
    /// EmptyStatement (13.4).
    Empty(Token),
    /// ExpressionStatement (13.5).
    ExpressionStatement(Expression, Option<Token>),
    /// IfStatement (13.6): each `else if` is one more clause, and the `else` is the last one's.
    If(IfClause, List<ElseIf>, Else),
    /// `do` statement `while` (expression) `;` (13.7.2).
    DoWhile(Token, Boxed<Statement>, Token, Token, Expression, Token, Option<Token>),
    /// `while` (expression) statement (13.7.3).
    While(Token, Token, Expression, Token, Boxed<Statement>),
    /// `for` (start `;` test `;` step) statement (13.7.4).
    For(
        Token,
        Token,
        ForStart,
        Token,
        MaybeExpression,
        Token,
        MaybeExpression,
        Token,
        Boxed<Statement>,
    ),
    /// `for` (target `in` expression) statement, or `of`, or `for await` with `of` (13.7.5).
    ForEach(Token, Option<Token>, Token, ForStart, Token, Expression, Token, Boxed<Statement>),
    /// ContinueStatement (13.8) with its label, if it has one.
    Continue(Token, Option<Token>, Option<Token>),
    /// BreakStatement (13.9) with its label, if it has one.
    Break(Token, Option<Token>, Option<Token>),
    /// ReturnStatement (13.10).
    Return(Token, MaybeExpression, Option<Token>),
    /// SwitchStatement (13.12).
    Switch(Token, Token, Expression, Token, Token, List<CaseClause>, Token),
    /// LabelledStatement (13.13).
    Labelled(Token, Token, Boxed<Statement>),
    /// ThrowStatement (13.14).
    Throw(Token, Expression, Option<Token>),
    /// TryStatement (13.15).
    Try(Token, Block, Handler, Finalizer),
    /// DebuggerStatement (13.16).
    Debugger(Token, Option<Token>),
    /// FunctionDeclaration, GeneratorDeclaration and their async kinds (14.1, 14.4, 14.5, 14.7).
    FunctionDeclaration(Function),
    /// ClassDeclaration (14.6).
    ClassDeclaration(Class),
}

/// Block (13.2), or a FunctionBody in its braces (14.1).
#[cycle(tree)]
#[derive(Drop)]
pub struct Block {
    pub begin: Token,
    pub body: List<Statement>,
    pub ending: Token,
}

/// `var`, `let` or `const`, and its bindings: each a name or a pattern, or an assignment to one (13.3).
#[cycle(tree)]
#[derive(Drop)]
pub struct Declaration {
    pub word: Token,
    pub bindings: Elements,
}

/// `if` (expression) statement (13.6).
#[cycle(tree)]
#[derive(Drop)]
pub struct IfClause {
    pub word: Token,
    pub begin: Token,
    pub condition: Expression,
    pub ending: Token,
    pub body: Boxed<Statement>,
}

/// `else` and the clause behind it (13.6).
#[cycle(tree)]
#[derive(Drop)]
pub struct ElseIf {
    pub else_word: Token,
    pub clause: IfClause,
}

/// The last `else` of an IfStatement (13.6), which may be absent. Its statement is no IfStatement.
#[cycle(tree)]
#[derive(Drop)]
pub enum Else {
    NoElse,
    Otherwise(Token, Boxed<Statement>),
}

/// What the head of a `for` begins with (13.7.4, 13.7.5).
#[cycle(tree)]
#[derive(Drop)]
pub enum ForStart {
    NoStart,
    StartExpression(Expression),
    StartDeclaration(Declaration),
}

/// An expression that may be absent.
#[cycle(tree)]
#[derive(Drop)]
pub enum MaybeExpression {
    Absent,
    Present(Expression),
}

/// CaseClause or DefaultClause (13.12).
#[cycle(tree)]
#[derive(Drop)]
pub enum CaseClause {
    Case(Token, Expression, Token, List<Statement>),
    Default(Token, Token, List<Statement>),
}

/// Catch (13.15), which may be absent.
#[cycle(tree)]
#[derive(Drop)]
pub enum Handler {
    NoHandler,
    Catch(Token, Block),
    /// With a CatchParameter in parentheses.
    CatchParameter(Token, Token, Expression, Token, Block),
}

/// Finally (13.15), which may be absent.
#[cycle(tree)]
#[derive(Drop)]
pub enum Finalizer {
    NoFinalizer,
    Finally(Token, Block),
}
