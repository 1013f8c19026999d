//! Lists of elements: of literals and of arguments, and of the patterns and parameters that are read as these (ECMA-262,
//! 12.2.5, 12.2.6, 12.3.8, 12.15.5, 13.3.3, 14.1).

use crate::expressions::Expression;
use crate::functions::Method;
use esb_base::List;
use esb_token::Token;
use sqlite_items::Boxed;

/// What stands between two commas of a list.
#[cycle(tree)]
#[derive(Drop)]
pub enum Element {
    /// Nothing: an Elision of an array (12.2.5), what follows a last comma, or the whole of an empty list.
    Hole,
    /// AssignmentExpression, or with `=` a target and its default.
    Value(Expression),
    /// SpreadElement (12.2.5), or a rest (12.15.5, 13.3.3, 14.1).
    Spread(Token, Expression),
    /// IdentifierReference as a PropertyDefinition (12.2.6), or a property of a pattern that is one name.
    Shorthand(Token),
    /// CoverInitializedName (12.2.6): a name, `=`, and its default.
    Initialized(Token, Token, Expression),
    /// PropertyName `:` AssignmentExpression (12.2.6), or a property of a pattern and its target.
    Property(PropertyName, Token, Expression),
    /// MethodDefinition (14.3).
    MethodProperty(Boxed<Method>),
}

/// A comma and what stands behind it.
#[cycle(tree)]
#[derive(Drop)]
pub struct NextElement {
    pub comma: Token,
    pub element: Element,
}

/// The elements of a list, of which there is one more than there are commas.
#[cycle(tree)]
#[derive(Drop)]
pub struct Elements {
    pub first: Element,
    pub rest: List<NextElement>,
}

/// A list in parentheses, brackets or braces.
#[cycle(tree)]
#[derive(Drop)]
pub struct Bracketed {
    pub begin: Token,
    pub list: Elements,
    pub ending: Token,
}

/// PropertyName (12.2.6).
#[cycle(tree)]
#[derive(Drop)]
pub enum PropertyName {
    /// LiteralPropertyName: an IdentifierName, a string or a number.
    Named(Token),
    /// ComputedPropertyName.
    Computed(Token, Expression, Token),
}
