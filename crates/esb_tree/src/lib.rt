//! Trees of modules (ECMA-262, 11th edition, clauses 12 to 15): the node types, the tokens of a tree, and its levels.
#![tactic(auto)]

mod classes;
mod expressions;
mod functions;
mod gathered;
mod modules;
mod operators;
mod patterns;
mod statements;
mod tokens;
mod yields;

pub use classes::{Class, ClassElement, Heritage};
pub use expressions::{Expression, Link, Operand, Substitution, Substitutions};
pub use functions::{ConciseBody, Function, Method};
pub use modules::{ImportClause, ModuleItem, NextSpecifier, Specifier, Specifiers, Tree};
pub use operators::{is_assignment, is_unary, level_of};
pub use patterns::{Bracketed, Element, Elements, NextElement, PropertyName};
pub use statements::{
    Block, CaseClause, Declaration, Else, ElseIf, Finalizer, ForStart, Handler, IfClause,
    MaybeExpression, Statement,
};
pub use yields::{yield_of, yield_of_item};
