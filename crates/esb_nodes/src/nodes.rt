//! The nodes of a tree.

use crate::discard::Discard;
use esb_tree::{
    Block, Bracketed, CaseClause, Class, ClassElement, ConciseBody, Declaration, Element, Elements,
    Else, ElseIf, Expression, Finalizer, ForStart, Function, Handler, Heritage, IfClause, Link,
    MaybeExpression, Method, ModuleItem, NextElement, Operand, PropertyName, Statement,
    Substitution, Substitutions,
};

impl Discard for Block {
    fn discard(self) {
        drop(self);
    }
}

impl Discard for Bracketed {
    fn discard(self) {
        drop(self);
    }
}

impl Discard for CaseClause {
    fn discard(self) {
        drop(self);
    }
}

impl Discard for Class {
    fn discard(self) {
        drop(self);
    }
}

impl Discard for ClassElement {
    fn discard(self) {
        drop(self);
    }
}

impl Discard for ConciseBody {
    fn discard(self) {
        drop(self);
    }
}

impl Discard for Declaration {
    fn discard(self) {
        drop(self);
    }
}

impl Discard for Element {
    fn discard(self) {
        drop(self);
    }
}

impl Discard for Elements {
    fn discard(self) {
        drop(self);
    }
}

impl Discard for Else {
    fn discard(self) {
        drop(self);
    }
}

impl Discard for ElseIf {
    fn discard(self) {
        drop(self);
    }
}

impl Discard for Expression {
    fn discard(self) {
        drop(self);
    }
}

impl Discard for Finalizer {
    fn discard(self) {
        drop(self);
    }
}

impl Discard for ForStart {
    fn discard(self) {
        drop(self);
    }
}

impl Discard for Function {
    fn discard(self) {
        drop(self);
    }
}

impl Discard for Handler {
    fn discard(self) {
        drop(self);
    }
}

impl Discard for Heritage {
    fn discard(self) {
        drop(self);
    }
}

impl Discard for IfClause {
    fn discard(self) {
        drop(self);
    }
}

impl Discard for Link {
    fn discard(self) {
        drop(self);
    }
}

impl Discard for MaybeExpression {
    fn discard(self) {
        drop(self);
    }
}

impl Discard for Method {
    fn discard(self) {
        drop(self);
    }
}

impl Discard for ModuleItem {
    fn discard(self) {
        drop(self);
    }
}

impl Discard for NextElement {
    fn discard(self) {
        drop(self);
    }
}

impl Discard for Operand {
    fn discard(self) {
        drop(self);
    }
}

impl Discard for PropertyName {
    fn discard(self) {
        drop(self);
    }
}

impl Discard for Statement {
    fn discard(self) {
        drop(self);
    }
}

impl Discard for Substitution {
    fn discard(self) {
        drop(self);
    }
}

impl Discard for Substitutions {
    fn discard(self) {
        drop(self);
    }
}
