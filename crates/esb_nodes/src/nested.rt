//! Nodes that others hold in a box.

ghost use Rattle.std.specs.Prelude.{◌≡◌, IfOk};

use crate::discard::Discard;
use esb_base::Memory;
use esb_tree::{
    Bracketed, Class, ConciseBody, Expression, Function, Method, Statement, Substitutions,
};
use sqlite_items::Boxed;
use std::alloc::Global;

/// A node that stands in others of its kind.
pub trait Nested: Discard {
    /// The node as another one holds it. Where memory is refused, it is let go.
    fn boxed(self, alloc: Global) -> Result<Boxed<Self>, Memory>
        ensures { IfOk result (λ boxed. boxed ≡ self) };
}

impl Discard for Boxed<Bracketed> {
    fn discard(self) {
        drop(self);
    }
}

impl Nested for Bracketed {
    fn boxed(self, alloc: Global) -> Result<Boxed<Bracketed>, Memory> {
        Ok(Boxed::new(alloc, self)?)
    }
}

impl Discard for Boxed<Class> {
    fn discard(self) {
        drop(self);
    }
}

impl Nested for Class {
    fn boxed(self, alloc: Global) -> Result<Boxed<Class>, Memory> {
        Ok(Boxed::new(alloc, self)?)
    }
}

impl Discard for Boxed<ConciseBody> {
    fn discard(self) {
        drop(self);
    }
}

impl Nested for ConciseBody {
    fn boxed(self, alloc: Global) -> Result<Boxed<ConciseBody>, Memory> {
        Ok(Boxed::new(alloc, self)?)
    }
}

impl Discard for Boxed<Expression> {
    fn discard(self) {
        drop(self);
    }
}

impl Nested for Expression {
    fn boxed(self, alloc: Global) -> Result<Boxed<Expression>, Memory> {
        Ok(Boxed::new(alloc, self)?)
    }
}

impl Discard for Boxed<Function> {
    fn discard(self) {
        drop(self);
    }
}

impl Nested for Function {
    fn boxed(self, alloc: Global) -> Result<Boxed<Function>, Memory> {
        Ok(Boxed::new(alloc, self)?)
    }
}

impl Discard for Boxed<Method> {
    fn discard(self) {
        drop(self);
    }
}

impl Nested for Method {
    fn boxed(self, alloc: Global) -> Result<Boxed<Method>, Memory> {
        Ok(Boxed::new(alloc, self)?)
    }
}

impl Discard for Boxed<Statement> {
    fn discard(self) {
        drop(self);
    }
}

impl Nested for Statement {
    fn boxed(self, alloc: Global) -> Result<Boxed<Statement>, Memory> {
        Ok(Boxed::new(alloc, self)?)
    }
}

impl Discard for Boxed<Substitutions> {
    fn discard(self) {
        drop(self);
    }
}

impl Nested for Substitutions {
    fn boxed(self, alloc: Global) -> Result<Boxed<Substitutions>, Memory> {
        Ok(Boxed::new(alloc, self)?)
    }
}
