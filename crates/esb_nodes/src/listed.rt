//! Nodes that stand in lists.

ghost use Rattle.std.specs.Prelude.{◌≡◌, ◌++◌, ◌∷◌, [], IfOk};

use crate::discard::Discard;
use esb_base::{List, Memory};
use esb_tree::{
    CaseClause, ClassElement, ElseIf, Link, ModuleItem, NextElement, Operand, Statement,
    Substitution,
};

/// A node that others hold in a list.
pub trait Listed: Discard {
    /// The list with the node at its end. Where memory is refused, both are let go.
    fn added_to(self, list: List<Self>) -> Result<List<Self>, Memory>
        ensures { IfOk result (λ longer. longer ≡ list ++ self ∷ []) };
}

fn added<T: Drop>(list: List<T>, node: T) -> Result<List<T>, Memory>
    ensures { IfOk result (λ longer. longer ≡ list ++ node ∷ []) }
{
    let mut list = list;
    list.push(node)?;
    Ok(list)
}

impl Discard for List<CaseClause> {
    fn discard(self) {
        drop(self);
    }
}

impl Listed for CaseClause {
    fn added_to(self, list: List<CaseClause>) -> Result<List<CaseClause>, Memory>
        ensures { IfOk result (λ longer. longer ≡ list ++ self ∷ []) }
    {
        added(list, self)
    }
}

impl Discard for List<ClassElement> {
    fn discard(self) {
        drop(self);
    }
}

impl Listed for ClassElement {
    fn added_to(self, list: List<ClassElement>) -> Result<List<ClassElement>, Memory>
        ensures { IfOk result (λ longer. longer ≡ list ++ self ∷ []) }
    {
        added(list, self)
    }
}

impl Discard for List<ElseIf> {
    fn discard(self) {
        drop(self);
    }
}

impl Listed for ElseIf {
    fn added_to(self, list: List<ElseIf>) -> Result<List<ElseIf>, Memory>
        ensures { IfOk result (λ longer. longer ≡ list ++ self ∷ []) }
    {
        added(list, self)
    }
}

impl Discard for List<Link> {
    fn discard(self) {
        drop(self);
    }
}

impl Listed for Link {
    fn added_to(self, list: List<Link>) -> Result<List<Link>, Memory>
        ensures { IfOk result (λ longer. longer ≡ list ++ self ∷ []) }
    {
        added(list, self)
    }
}

impl Discard for List<ModuleItem> {
    fn discard(self) {
        drop(self);
    }
}

impl Listed for ModuleItem {
    fn added_to(self, list: List<ModuleItem>) -> Result<List<ModuleItem>, Memory>
        ensures { IfOk result (λ longer. longer ≡ list ++ self ∷ []) }
    {
        added(list, self)
    }
}

impl Discard for List<NextElement> {
    fn discard(self) {
        drop(self);
    }
}

impl Listed for NextElement {
    fn added_to(self, list: List<NextElement>) -> Result<List<NextElement>, Memory>
        ensures { IfOk result (λ longer. longer ≡ list ++ self ∷ []) }
    {
        added(list, self)
    }
}

impl Discard for List<Operand> {
    fn discard(self) {
        drop(self);
    }
}

impl Listed for Operand {
    fn added_to(self, list: List<Operand>) -> Result<List<Operand>, Memory>
        ensures { IfOk result (λ longer. longer ≡ list ++ self ∷ []) }
    {
        added(list, self)
    }
}

impl Discard for List<Statement> {
    fn discard(self) {
        drop(self);
    }
}

impl Listed for Statement {
    fn added_to(self, list: List<Statement>) -> Result<List<Statement>, Memory>
        ensures { IfOk result (λ longer. longer ≡ list ++ self ∷ []) }
    {
        added(list, self)
    }
}

impl Discard for List<Substitution> {
    fn discard(self) {
        drop(self);
    }
}

impl Listed for Substitution {
    fn added_to(self, list: List<Substitution>) -> Result<List<Substitution>, Memory>
        ensures { IfOk result (λ longer. longer ≡ list ++ self ∷ []) }
    {
        added(list, self)
    }
}
