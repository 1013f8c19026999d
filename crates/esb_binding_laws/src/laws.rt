//! The law.

ghost use Rattle.esb_binding_laws.specs.Laws as law;

/// A BindingIdentifier or a BindingPattern, with a value or without, over a reader of the AssignmentExpressions in it: before `in`
/// and `of` none has a value.
pub fn loose_bindings()
    ensures { law.LooseRule }
{}
