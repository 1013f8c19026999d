//! The laws.

ghost use Rattle.esb_assignment_laws.specs.Laws as law;

/// ConditionalExpressions (ECMA-262, 12.14).
pub fn choices()
    ensures { law.ChoiceRule }
{}

/// Assignments (ECMA-262, 12.15).
pub fn assignments()
    ensures { law.AssignedRule }
{}
