//! The laws.

ghost use Rattle.esb_value_laws.specs.Laws as law;

/// YieldExpressions (ECMA-262, 14.4).
pub fn yields()
    ensures { law.YieldRule }
{}

/// ConciseBody and AsyncConciseBody (ECMA-262, 14.2 and 14.8).
pub fn bodies()
    ensures { law.BodyRule }
{}

/// AssignmentExpressions as a whole (ECMA-262, 12.15).
pub fn values()
    ensures { law.ValueRule }
{}

/// Expressions (ECMA-262, 12.16).
pub fn expressions()
    ensures { law.ExpressionRule }
{}

/// Lists of Arguments that are FormalParameters (ECMA-262, 14.2), by their trees.
pub fn parameters()
    ensures { law.CoverRule }
{}

/// Operators, branches and assignments behind their first operand.
pub fn going_on()
    ensures { law.GoingOnRule }
{}

/// Operands behind their PrimaryExpression (ECMA-262, 12.2 to 12.5).
pub fn operands()
    ensures { law.OperandRule }
{}

/// AssignmentExpressions and Expressions within a number of levels.
pub fn levels()
    ensures value { law.WholeRule }
    ensures values { law.WholeExpressionRule }
    ensures bare { law.WholeBareRule }
{}

/// Operands before a name, as before `of` in the head of a `for` (ECMA-262, 13.7.5).
pub fn bare()
    ensures { law.BareRule }
{}

/// Expressions, and `let` alone before a name (ECMA-262, 13.5).
pub fn lets()
    ensures { law.LetRule }
{}

/// Lists in parentheses that are read once (ECMA-262, 12.2.10).
pub fn once()
    ensures { law.OnceRule }
{}

/// PrimaryExpressions (ECMA-262, 12.2).
pub fn primaries()
    ensures { law.PrimaryRule }
{}

/// LeftHandSideExpressions, AssignmentExpressions and Expressions over what is handed in (ECMA-262, 12.3, 12.15 and 12.16).
pub fn handed()
    ensures { law.HandedRule }
{}

/// The same within each number of levels, of readers that read each other.
pub fn tied()
    ensures { law.TiedRule }
{}
