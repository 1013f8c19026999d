//! The laws.

ghost use Rattle.esb_grammar.specs.Grammar.{IsPrimary, IsNew, IsLeftHandSide, IsAssignment, IsExpression};
ghost use Rattle.esb_first_tokens.specs.First.{begins_primary, begins_left, begins_value};
ghost use Rattle.esb_first_tokens.specs.Laws as law;

/// What is seen under `Div` where an expression stands: its first token, or a division where that is a regular expression.
pub fn first_tokens()
    ensures primary { law.Shows begins_primary IsPrimary }
    ensures callee { law.Shows begins_left IsNew }
    ensures left { law.Shows begins_left IsLeftHandSide }
    ensures value { law.Shows begins_value IsAssignment }
    ensures values { law.Shows begins_value IsExpression }
    ensures no_end { law.ValueIsNoEnd }
    ensures no_prefix { law.LeftIsNoPrefix }
{}
