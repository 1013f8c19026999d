//! The laws.

ghost use Rattle.esb_operator_laws.specs.Laws as law;

/// Operators before and behind their operand (ECMA-262, 12.4, 12.5 and 14.7).
pub fn unary_operators()
    ensures { law.UnaryRule }
{}

/// Binary operators (ECMA-262, 12.6 to 12.13).
pub fn binary_operators()
    ensures { law.BinaryRule }
{}
