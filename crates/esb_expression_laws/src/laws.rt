//! The laws.

ghost use Rattle.esb_expression_laws.specs.Laws as law;

/// `this`, names, literals, regular expressions and templates without substitutions (ECMA-262, 12.1 and 12.2).
pub fn leaves()
    ensures { law.LeafRule }
{}

/// Chains of binary operators of one level, from `*` to `||` (ECMA-262, 12.7 to 12.13).
pub fn operators()
    ensures read { law.OperatorsRule }
    ensures ends { law.EndsByTokens }
{}

/// Parenthesized expressions, arguments and array literals, over a reader of what stands in them (ECMA-262, 12.2.5, 12.2.10
/// and 12.3.8).
pub fn lists()
    ensures { law.BracketedRule }
{}
