//! The laws.

ghost use Rattle.esb_literal_laws.specs.Laws as law;

/// Template literals with substitutions, over a reader of the expressions in them (ECMA-262, 12.2.9).
pub fn templates()
    ensures { law.TemplateRule }
{}

/// Names and patterns that are bound, FormalParameters, and the lists of declarations, over a reader of the values in them
/// (ECMA-262, 13.3 and 14.1).
pub fn bindings()
    ensures target { law.TargetRule }
    ensures parameters { law.ParametersRule }
    ensures declared { law.BindingsRule }
{}

/// Methods and object literals, over readers of the values and of the statements in them (ECMA-262, 12.2.6, 14.3 to 14.5 and
/// 14.7).
pub fn objects()
    ensures method { law.MethodRule }
    ensures object { law.ObjectRule }
{}

/// Functions by the word `function`, over the same (ECMA-262, 14.1, 14.4, 14.5 and 14.7).
pub fn functions()
    ensures { law.FunctionRule }
{}

/// Classes, over these and a reader of what they extend (ECMA-262, 14.6).
pub fn classes()
    ensures { law.ClassRule }
{}
