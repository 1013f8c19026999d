//! The laws.

ghost use Rattle.esb_access_laws.specs.Laws as law;

/// LeftHandSideExpressions and callees of `new`, over readers of what stands in them (ECMA-262, 12.3).
pub fn accesses()
    ensures { law.AccessRule }
{}
