//! The laws.

ghost use Rattle.esb_statement_laws.specs.Laws as law;

/// Statements and declarations of all kinds (ECMA-262, clause 13), over readers of their parts one level down.
pub fn statements()
    ensures { law.StatementRule }
{}

/// An `else` is that of the nearest `if` that can have it (ECMA-262, 13.6).
pub fn nearest_if()
    ensures { law.NearestIf }
{}

/// Lists of statements (ECMA-262, 13.2).
pub fn statement_lists()
    ensures { law.ItemsRule }
{}

/// The same within any number of levels, where lists of statements within fewer levels are parts of what stands in statements.
pub fn levels()
    ensures { law.LevelsRule }
{}
