//! The laws.

ghost use Rattle.esb_module_laws.specs.Laws as law;

/// NamedImports (ECMA-262, 15.2.2) and NamedExports (15.2.3).
pub fn specifiers()
    ensures { law.SpecifiersRule }
{}

/// ImportClause (ECMA-262, 15.2.2).
pub fn import_clauses()
    ensures { law.ClauseRule }
{}

/// ModuleItem (ECMA-262, 15.2), over readers of what stands in it.
pub fn module_items()
    ensures { law.ItemRule }
{}

/// Module (ECMA-262, 15.2): the tree of each text that has one within a number of levels is read, and no text has two trees.
pub fn modules()
    ensures { law.ModuleRule }
{}
