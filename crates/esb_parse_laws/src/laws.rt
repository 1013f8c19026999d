//! The laws.

ghost use Rattle.esb_parse_laws.specs.Laws as law;

/// Module (ECMA-262, 15.2): within each number of levels a text's tree is read, if it has one with no more levels, and nothing else.
pub fn module_trees()
    ensures { law.TreesRule }
{}

/// No text has two trees.
pub fn trees_are_one()
    ensures { law.OneTree }
{}

/// The readers of expressions and of lists of statements read what stands in their nodes by each other, one level down.
pub fn readers_are_tied()
    ensures knot { law.KnotRule }
    ensures fixed { law.FixedRule }
    ensures parts { law.PartsRule }
{}
