//! Samples of the grammar, as contracts of functions that do nothing.

ghost use Rattle.esb_grammar.specs.ModuleSamples.{HasWords, HasNoWords};
ghost use Rattle.esb_grammar.specs.Samples.{HasExpressions, HasNoExpressions};
ghost use Rattle.esb_grammar.specs.SemicolonSamples.{MayBeLeftOut, MayNotBeLeftOut};
ghost use Rattle.esb_grammar.specs.StatementSamples.{HasStatements, HasNoStatements};

/// These expressions are well formed.
pub fn has_expressions()
    ensures { HasExpressions }
{}

/// And these are not.
pub fn has_no_expressions()
    ensures { HasNoExpressions }
{}

/// These statements and declarations are well formed.
pub fn has_statements()
    ensures { HasStatements }
{}

/// And these are not.
pub fn has_no_statements()
    ensures { HasNoStatements }
{}

/// In these texts the semicolon behind the first statement may be left out, and in the others it may not.
pub fn left_out()
    ensures may { MayBeLeftOut }
    ensures may_not { MayNotBeLeftOut }
{}

/// These functions and items of modules, with words that mean something in their place, are well formed, and the others are
/// not.
pub fn has_words()
    ensures well_formed { HasWords }
    ensures not_well_formed { HasNoWords }
{}
