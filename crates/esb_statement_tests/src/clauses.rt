//! The clauses of `switch` and of `try` (ECMA-262, 13.12, 13.15).

ghost use Rattle.std.specs.Prelude.{◌≡◌, ◌||◌};
ghost use Rattle.esb_statement_laws.specs.Compounds as compounds;

use esb_tree::{CaseClause, Finalizer, Handler};

#[tactic(auto, unfolding(esb_statement_laws::specs::Compounds::is_default))]
fn is_default(clause: &CaseClause) -> bool
    ensures { result ≡ compounds.is_default clause.now }
{
    matches!(clause, CaseClause::Default(_, _, _))
}

/// Whether a DefaultClause comes once or not at all (13.12).
pub fn one_default(clauses: &[CaseClause]) -> bool
    ensures { result ≡ compounds.one_default clauses.now }
{
    let mut seen = false;
    for turn in 0..clauses.len() {
        if is_default(&clauses[turn]) {
            if seen {
                return false;
            }
            seen = true;
        }
    }
    true
}

#[tactic(auto, unfolding(esb_statement_laws::specs::Compounds::has_catch))]
fn has_catch(handler: &Handler) -> bool
    ensures { result ≡ compounds.has_catch handler.now }
{
    !matches!(handler, Handler::NoHandler)
}

#[tactic(auto, unfolding(esb_statement_laws::specs::Compounds::has_finally))]
fn has_finally(finalizer: &Finalizer) -> bool
    ensures { result ≡ compounds.has_finally finalizer.now }
{
    !matches!(finalizer, Finalizer::NoFinalizer)
}

/// Whether a TryStatement has a Catch or a Finally (13.15).
pub fn is_handled(handler: &Handler, finalizer: &Finalizer) -> bool
    ensures { result ≡ (compounds.has_catch handler.now || compounds.has_finally finalizer.now) }
{
    has_catch(handler) || has_finally(finalizer)
}
