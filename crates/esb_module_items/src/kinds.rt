//! Classes of tokens.

ghost use Rattle.std.specs.Prelude.{◌≡◌};
ghost use Rattle.esb_grammar.specs.Edges as edges;
ghost use Rattle.esb_grammar.specs.Kinds as kinds;
ghost use Rattle.esb_module_laws.specs.Marks as marks;

use esb_grammar::{is_binding, is_identifier_name};
use esb_token::Kind;
use esb_tree::Statement;

pub(crate) fn is_star(kind: Kind) -> bool
    ensures { result ≡ kinds.is_star kind }
{
    matches!(kind, Kind::Star)
}

pub(crate) fn is_class(kind: Kind) -> bool
    ensures { result ≡ kinds.is_class kind }
{
    matches!(kind, Kind::Class)
}

/// The name that a specifier ends with: an import binds it, and an export may give it any.
pub(crate) fn is_given(is_import: bool, kind: Kind) -> bool
    ensures { result ≡ marks.is_given is_import kind }
{
    if is_import {
        is_binding(kind)
    } else {
        is_identifier_name(kind)
    }
}

/// VariableStatement or Declaration (ECMA-262, 15.2.3).
#[tactic(auto, unfolding(esb_grammar::specs::Edges::is_declaration))]
pub(crate) fn is_declaration(x: &Statement) -> bool
    ensures { result ≡ edges.is_declaration x.now }
{
    matches!(
        x,
        Statement::Variables(_, _)
            | Statement::FunctionDeclaration(_)
            | Statement::ClassDeclaration(_)
    )
}
