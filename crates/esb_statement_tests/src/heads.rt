//! What may stand first in the head of a `for` (ECMA-262, 13.7.4, 13.7.5).

ghost use Rattle.std.specs.Prelude.{◌≡◌};
ghost use Rattle.esb_statement_laws.specs.Loops as loops;

use crate::bindings::{list_bound, one_target};
use crate::edges::begins_let;
use esb_tree::{Expression, ForStart};

/// A LeftHandSideExpression, of all expressions.
#[tactic(auto, unfolding(esb_statement_laws::specs::Loops::is_left))]
fn is_left(x: &Expression) -> bool
    ensures { result ≡ loops.is_left x.now }
{
    !matches!(
        x,
        Expression::PrefixUpdate(_, _)
            | Expression::PostfixUpdate(_, _)
            | Expression::Unary(_, _)
            | Expression::Await(_, _)
            | Expression::Binary(_, _)
            | Expression::Conditional(_, _, _, _, _)
            | Expression::Assignment(_, _, _)
            | Expression::Arrow(_, _, _)
            | Expression::AsyncArrow(_, _, _, _)
            | Expression::Yield(_)
            | Expression::YieldValue(_, _)
            | Expression::YieldEach(_, _, _)
    )
}

/// What may stand before a semicolon.
#[tactic(auto, unfolding(esb_statement_laws::specs::Loops::is_classic))]
pub fn is_classic(start: &ForStart) -> bool
    ensures { result ≡ loops.is_classic start.now }
{
    match start {
        ForStart::NoStart => true,
        ForStart::StartExpression(_) => true,
        ForStart::StartDeclaration(declaration) => list_bound(&declaration.bindings),
    }
}

/// What may stand before `in`.
#[tactic(auto, unfolding(esb_statement_laws::specs::Loops::is_each))]
pub fn is_each(start: &ForStart) -> bool
    ensures { result ≡ loops.is_each start.now }
{
    match start {
        ForStart::NoStart => false,
        ForStart::StartExpression(x) => is_left(x),
        ForStart::StartDeclaration(declaration) => one_target(&declaration.bindings),
    }
}

/// Whether no expression that begins with `let` stands there.
fn avoids_let(start: &ForStart) -> bool
    ensures { result ≡ loops.of_layer (Rattle.esb_tree.specs.declared.statements.ForStart.out-ForStart start.now) }
{
    match start {
        ForStart::StartExpression(x) => !begins_let(x),
        _ => true,
    }
}

/// What may stand before `of`.
#[tactic(auto, unfolding(esb_statement_laws::specs::Loops::is_of_each))]
pub fn is_of_each(start: &ForStart) -> bool
    ensures { result ≡ loops.is_of_each start.now }
{
    is_each(start) && avoids_let(start)
}
