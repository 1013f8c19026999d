//! What the operands of `**` and of `??` may be.

ghost use Rattle.std.specs.Prelude.{◌≡◌, ◌&&◌, ◌==◌, Some};
ghost use Rattle.esb_grammar.specs.Grammar.{loosest};
ghost use Rattle.esb_operator_laws.specs.Ladder as spec;

use esb_tree::{Expression, Operand, level_of};

/// A unary expression that is no UpdateExpression (12.5, 14.7).
#[tactic(auto, unfolding(esb_operator_laws::specs::Ladder::is_prefixed))]
fn is_prefixed(x: &Expression) -> bool
    ensures { result ≡ spec.is_prefixed x.now }
{
    matches!(x, Expression::Unary(_, _) | Expression::Await(_, _))
}

/// Each operand of `**` but the last is an UpdateExpression (12.6).
fn powers_fit(first: &Expression, rest: &[Operand]) -> bool
    ensures { result ≡ spec.powers_fit first.now rest.now }
{
    let mut before = is_prefixed(first);
    for turn in 0..rest.len() {
        if before {
            return false;
        }
        before = is_prefixed(&rest[turn].value);
    }
    true
}

fn operator_level(rest: &[Operand]) -> u8
    ensures { result ≡ spec.operands_level rest.now }
{
    match rest {
        [operand, ..] => level_of(true, operand.operator.kind),
        [] => 0,
    }
}

/// How loosely the operators of a chain bind, and 0 for what is none.
#[tactic(auto, unfolding(esb_operator_laws::specs::Ladder::level_of_chain))]
fn level_of_chain(x: &Expression) -> u8
    ensures { result ≡ spec.level_of_chain x.now }
{
    match x {
        Expression::Binary(_, rest) => operator_level(rest.as_slice()),
        _ => 0,
    }
}

/// An operand of `??` is as tight as those of `&&` (12.13).
fn is_tight(x: &Expression) -> bool
    ensures { result ≡ spec.is_tight x.now }
{
    level_of_chain(x) <= 9
}

fn are_tight(rest: &[Operand]) -> bool
    ensures { result ≡ spec.are_tight rest.now }
{
    for turn in 0..rest.len() {
        if !is_tight(&rest[turn].value) {
            return false;
        }
    }
    true
}

fn all_tight(first: &Expression, rest: &[Operand]) -> bool
    ensures { result ≡ (spec.is_tight first.now && spec.are_tight rest.now) }
{
    is_tight(first) && are_tight(rest)
}

/// Whether the operators are those of `??`, read as such.
fn coalesces(level: u8, rest: &[Operand]) -> bool
    ensures { result ≡ (level == loosest && spec.operands_level rest.now == loosest) }
{
    level == 12 && operator_level(rest) == 12
}

fn operands_fit(level: u8, first: &Expression, rest: &[Operand]) -> bool
    ensures { result ≡ spec.operands_fit level (Some (first.now, rest.now)) }
{
    if level == 1 {
        return powers_fit(first, rest);
    }
    if coalesces(level, rest) {
        return all_tight(first, rest);
    }
    true
}

/// Whether a chain has the operands that its level takes.
#[tactic(auto, unfolding(esb_operator_laws::specs::Ladder::fits_level))]
pub fn fits_level(level: u8, x: &Expression) -> bool
    ensures { result ≡ spec.fits_level level x.now }
{
    match x {
        Expression::Binary(first, rest) => operands_fit(level, first.get(), rest.as_slice()),
        _ => true,
    }
}
