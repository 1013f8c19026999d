//! Operators by their kinds of token (ECMA-262, 12.5 to 12.15).

ghost use Rattle.std.specs.Prelude.{◌≡◌};
ghost use Rattle.esb_tree.specs.Operators as spec;

use esb_token::Kind;

/// How loosely a binary operator binds (12.6 to 12.13): 1 for `**`, 12 for `??`, and 0 for what is no operator. `has_in` says
/// whether `in` is one.
pub fn level_of(has_in: bool, kind: Kind) -> u8
    ensures { result ≡ spec.level_of has_in kind }
{
    match kind {
        Kind::StarStar => 1,
        Kind::Star | Kind::Slash | Kind::Percent => 2,
        Kind::Plus | Kind::Minus => 3,
        Kind::ShiftLeft | Kind::ShiftRight | Kind::ShiftRightUnsigned => 4,
        Kind::Less | Kind::Greater | Kind::LessEqual | Kind::GreaterEqual | Kind::Instanceof => 5,
        Kind::In => { if has_in { 5 } else { 0 } }
        Kind::Equal | Kind::NotEqual | Kind::StrictEqual | Kind::StrictNotEqual => 6,
        Kind::Ampersand => 7,
        Kind::Caret => 8,
        Kind::Bar => 9,
        Kind::AndAnd => 10,
        Kind::BarBar => 11,
        Kind::QuestionQuestion => 12,
        _ => 0,
    }
}

/// Whether it is the operator of a UnaryExpression (12.5).
pub fn is_unary(kind: Kind) -> bool
    ensures { result ≡ spec.is_unary kind }
{
    matches!(
        kind,
        Kind::Delete
            | Kind::Void
            | Kind::Typeof
            | Kind::Plus
            | Kind::Minus
            | Kind::Tilde
            | Kind::Exclamation
    )
}

/// Whether it is `=` or an AssignmentOperator (12.15).
pub fn is_assignment(kind: Kind) -> bool
    ensures { result ≡ spec.is_assignment kind }
{
    matches!(
        kind,
        Kind::Assign
            | Kind::PlusAssign
            | Kind::MinusAssign
            | Kind::StarAssign
            | Kind::SlashAssign
            | Kind::PercentAssign
            | Kind::StarStarAssign
            | Kind::ShiftLeftAssign
            | Kind::ShiftRightAssign
            | Kind::ShiftRightUnsignedAssign
            | Kind::AmpersandAssign
            | Kind::BarAssign
            | Kind::CaretAssign
    )
}
