//! The gaps between tokens.

ghost use Rattle.std.specs.Prelude.{◌≡◌};
ghost use Rattle.esb_print.specs.Gaps as spec;

use esb_token::Kind;

fn opens(kind: Kind) -> bool
    ensures { result ≡ spec.opens kind }
{
    matches!(
        kind,
        Kind::LeftParenthesis
            | Kind::LeftBracket
            | Kind::Dot
            | Kind::QuestionDot
            | Kind::Ellipsis
            | Kind::TemplateHead
            | Kind::TemplateMiddle
    )
}

fn closes(kind: Kind) -> bool
    ensures { result ≡ spec.closes kind }
{
    matches!(
        kind,
        Kind::RightParenthesis
            | Kind::RightBracket
            | Kind::Semicolon
            | Kind::Comma
            | Kind::Colon
            | Kind::TemplateMiddle
            | Kind::TemplateTail
    )
}

fn is_link(kind: Kind) -> bool
    ensures { result ≡ spec.is_link kind }
{
    matches!(kind, Kind::Dot | Kind::QuestionDot)
}

fn is_number(kind: Kind) -> bool
    ensures { result ≡ spec.is_number kind }
{
    matches!(kind, Kind::Number | Kind::BigInt)
}

fn begins_list(kind: Kind) -> bool
    ensures { result ≡ spec.begins_list kind }
{
    matches!(kind, Kind::LeftParenthesis | Kind::LeftBracket)
}

fn takes_list(kind: Kind) -> bool
    ensures { result ≡ spec.takes_list kind }
{
    matches!(
        kind,
        Kind::RightParenthesis
            | Kind::RightBracket
            | Kind::Name
            | Kind::Import
            | Kind::Super
            | Kind::This
    )
}

/// Whether a space is printed between a token of the one kind and a token of the other behind it.
#[tactic(auto, unfolding(crate::specs::Gaps::has_gap))]
pub fn has_gap(last: Kind, next: Kind) -> bool
    ensures { result ≡ spec.has_gap last next }
{
    let joined = opens(last)
        || closes(next)
        || is_link(next) && !is_number(last)
        || begins_list(next) && takes_list(last);
    !joined
}
