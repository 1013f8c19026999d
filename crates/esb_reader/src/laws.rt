//! Laws of single tokens, each the contract of a function that does nothing.

ghost use Rattle.esb_reader.specs.Laws as law;

/// A token of a text is read under a goal that its kind agrees with, just as under the goal of its kind. Where a regular
/// expression stands, a `/` or `/=` is seen, and where a template goes on, a `}`.
pub fn goals_agree()
    ensures spelled { law.SpelledIsRead }
    ensures read { law.ReadIsSpelled }
    ensures slash { law.RegExpShowsSlash }
    ensures brace { law.TailShowsBrace }
{}

/// A token that isn't the end takes a byte or more, behind the place from which it is read and within the text.
pub fn tokens_move()
    ensures token { law.TokenMoves }
    ensures tokens { law.TokensMove }
{}
