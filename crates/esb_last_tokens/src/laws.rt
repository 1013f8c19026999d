//! The laws.

ghost use Rattle.esb_last_tokens.specs.Laws as law;

/// An expression whose last token is `++` or `--` ends with a postfix operator. So what may follow it on the next line without
/// going on with it ends it, and so do the tokens that end every expression. An expression that is the token `let` is this name.
pub fn last_tokens()
    ensures updates { law.UpdateIsPostfix }
    ensures lines { law.NextLineEnds }
    ensures kinds { law.KindEnds }
    ensures alone { law.LetAlone }
{}
