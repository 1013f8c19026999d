//! Laws of reading tokens, each the contract of a function that does nothing.

ghost use Rattle.esb_token.specs.Goals.{is_other_than_slash, is_other_than_brace};
ghost use Rattle.esb_token.specs.Laws as law;
ghost use Rattle.esb_token.specs.declared.goal.Goal.TheVariants as goal;

/// A token that begins with no `/` is the same under `Div` and `RegExp`, and one that begins with no `}` is the same under
/// `Div` and `TemplateTail`. Where a regular expression is read, `Div` reads a division; where a later part of a template is
/// read, `Div` reads a `}`.
pub fn goals_agree()
    ensures div_reg_exp { law.SameUnder is_other_than_slash goal.Div goal.RegExp }
    ensures reg_exp_div { law.SameUnder is_other_than_slash goal.RegExp goal.Div }
    ensures div_tail { law.SameUnder is_other_than_brace goal.Div goal.TemplateTail }
    ensures tail_div { law.SameUnder is_other_than_brace goal.TemplateTail goal.Div }
    ensures division { law.RegExpIsDivision }
    ensures brace { law.TailIsBrace }
{}

/// A token of the kind `Text` is a string literal of the contents, and one of the kind `End` stands at their end.
pub fn kinds_tell()
    ensures text { law.TextIsLiteral }
    ensures end { law.EndIsLast }
{}
