//! The laws.

ghost use Rattle.esb_reading_laws.specs.Laws as law;

/// A token of a kind, and one that passes a test under a goal, are read exactly.
pub fn single_tokens()
    ensures kind { law.TokenRule }
    ensures test { law.TokenInRule }
{}

/// So are two parts in a row, a node that is made of its parts, and nodes that other words tell.
pub fn sequences<A, B>()
    ensures both { law.BothRule A B }
    ensures made { law.PlainRule A B }
    ensures such { law.SuchRule A }
    ensures above { law.AboveRule A B }
    ensures same { law.SameRule A }
{}

/// So are nodes of two sorts that the next token tells apart, nothing, and a part that may be absent.
pub fn choices<A>()
    ensures choice { law.ChoiceRule A }
    ensures empty { law.EmptyRule A }
    ensures optional { law.OptionalRule A }
{}

/// So are lists of items, and nodes over a first child and items.
pub fn lists<A, B>()
    ensures many { law.ManyRule A }
    ensures none { law.NoItems A }
    ensures chain { law.ChainRule A B }
{}

/// What is read exactly is one node alone, and a function that gives it meets both directions.
pub fn what_rules_give<A>()
    ensures one { law.OneNode A }
    ensures finds { law.RuleFinds A }
{}
