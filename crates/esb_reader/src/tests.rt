use super::*;
use esb_base::Text;
use esb_token::{Goal, Kind};
use std::test::Fail;

#[test]
fn tokens_under_their_goals(rt: HostRuntime) -> Result<(), Fail> {
    let alloc = rt.alloc();
    let text = Text::of(alloc, "x /y/ }a`")?;
    assert!(rt; peek(&text, Goal::Div, 0).kind == Kind::Name);
    assert!(rt; peek(&text, Goal::Div, 1).kind == Kind::Slash);
    assert!(rt; peek(&text, Goal::RegExp, 1).kind == Kind::RegExp);
    assert!(rt; peek(&text, Goal::Div, 5).kind == Kind::RightBrace);
    assert!(rt; peek(&text, Goal::TemplateTail, 5).kind == Kind::TemplateTail);
    Ok(())
}

#[test]
fn ends_and_faults(rt: HostRuntime) -> Result<(), Fail> {
    let alloc = rt.alloc();
    let text = Text::of(alloc, "x '")?;
    assert!(rt; token_at(&text, Goal::Div, 1).is_none());
    assert!(rt; token_at(&text, Goal::Div, 3).is_some());
    assert!(rt; token_at(&text, Goal::Div, 4).is_none());
    assert!(rt; peek(&text, Goal::Div, 4).kind == Kind::End);
    assert!(rt; same_kind(Kind::Comma, Kind::Comma) && !same_kind(Kind::Comma, Kind::Dot));
    assert!(rt; expect(&text, Kind::Name, 0) == Ok((peek(&text, Goal::Div, 0), 1)));
    assert!(rt; expect(&text, Kind::Comma, 0) == Err(Fault::NoTree(0)));
    assert!(rt; take(&text, Goal::Div, 1) == Err(Fault::NoTree(1)));
    Ok(())
}
