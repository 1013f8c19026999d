use super::*;
use std::test::Fail;

#[test]
fn goals_of_kinds(rt: HostRuntime) -> Result<(), Fail> {
    assert_eq!(rt; Kind::RegExp.goal(), Goal::RegExp);
    assert_eq!(rt; Kind::TemplateMiddle.goal(), Goal::TemplateTail);
    assert_eq!(rt; Kind::TemplateTail.goal(), Goal::TemplateTail);
    assert_eq!(rt; Kind::TemplateHead.goal(), Goal::Div);
    assert_eq!(rt; Kind::Slash.goal(), Goal::Div);
    goals_agree();
    kinds_tell();
    Ok(())
}
