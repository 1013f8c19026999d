use super::*;
use esb_base::{Memory, Text};
use esb_token::Kind;
use std::alloc::Global;
use std::test::Fail;

/// Whether the token at a place has this kind and stands from one place up to another.
fn reads(
    alloc: Global,
    text: &str,
    goal: Goal,
    wanted: (usize, Kind, usize, usize),
) -> Result<bool, Memory> {
    let contents = Text::of(alloc, text)?;
    let (at, kind, start, end) = wanted;
    if contents.as_bytes().len() < at {
        return Ok(false);
    }
    Ok(match next(&contents, at, goal) {
        Ok(token) => token.kind == kind && token.start == start && token.end == end,
        Err(_) => false,
    })
}

/// Whether the tokens of a text up to its end have these kinds, read under one goal.
fn has_kinds(contents: &Text, goal: Goal, kinds: &[Kind]) -> bool {
    let mut at = 0;
    for kind in kinds {
        if contents.as_bytes().len() < at {
            return false;
        }
        match next(contents, at, goal) {
            Ok(token) if token.kind == *kind => at = token.end,
            _ => return false,
        }
    }
    contents.as_bytes().len() == at
}

/// Whether a text is spelled by tokens of these kinds.
fn spells(alloc: Global, goal: Goal, text: &str, kinds: &[Kind]) -> Result<bool, Memory> {
    let contents = Text::of(alloc, text)?;
    Ok(has_kinds(&contents, goal, kinds))
}

/// Whether the first token of a text can't be read, at this place.
fn refuses(alloc: Global, goal: Goal, text: &str, place: usize) -> Result<bool, Memory> {
    let contents = Text::of(alloc, text)?;
    Ok(match next(&contents, 0, goal) {
        Ok(_) => false,
        Err(LexFault::BadToken(at)) => at == place,
    })
}

/// The first of these texts whose first token can be read.
fn first_read<'a>(alloc: Global, goal: Goal, texts: &[&'a str]) -> Result<Option<&'a str>, Memory> {
    for text in texts {
        if !refuses(alloc, goal, text, 0)? {
            return Ok(Some(text));
        }
    }
    Ok(None)
}

/// Whether a line ends before the first token.
fn after_line(alloc: Global, text: &str) -> Result<Option<bool>, Memory> {
    let contents = Text::of(alloc, text)?;
    Ok(match next(&contents, 0, Goal::Div) {
        Ok(token) => Some(token.after_line),
        Err(_) => None,
    })
}

/// Whether a string literal has these code units.
fn has_value(alloc: Global, text: &str, units: &[u16]) -> Result<bool, Memory> {
    let contents = Text::of(alloc, text)?;
    match next(&contents, 0, Goal::Div) {
        Ok(token) => match token.kind {
            Kind::Text => {
                let value = string_value(alloc, &token, &contents)?;
                Ok(value.as_slice() == units)
            }
            _ => Ok(false),
        },
        Err(_) => Ok(false),
    }
}

#[test]
fn reads_by_the_goal(rt: HostRuntime) -> Result<(), Fail> {
    let alloc = rt.alloc();
    assert!(rt; reads(alloc, "a /b/g", Goal::RegExp, (2, Kind::RegExp, 2, 6))?);
    assert!(rt; reads(alloc, "a /b/g", Goal::Div, (2, Kind::Slash, 2, 3))?);
    assert!(rt;
        reads(
            alloc,
            "}a`",
            Goal::TemplateTail,
            (0, Kind::TemplateTail, 0, 3)
        )?
    );
    assert!(rt; reads(alloc, "}a`", Goal::Div, (0, Kind::RightBrace, 0, 1))?);
    assert!(rt; reads(alloc, "#!/bin/node\na", Goal::Div, (0, Kind::Name, 12, 13))?);
    assert!(rt; reads(alloc, "a  ", Goal::Div, (1, Kind::End, 3, 3))?);
    assert!(rt; refuses(alloc, Goal::Div, "/*", 0)?);
    assert!(rt; refuses(alloc, Goal::RegExp, " /* *", 1)?);
    Ok(())
}

#[test]
fn punctuators(rt: HostRuntime) -> Result<(), Fail> {
    let alloc = rt.alloc();
    let shifts = [
        Kind::ShiftRightUnsignedAssign,
        Kind::ShiftRightUnsigned,
        Kind::ShiftRightAssign,
        Kind::GreaterEqual,
    ];
    assert!(rt; spells(alloc, Goal::Div, ">>>=>>> >>=>=", &shifts)?);
    let chain = [
        Kind::Name,
        Kind::QuestionDot,
        Kind::Name,
        Kind::QuestionQuestion,
        Kind::Name,
        Kind::Question,
        Kind::Number,
        Kind::Colon,
    ];
    assert!(rt; spells(alloc, Goal::Div, "a?.b??a?.5:", &chain)?);
    let others = [
        Kind::Ellipsis,
        Kind::Dot,
        Kind::Dot,
        Kind::StrictEqual,
        Kind::Assign,
        Kind::StarStarAssign,
        Kind::Arrow,
    ];
    assert!(rt; spells(alloc, Goal::Div, "..... ====**==>", &others)?);
    Ok(())
}

#[test]
fn names(rt: HostRuntime) -> Result<(), Fail> {
    let alloc = rt.alloc();
    assert!(rt;
        spells(
            alloc,
            Goal::Div,
            "await yields of\u{2003}instanceof",
            &[Kind::Await, Kind::Name, Kind::Name, Kind::Instanceof]
        )?
    );
    assert!(rt;
        spells(
            alloc,
            Goal::Div,
            "\\u0061wait \\u{0061}w \u{fc}_$1\u{200d}",
            &[Kind::Name, Kind::Name, Kind::Name]
        )?
    );
    assert!(rt;
        first_read(
            alloc,
            Goal::Div,
            &[
                "\\u0031a",
                "\\u{110000}",
                "\\u{}",
                "\\ua",
                "@",
                "#a",
                "\u{200d}"
            ]
        )?
        .is_none()
    );
    Ok(())
}

#[test]
fn numbers(rt: HostRuntime) -> Result<(), Fail> {
    let alloc = rt.alloc();
    assert!(rt;
        spells(
            alloc,
            Goal::Div,
            "0 1.5 .5 5. 5.e1 1E+5 0xfF 0o17 0B10",
            &[Kind::Number; 9]
        )?
    );
    assert!(rt; spells(alloc, Goal::Div, "0n 12n 0xFn 0b1n", &[Kind::BigInt; 4])?);
    assert!(rt;
        spells(
            alloc,
            Goal::Div,
            "1..a 1-a",
            &[
                Kind::Number,
                Kind::Dot,
                Kind::Name,
                Kind::Number,
                Kind::Minus,
                Kind::Name
            ]
        )?
    );
    assert!(rt;
        first_read(
            alloc,
            Goal::Div,
            &[
                "01", "08", "3in", "1_0", "0x", "1e", "1.5n", "0b12", "1n5", "5\\u0061"
            ]
        )?
        .is_none()
    );
    Ok(())
}

#[test]
fn strings(rt: HostRuntime) -> Result<(), Fail> {
    let alloc = rt.alloc();
    assert!(rt;
        spells(
            alloc,
            Goal::Div,
            "'a\"'\"\\\"\"'''\u{2028}''\\\r\n'",
            &[Kind::Text; 5]
        )?
    );
    assert!(rt;
        first_read(
            alloc,
            Goal::Div,
            &[
                "'a\n'",
                "'\\1'",
                "'\\08'",
                "'\\8'",
                "'\\xG1'",
                "'\\u{110000}'",
                "'a",
                "'\\'"
            ]
        )?
        .is_none()
    );
    assert!(rt; has_value(alloc, "\"\\u{1F600}\"", &[0xD83D, 0xDE00])?);
    assert!(rt; has_value(alloc, "'\u{1F600}\u{e9}'", &[0xD83D, 0xDE00, 0xE9])?);
    assert!(rt;
        has_value(
            alloc,
            "'\\uDE00\\uD83D\\x41\\0\\n\\q\\\r\n\\\u{2028}z'",
            &[0xDE00, 0xD83D, 0x41, 0, 10, 113, 122]
        )?
    );
    Ok(())
}

#[test]
fn templates_and_regular_expressions(rt: HostRuntime) -> Result<(), Fail> {
    let alloc = rt.alloc();
    assert!(rt;
        spells(
            alloc,
            Goal::Div,
            "`a\n``\\``  `$a\\${`",
            &[Kind::TemplateWhole; 3]
        )?
    );
    assert!(rt;
        spells(
            alloc,
            Goal::TemplateTail,
            "`${}$a${}`",
            &[Kind::TemplateHead, Kind::TemplateMiddle, Kind::TemplateTail]
        )?
    );
    assert!(rt;
        spells(
            alloc,
            Goal::RegExp,
            "/a[/\\]]\\//gi /=/ /}/",
            &[Kind::RegExp; 3]
        )?
    );
    assert!(rt;
        first_read(
            alloc,
            Goal::RegExp,
            &["/a", "/a\n/", "/*a", "/[/", "/\\\u{2028}/", "`a", "`\\`"]
        )?
        .is_none()
    );
    Ok(())
}

#[test]
fn lines(rt: HostRuntime) -> Result<(), Fail> {
    let alloc = rt.alloc();
    assert_eq!(rt; after_line(alloc, " \u{feff}\u{3000}/* */a")?, Some(false));
    assert_eq!(rt; after_line(alloc, "/*\n*/a")?, Some(true));
    assert_eq!(rt; after_line(alloc, "/*\u{2029}*/a")?, Some(true));
    assert_eq!(rt; after_line(alloc, "//x\ra")?, Some(true));
    assert_eq!(rt; after_line(alloc, "\u{2028}a")?, Some(true));
    assert_eq!(rt; after_line(alloc, "#!x")?, Some(false));
    Ok(())
}

#[test]
fn every_punctuator(rt: HostRuntime) -> Result<(), Fail> {
    let alloc = rt.alloc();
    let short = [
        Kind::LeftBrace,
        Kind::RightBrace,
        Kind::LeftParenthesis,
        Kind::RightParenthesis,
        Kind::LeftBracket,
        Kind::RightBracket,
        Kind::Dot,
        Kind::Ellipsis,
        Kind::Semicolon,
        Kind::Comma,
        Kind::Colon,
        Kind::Tilde,
        Kind::Question,
        Kind::QuestionQuestion,
        Kind::QuestionDot,
    ];
    assert!(rt;
        spells(
            alloc,
            Goal::Div,
            "{ } ( ) [ ] . ... ; , : ~ ? ?? ?.",
            &short
        )?
    );
    let compared = [
        Kind::Less,
        Kind::Greater,
        Kind::LessEqual,
        Kind::GreaterEqual,
        Kind::Equal,
        Kind::NotEqual,
        Kind::StrictEqual,
        Kind::StrictNotEqual,
        Kind::Exclamation,
        Kind::AndAnd,
        Kind::BarBar,
        Kind::Assign,
        Kind::Arrow,
    ];
    assert!(rt;
        spells(
            alloc,
            Goal::Div,
            "< > <= >= == != === !== ! && || = =>",
            &compared
        )?
    );
    Ok(())
}

#[test]
fn every_operator(rt: HostRuntime) -> Result<(), Fail> {
    let alloc = rt.alloc();
    let plain = [
        Kind::Plus,
        Kind::Minus,
        Kind::Star,
        Kind::Slash,
        Kind::Percent,
        Kind::StarStar,
        Kind::PlusPlus,
        Kind::MinusMinus,
        Kind::ShiftLeft,
        Kind::ShiftRight,
        Kind::ShiftRightUnsigned,
        Kind::Ampersand,
        Kind::Bar,
        Kind::Caret,
    ];
    assert!(rt;
        spells(
            alloc,
            Goal::Div,
            "+ - * / % ** ++ -- << >> >>> & | ^",
            &plain
        )?
    );
    let assigned = [
        Kind::PlusAssign,
        Kind::MinusAssign,
        Kind::StarAssign,
        Kind::SlashAssign,
        Kind::PercentAssign,
        Kind::StarStarAssign,
        Kind::ShiftLeftAssign,
        Kind::ShiftRightAssign,
        Kind::ShiftRightUnsignedAssign,
        Kind::AmpersandAssign,
        Kind::BarAssign,
        Kind::CaretAssign,
    ];
    assert!(rt;
        spells(
            alloc,
            Goal::Div,
            "+= -= *= /= %= **= <<= >>= >>>= &= |= ^=",
            &assigned
        )?
    );
    Ok(())
}

#[test]
fn reserved_words(rt: HostRuntime) -> Result<(), Fail> {
    let alloc = rt.alloc();
    let first = [
        Kind::Await,
        Kind::Break,
        Kind::Case,
        Kind::Catch,
        Kind::Class,
        Kind::Const,
        Kind::Continue,
        Kind::Debugger,
        Kind::Default,
        Kind::Delete,
        Kind::Do,
        Kind::Else,
        Kind::Enum,
        Kind::Export,
        Kind::Extends,
        Kind::False,
    ];
    let words =
        "await break case catch class const continue debugger default delete do else enum export extends false";
    assert!(rt; spells(alloc, Goal::Div, words, &first)?);
    let second = [
        Kind::Finally,
        Kind::For,
        Kind::Function,
        Kind::If,
        Kind::Implements,
        Kind::Import,
        Kind::In,
        Kind::Instanceof,
        Kind::Interface,
        Kind::Let,
        Kind::New,
        Kind::Null,
        Kind::Package,
        Kind::Private,
        Kind::Protected,
    ];
    let words =
        "finally for function if implements import in instanceof interface let new null package private protected";
    assert!(rt; spells(alloc, Goal::Div, words, &second)?);
    let third = [
        Kind::Public,
        Kind::Return,
        Kind::Static,
        Kind::Super,
        Kind::Switch,
        Kind::This,
        Kind::Throw,
        Kind::True,
        Kind::Try,
        Kind::Typeof,
        Kind::Var,
        Kind::Void,
        Kind::While,
        Kind::With,
        Kind::Yield,
    ];
    let words =
        "public return static super switch this throw true try typeof var void while with yield";
    assert!(rt; spells(alloc, Goal::Div, words, &third)?);
    Ok(())
}

#[test]
fn white_space(rt: HostRuntime) -> Result<(), Fail> {
    let alloc = rt.alloc();
    let spaces = "\t\u{b}\u{c} \u{a0}\u{feff}\u{1680}\u{2000}\u{200a}\u{202f}\u{205f}\u{3000}a";
    assert_eq!(rt; after_line(alloc, spaces)?, Some(false));
    assert_eq!(rt; after_line(alloc, "\u{180e}a")?, None);
    assert_eq!(rt; after_line(alloc, "\u{85}a")?, None);
    assert_eq!(rt; after_line(alloc, "/* // */a")?, Some(false));
    assert_eq!(rt; after_line(alloc, "// /*\n*/")?, Some(true));
    assert_eq!(rt; after_line(alloc, "/**/<!--")?, Some(false));
    assert!(rt; refuses(alloc, Goal::Div, "/* /**/ /*/", 8)?);
    assert!(rt; refuses(alloc, Goal::TemplateTail, "\n/*", 1)?);
    Ok(())
}
