use super::*;
use esb_base::{List, Memory, Text};
use esb_lex::next;
use esb_token::{Goal, Kind, Token};
use std::alloc::Global;
use std::test::Fail;

/// The tokens of a text, each read under its goal of this list, and under `Div` where the list has ended.
fn tokens(alloc: Global, contents: &Text, goals: &[Goal]) -> Result<List<Token>, Memory> {
    let mut tokens = List::new(alloc);
    let length = contents.as_bytes().len();
    let mut at = 0;
    for number in 0..length {
        let goal = match goals.get(number) {
            Some(goal) => *goal,
            None => Goal::Div,
        };
        if length < at {
            break;
        }
        match next(contents, at, goal) {
            Ok(token) if token.kind != Kind::End => {
                tokens.push(token)?;
                at = token.end;
            }
            _ => break,
        }
    }
    Ok(tokens)
}

/// Whether the line of a text's tokens, with a semicolon that was left out behind them, is this one.
fn prints(alloc: Global, text: &str, goals: &[Goal], wanted: &str) -> Result<bool, Memory> {
    let contents = Text::of(alloc, text)?;
    let mut line = tokens(alloc, &contents, goals)?;
    line.push(Token {
        kind: Kind::Semicolon,
        start: 0,
        end: 0,
        after_line: false,
    })?;
    let mut out = List::new(alloc);
    append_line(&contents, line.as_slice(), &mut out)?;
    Ok(out.as_slice() == wanted.as_bytes())
}

#[test]
fn gaps_between_operators(rt: HostRuntime) -> Result<(), Fail> {
    let alloc = rt.alloc();
    assert!(rt; prints(alloc, "a + +b", &[], "a + + b;\n")?);
    assert!(rt; prints(alloc, "a- -b", &[], "a - - b;\n")?);
    assert!(rt; prints(alloc, "a+++b", &[], "a ++ + b;\n")?);
    assert!(rt; prints(alloc, "a<!--b", &[], "a < ! -- b;\n")?);
    assert!(rt; prints(alloc, "a/*c*/*b//d", &[], "a * b;\n")?);
    Ok(())
}

#[test]
fn gaps_behind_numbers(rt: HostRuntime) -> Result<(), Fail> {
    let alloc = rt.alloc();
    assert!(rt; prints(alloc, "1 .x", &[], "1 .x;\n")?);
    assert!(rt; prints(alloc, "1..x", &[], "1. .x;\n")?);
    assert!(rt; prints(alloc, "2n?.x", &[], "2n ?.x;\n")?);
    assert!(rt; prints(alloc, "x = a ?.5 : b", &[], "x = a ? .5: b;\n")?);
    Ok(())
}

#[test]
fn gaps_round_names_and_brackets(rt: HostRuntime) -> Result<(), Fail> {
    let alloc = rt.alloc();
    assert!(rt;
        prints(
            alloc,
            "return{a:typeof b,...c}",
            &[],
            "return { a: typeof b, ...c };\n"
        )?
    );
    assert!(rt;
        prints(
            alloc,
            "if ( a ) b ( c ) [ 0 ] ?. [ 1 ]",
            &[],
            "if (a) b(c)[0]?.[1];\n"
        )?
    );
    assert!(rt;
        prints(
            alloc,
            "super (import (this [0]))",
            &[],
            "super(import(this[0]));\n"
        )?
    );
    assert!(rt;
        prints(
            alloc,
            "\\u{61}\u{e9} . yiel\\u0064 (\u{2118})",
            &[],
            "\\u{61}\u{e9}.yiel\\u0064(\u{2118});\n"
        )?
    );
    Ok(())
}

#[test]
fn literals_stay(rt: HostRuntime) -> Result<(), Fail> {
    let alloc = rt.alloc();
    let division = [Goal::Div, Goal::Div, Goal::RegExp];
    assert!(rt; prints(alloc, "a / /[/]x/g . y", &division, "a / /[/]x/g.y;\n")?);
    assert!(rt; prints(alloc, "x='a\\\n b\"' ", &[], "x = 'a\\\n b\"';\n")?);
    let nested = [
        Goal::Div,
        Goal::Div,
        Goal::Div,
        Goal::TemplateTail,
        Goal::TemplateTail,
    ];
    assert!(rt; prints(alloc, "`a${ `b${ c }` }d`", &nested, "`a${`b${c}`}d`;\n")?);
    Ok(())
}

#[test]
fn lines_of_a_text(rt: HostRuntime) -> Result<(), Fail> {
    let alloc = rt.alloc();
    let contents = Text::of(alloc, "#!esb\na\n=1/*\n*/;for(;;)break")?;
    let all = tokens(alloc, &contents, &[])?;
    assert_eq!(rt; all.len(), 10);
    let mut lines = Vec::new(alloc);
    let first = List::of(alloc, &all.as_slice()[..4])?;
    lines.push(first)?;
    let second = List::of(alloc, &all.as_slice()[4..])?;
    lines.push(second)?;
    let text = text_of_lines(alloc, &contents, lines.as_slice())?;
    assert!(rt; text.as_slice() == b"a = 1;\nfor (;;) break\n".as_slice());
    assert!(rt; has_gap(Kind::Return, Kind::Name) && !has_gap(Kind::Name, Kind::Dot));
    printed_is_read();
    Ok(())
}
