use super::*;
use esb_base::{List, Text};
use std::alloc::Global;
use std::test::Fail;

/// Texts of a value, one in a line.
const TEXTS: &str = "null\n\
[ true , false ]\n\
0\n\
-0.50e+3\n\
1E-2\n\
\"\"\n\
\"\\\"\\\\\\/\\b\\f\\n\\r\\t\\u00e9\\ud800 \u{7f}\u{e9}\u{20ac}\u{1f600}\"\n\
[]\n\
[ ]\n\
[1,[2],[]]\n\
{}\n\
{ }\n\
{ \"a\" : 1 , \"a\" : { \"\" : [ ] } }\n\
\t\r[\t1\r,\r2\t]\r\t\n\
\"\\uABCD\\uabcd\\uDC00\\uD800\"\n\
\"\u{2028}/'\u{10ffff}\"";

/// Texts of no value, one in a line, each behind the place where reading fails.
const OTHERS: &str = "0 \n\
1  \n\
0 \u{feff}1\n\
3 [1,]\n\
3 [1 2]\n\
1 [\n\
2 [1\n\
7 {\"a\":1,}\n\
5 {\"a\" 1}\n\
1 {1:2}\n\
2 1 2\n\
1 01\n\
1 -\n\
2 1.\n\
0 .5\n\
3 1e+\n\
0 +1\n\
1 nul\n\
0 True\n\
0 'a'\n\
2 \"a\n\
1 \"\t\"\n\
2 \"\\x\"\n\
5 \"\\u12g4\"\n\
5 \"\\u12\n\
0 \u{a0}1\n\
1 [,1]\n\
2 []]\n\
1 [}\n\
1 {,}\n\
5 {\"a\":}\n\
7 {\"a\":1 \"b\":2}\n\
6 {\"a\":1:2}\n\
7 {\"a\":1}}\n\
1 {a:1}\n\
2 -01\n\
2 1e\n\
1 0x1\n\
2 1.e1\n\
3 1.0.0\n\
1 -Infinity\n\
0 NaN\n\
4 nulll\n\
1 tRue\n\
2 1 // one\n\
1 \"\u{1f}\"\n\
2 \"\\\n\
2 \"\\U0041\"\n\
7 \"\\ud800\n\
3 \"a\"\"";

/// The place of the fault. A text that is read answers a place that no text of a test has.
fn place(alloc: Global, contents: &str) -> Result<usize, Fail> {
    match read_json(alloc, &Text::of(alloc, contents)?) {
        Ok(_) => Ok(1000),
        Err(JsonFault::NoJson(at)) => Ok(at),
        Err(JsonFault::Memory) => Ok(2000),
    }
}

fn all_are_read(alloc: Global) -> Result<bool, Fail> {
    for text in TEXTS.lines() {
        if place(alloc, text)? != 1000 {
            return Ok(false);
        }
    }
    Ok(true)
}

#[test]
fn texts_of_a_value(rt: HostRuntime) -> Result<(), Fail> {
    assert!(rt; all_are_read(rt.alloc())?);
    Ok(())
}

/// The first line whose text is read, or refused at another place.
fn first_taken(alloc: Global) -> Result<Option<&'static str>, Fail> {
    for line in OTHERS.lines() {
        let Some((at, text)) = line.split_once(' ') else {
            return Ok(Some(line));
        };
        if place(alloc, text)? != at.parse::<usize>()? {
            return Ok(Some(line));
        }
    }
    Ok(None)
}

#[test]
fn texts_of_no_value(rt: HostRuntime) -> Result<(), Fail> {
    assert!(rt; first_taken(rt.alloc())?.is_none());
    Ok(())
}

/// The place of the fault where so many arrays or objects stand in one another round a value.
fn nested(
    alloc: Global,
    open: &str,
    inner: &str,
    close: &str,
    count: usize,
) -> Result<usize, Fail> {
    let mut text = String::new(alloc);
    for _ in 0..count {
        text.push_str(open)?;
    }
    text.push_str(inner)?;
    for _ in 0..count {
        text.push_str(close)?;
    }
    place(alloc, text.as_str())
}

#[test]
fn levels(rt: HostRuntime) -> Result<(), Fail> {
    let alloc = rt.alloc();
    assert_eq!(rt; nested(alloc, "[", "", "]", 201)?, 1000);
    assert_eq!(rt; nested(alloc, "[", "", "]", 202)?, 201);
    assert_eq!(rt; nested(alloc, "[", "", "]", 5_000)?, 201);
    assert_eq!(rt; nested(alloc, "[", "1", "]", 200)?, 1000);
    assert_eq!(rt; nested(alloc, "[", "1", "]", 201)?, 201);
    assert_eq!(rt; nested(alloc, "{\"\":", "{}", "}", 200)?, 1000);
    assert_eq!(rt; nested(alloc, "{\"\":", "{}", "}", 201)?, 804);
    Ok(())
}

fn crosses_threads<T: Send + Sync>(_value: &T) {}

/// The object `{"a":1,"a":[]}`.
fn repeated_name(alloc: Global) -> Result<Json, Fail> {
    let mut members = List::new(alloc);
    let one = Json::Number(Text::of(alloc, "1")?);
    members.push((List::of(alloc, &[0x61])?, one))?;
    let none = Json::Array(List::new(alloc));
    members.push((List::of(alloc, &[0x61])?, none))?;
    Ok(Json::Object(members))
}

/// Whether the text is read to this value.
fn reads(alloc: Global, contents: &str, expected: &Json) -> Result<bool, Fail> {
    let value = read_json(alloc, &Text::of(alloc, contents)?)?;
    crosses_threads(&value);
    Ok(value == *expected)
}

#[test]
fn a_repeated_name_stays(rt: HostRuntime) -> Result<(), Fail> {
    let expected = repeated_name(rt.alloc())?;
    assert!(rt; reads(rt.alloc(), "{\"a\":1,\"a\":[]}", &expected)?);
    Ok(())
}

/// An unpaired surrogate, escapes, characters of two, three and four bytes, and a surrogate at the end.
const STRING: &str = "\"\\ud800\\\\\\/\\n\u{e9}\u{20ac}\u{1f600}\\uDE00\"";

const UNITS: [u16; 9] = [
    0xD800, 0x5C, 0x2F, 0x0A, 0xE9, 0x20AC, 0xD83D, 0xDE00, 0xDE00,
];

#[test]
fn code_units(rt: HostRuntime) -> Result<(), Fail> {
    let expected = Json::Str(List::of(rt.alloc(), &UNITS)?);
    assert!(rt; reads(rt.alloc(), STRING, &expected)?);
    Ok(())
}

/// Numbers, one in a line, that are kept as they are spelled.
const NUMBERS: &str = "0\n\
-0\n\
10\n\
1.0\n\
1.00\n\
-0.50e+3\n\
1E-02\n\
0e0\n\
9007199254740993\n\
1e400";

/// Whether each number has its spelling as its value, and no other.
fn all_are_kept(alloc: Global) -> Result<bool, Fail> {
    for spelling in NUMBERS.lines() {
        let number = Json::Number(Text::of(alloc, spelling)?);
        if !reads(alloc, spelling, &number)? {
            return Ok(false);
        }
    }
    Ok(true)
}

#[test]
fn spellings_of_numbers(rt: HostRuntime) -> Result<(), Fail> {
    assert!(rt; all_are_kept(rt.alloc())?);
    Ok(())
}
