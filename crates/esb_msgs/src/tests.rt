use super::*;
use esb_base::{Memory, Text};
use std::alloc::Global;
use std::test::Fail;

/// Texts, offsets, and the lines and columns there.
const PLACES: [(&[u8], usize, u32, u32); 8] = [
    (b"a\nbc", 3, 2, 1),
    (b"", 0, 1, 0),
    (b"abc", 3, 1, 3),
    (b"a\n", 1, 1, 1),
    (b"a\n", 2, 2, 0),
    (b"\n\n\n", 3, 4, 0),
    (b"a\r\nb", 2, 1, 2),
    (b"\xc3\xa4\n\xc3\xb6", 5, 2, 2),
];

fn is_at(contents: &[u8], offset: usize, line: u32, column: u32) -> bool {
    offset <= contents.len() && place_of(contents, offset) == (line, column)
}

fn is_found_at(
    alloc: Global,
    contents: &[u8],
    offset: usize,
    line: u32,
    column: u32,
) -> Result<bool, Memory> {
    if offset > contents.len() {
        return Ok(false);
    }
    let places = Places::of(alloc, contents)?;
    Ok(places.place_of(offset) == (line, column))
}

fn complaint(alloc: Global) -> Result<Message, Memory> {
    Ok(Message {
        text: Text::of(alloc, "Syntax error")?,
        file: Text::of(alloc, "a.js")?,
        line: 2,
        column: 1,
        length: 0,
    })
}

#[test]
fn places_one_by_one(rt: HostRuntime) {
    for (contents, offset, line, column) in PLACES {
        assert!(rt; is_at(contents, offset, line, column), "at {offset}");
    }
}

#[test]
fn places_of_one_text(rt: HostRuntime) -> Result<(), Fail> {
    for (contents, offset, line, column) in PLACES {
        assert!(rt;
            is_found_at(rt.alloc(), contents, offset, line, column)?,
            "at {offset}"
        );
    }
    Ok(())
}

#[test]
fn a_message_is_shared(rt: HostRuntime) -> Result<(), Fail> {
    let message = complaint(rt.alloc())?;
    let other = message.share()?;
    assert!(rt; message == other);
    assert!(rt; other.text.as_str() == "Syntax error");
    Ok(())
}
