//! White space and comments.

ghost use Rattle.std.specs.Prelude.{◌≡◌, ◌+◌, ◌<◌, ◌≤◌, length, drop};
ghost use Rattle.esb_token.specs.Gaps as spec;
ghost use Rattle.esb_token.specs.Characters as characters;
ghost use Rattle.esb_token.specs.Runs as runs;

use crate::bytes::{after, at_line_end, begins_with, character, code_point, is_space};
use crate::run::{Extent, LinedPart, Part, run, run_lined};

struct LineCommentByte;

impl Part for LineCommentByte {
    ghost part = { λ _ text. spec.line_comment_byte text };

    #[tactic(auto, unfolding(esb_token::specs::Gaps::line_comment_byte))]
    fn length(&self, text: &[u8]) -> usize {
        match text {
            [] => 0,
            [_, ..] => { if at_line_end(text) { 0 } else { 1 } }
        }
    }
}

struct BlockCommentByte;

impl LinedPart for BlockCommentByte {
    ghost part = { λ _ text. spec.block_comment_byte text };

    ghost line = { λ _ text. characters.at_line_end text };

    #[tactic(auto, unfolding(esb_token::specs::Gaps::block_comment_byte))]
    fn extent(&self, text: &[u8]) -> Extent {
        let length = match text {
            [] => 0,
            [_, ..] => { if begins_with(text, b'*', b'/') { 0 } else { 1 } }
        };
        let has_line = at_line_end(text);
        Extent { length, has_line }
    }
}

/// The bytes from a `//` or `#!` up to the line's end.
fn line_comment(text: &[u8]) -> usize
    requires { 2 ≤ length text.now }
    ensures value { result ≡ 2 + runs.run spec.line_comment_byte (drop 2 text.now) }
    ensures within { result ≤ length text.now }
{
    2 + run(&LineCommentByte, after(text, 2))
}

/// The comment from a `/*`. Its length is 0 where it isn't closed.
#[tactic(auto, unfolding(esb_token::specs::Gaps::block_comment))]
fn block_comment(text: &[u8]) -> Extent
    requires { 2 ≤ length text.now }
    ensures value { result.length ≡ spec.block_comment text.now }
    ensures within { result.length ≤ length text.now }
    ensures lined { result.has_line ≡ runs.run_any spec.block_comment_byte characters.at_line_end (drop 2 text.now) }
{
    let body = run_lined(&BlockCommentByte, after(text, 2));
    let length = if 3 + body.length < text.len() {
        body.length + 4
    } else {
        0
    };
    let has_line = body.has_line;
    Extent { length, has_line }
}

/// A separator, by the standard's order of the cases.
#[tactic(auto, unfolding(esb_token::specs::Gaps::separator, esb_token::specs::Gaps::has_line, esb_token::specs::Gaps::comment))]
fn separator_extent(text: &[u8]) -> Extent
    ensures value { result.length ≡ spec.separator text.now }
    ensures within { result.length ≤ length text.now }
    ensures lined { 0 < result.length → result.has_line ≡ spec.has_line text.now }
{
    if at_line_end(text) {
        let length = character(text);
        return Extent {
            length,
            has_line: true,
        };
    }
    if is_space(code_point(text)) {
        let length = character(text);
        return Extent {
            length,
            has_line: false,
        };
    }
    if begins_with(text, b'/', b'/') {
        let length = line_comment(text);
        return Extent {
            length,
            has_line: false,
        };
    }
    if begins_with(text, b'/', b'*') {
        return block_comment(text);
    }
    Extent {
        length: 0,
        has_line: false,
    }
}

struct Separator;

impl LinedPart for Separator {
    ghost part = { λ _ text. spec.separator text };

    ghost line = { λ _ text. spec.has_line text };

    // Most tokens begin with an ASCII character that no separator has, or stand behind one space: both are told by one byte.
    #[tactic(auto, unfolding(esb_token::specs::Gaps::separator, esb_token::specs::Gaps::has_line, esb_token::specs::Gaps::comment, esb_token::specs::Characters::at_line_end, esb_token::specs::Characters::code_point, esb_token::specs::Characters::character))]
    fn extent(&self, text: &[u8]) -> Extent {
        match text {
            [b' ', ..] => Extent {
                length: 1,
                has_line: false,
            },
            [b'!'..=b'.' | b'0'..=b'~', ..] => Extent {
                length: 0,
                has_line: false,
            },
            _ => separator_extent(text),
        }
    }
}

/// What stands between a place and the next token.
#[tactic(auto, unfolding(esb_token::specs::Gaps::gap, esb_token::specs::Gaps::gap_has_line))]
pub fn gap(text: &[u8]) -> Extent
    ensures value { result.length ≡ spec.gap text.now }
    ensures within { result.length ≤ length text.now }
    ensures lined { result.has_line ≡ spec.gap_has_line text.now }
{
    run_lined(&Separator, text)
}

/// A first line `#!`.
#[tactic(auto, unfolding(esb_token::specs::Gaps::interpreter_line))]
pub fn interpreter_line(text: &[u8]) -> usize
    ensures value { result ≡ spec.interpreter_line text.now }
    ensures within { result ≤ length text.now }
{
    if begins_with(text, b'#', b'!') {
        line_comment(text)
    } else {
        0
    }
}
