//! Lines of tokens.

ghost use Rattle.std.specs.Prelude.{◌≡◌, ◌++◌, ℕ, List as Listed, IfOk, OnOk, OnErr};
ghost use Rattle.esb_print.specs.Lines as spec;
ghost use Rattle.esb_print.specs.Again.{ArePrintable, ReadsAgain};

use crate::gap::has_gap;
use esb_base::{List, Memory, Text};
use esb_token::{Kind, Token};
use std::alloc::Global;

/// The bytes from one place up to another, as far as there are any.
fn between(bytes: &[u8], start: usize, end: usize) -> &[u8]
    ensures { result.now ≡ spec.between bytes.now start end }
{
    let end = end.min(bytes.len());
    let start = start.min(end);
    &bytes[start..end]
}

#[tactic(auto, unfolding(crate::specs::Lines::spelling))]
fn put_spelling(bytes: &[u8], token: Token, out: &mut List<u8>) -> Result<(), Memory>
    ensures ok { OnOk result (out.new ≡ out.old ++ spec.spelling bytes.now token) }
    ensures err { OnErr result (out.new ≡ out.old) }
{
    if token.start == token.end {
        out.push(b';')
    } else {
        out.extend_from_slice(between(bytes, token.start, token.end))
    }
}

#[tactic(auto, unfolding(crate::specs::Lines::gap))]
fn put_gap(last: Option<Kind>, next: Kind, out: &mut List<u8>) -> Result<(), Memory>
    ensures ok { OnOk result (out.new ≡ out.old ++ spec.gap last next) }
    ensures err { OnErr result (out.new ≡ out.old) }
{
    match last {
        Some(last) if has_gap(last, next) => out.push(b' '),
        _ => Ok(()),
    }
}

/// The tokens of a line. Where memory was refused, some of its bytes may stand at the end.
fn put_line(bytes: &[u8], tokens: &[Token], out: &mut List<u8>) -> Result<(), Memory>
    ensures ok { OnOk result (out.new ≡ out.old ++ spec.rest_of_line bytes.now None tokens.now) }
    ensures err { OnErr result ((more : Listed ℕ) × (out.new ≡ out.old ++ more)) }
{
    let mut last = None;
    for token in tokens {
        put_gap(last, token.kind, out)?;
        put_spelling(bytes, *token, out)?;
        last = Some(token.kind);
    }
    out.push(b'\n')
}

/// The tokens of a line, or none where memory was refused.
fn put_whole_line(bytes: &[u8], tokens: &[Token], out: &mut List<u8>) -> Result<(), Memory>
    ensures ok { OnOk result (out.new ≡ out.old ++ spec.rest_of_line bytes.now None tokens.now) }
    ensures err { OnErr result (out.new ≡ out.old) }
{
    let len = out.len();
    match put_line(bytes, tokens, out) {
        Ok(()) => Ok(()),
        Err(refused) => {
            out.truncate(len);
            Err(refused)
        }
    }
}

/// Appends the line of the tokens of one statement: their spellings with the gaps between them, and a line feed. A token
/// whose start is its end stands for a semicolon that was left out, and is printed as `;`. `Err` says that memory was
/// refused, and leaves `out` as it was.
#[tactic(auto, unfolding(crate::specs::Lines::line))]
pub fn append_line(contents: &Text, tokens: &[Token], out: &mut List<u8>) -> Result<(), Memory>
    ensures ok { OnOk result (out.new ≡ out.old ++ spec.line contents.now tokens.now) }
    ensures err { OnErr result (out.new ≡ out.old) }
{
    put_whole_line(contents.as_bytes(), tokens, out)
}

/// The text of some statements, a line for each. Where the contents spell the tokens, but for semicolons that were left out,
/// and they may follow one another, the text reads as the same tokens again. `Err` says that memory was refused.
#[tactic(auto, unfolding(crate::specs::Lines::text_of, crate::specs::Lines::line))]
pub fn text_of_lines(
    alloc: Global,
    contents: &Text,
    lines: &[List<Token>],
) -> Result<List<u8>, Memory>
    ensures text { IfOk result (λ text. text ≡ spec.text_of contents.now lines.now) }
    ensures again { IfOk result (λ text. ArePrintable contents.now lines.now → ReadsAgain contents.now lines.now text) }
{
    let bytes = contents.as_bytes();
    let mut out = List::new(alloc);
    for line in lines {
        put_whole_line(bytes, line.as_slice(), &mut out)?;
    }
    Ok(out)
}
