//! The value of a string literal.

ghost use Rattle.std.specs.Prelude.{◌≡◌, ◌<◌, ◌≤◌, ◌^◌, ◌++◌, length, drop, slice_index, IfOk, OnOk};
ghost use Rattle.esb_token.specs.Strings as spec;
ghost use Rattle.esb_token.specs.Tokens.{IsStringLiteral};

use crate::bytes::{after, at_line_end, byte_at, code_point, hex_digit};
use crate::name::unicode_escape;
use crate::string::string_piece;
use esb_base::{List, Memory, Text};
use esb_token::Token;
use std::alloc::Global;

/// Adds the code units of a code point.
fn push_utf16(units: &mut List<u16>, code_point: u32) -> Result<(), Memory>
    requires { code_point < 2 ^ 23 }
    ensures { OnOk result (units.new ≡ units.old ++ spec.utf16 code_point) }
{
    if code_point < 0x1_0000 {
        return units.push(code_point as u16);
    }
    let offset = code_point - 0x1_0000;
    units.push((0xD800 + offset / 0x400) as u16)?;
    units.push((0xDC00 + offset % 0x400) as u16)
}

/// Adds the code units of a character that stands behind a backslash: none for the end of a line.
fn push_unescaped(units: &mut List<u16>, text: &[u8]) -> Result<(), Memory>
    ensures { OnOk result (units.new ≡ units.old ++ spec.unescaped_units text.now) }
{
    if at_line_end(text) {
        return Ok(());
    }
    push_utf16(units, code_point(text))
}

fn push_unicode_escape(units: &mut List<u16>, text: &[u8]) -> Result<(), Memory>
    ensures { OnOk result (units.new ≡ units.old ++ spec.unicode_units text.now) }
{
    match unicode_escape(text) {
        Some((value, _)) => push_utf16(units, value),
        None => Ok(()),
    }
}

/// Adds the code units of an escape, from its backslash.
#[tactic(auto, unfolding(esb_token::specs::Strings::string_escape_units))]
fn push_escape(units: &mut List<u16>, text: &[u8]) -> Result<(), Memory>
    requires { 1 ≤ length text.now }
    ensures { OnOk result (units.new ≡ units.old ++ spec.string_escape_units text.now) }
{
    match byte_at(text, 1) {
        b'x' => units.push((16 * hex_digit(byte_at(text, 2)) + hex_digit(byte_at(text, 3))) as u16),
        b'u' => push_unicode_escape(units, text),
        b'0' => units.push(0),
        b'b' => units.push(8),
        b'f' => units.push(12),
        b'n' => units.push(10),
        b'r' => units.push(13),
        b't' => units.push(9),
        b'v' => units.push(11),
        _ => push_unescaped(units, after(text, 1)),
    }
}

/// Adds the code units of a character or an escape.
#[tactic(auto, unfolding(esb_token::specs::Strings::piece_units))]
fn push_piece(units: &mut List<u16>, text: &[u8]) -> Result<(), Memory>
    ensures { OnOk result (units.new ≡ units.old ++ spec.piece_units text.now) }
{
    if byte_at(text, 0) == b'\\' {
        push_escape(units, text)
    } else {
        push_utf16(units, code_point(text))
    }
}

/// Adds the code units of the pieces up to the closing quote.
fn push_pieces(units: &mut List<u16>, quote: u8, body: &[u8]) -> Result<(), Memory>
    ensures { OnOk result (units.new ≡ units.old ++ spec.units_from quote 0 body.now) }
{
    let mut at = 0;
    while at < body.len() {
        let rest = after(body, at);
        let length = string_piece(quote, rest);
        if length == 0 {
            return Ok(());
        }
        push_piece(units, rest)?;
        at += length;
    }
    Ok(())
}

/// The code units that a string literal stands for, lone surrogates too (ECMA-262, 11.8.4.1).
#[tactic(auto, unfolding(esb_token::specs::Strings::string_value, esb_token::specs::Strings::string))]
pub fn string_value(alloc: Global, token: &Token, contents: &Text) -> Result<List<u16>, Memory>
    requires { IsStringLiteral contents.now token.now }
    ensures { IfOk result (λ units. units ≡ spec.string_value (drop token.now.start contents.now)) }
{
    let text = after(contents.as_bytes(), token.start);
    let quote = byte_at(text, 0);
    let mut units = List::from_vec(Vec::with_capacity(alloc, token.end - token.start)?);
    push_pieces(&mut units, quote, after(text, 1))?;
    Ok(units)
}
