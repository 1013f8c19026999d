//! The next token.

ghost use Rattle.std.specs.Prelude.{◌≡◌, ◌≢◌, ◌+◌, ◌^◌, ◌<◌, ◌≤◌, length, IfSome, IfOk, IfErr};
ghost use Rattle.esb_token.specs.Tokens as spec;
ghost use Rattle.esb_token.specs.Longest.{IsLongest, IsTokenAt};
ghost use Rattle.esb_lex.specs.Answers.{answer, IsWithin, IsPlace, IsLast, IsRefusal};
ghost use Rattle.esb_token.specs.declared.kind.Kind.TheVariants as k;
ghost use Rattle.esb_lex.specs.Pieces.{IsPiece};

use crate::bytes::{after, byte_at, is_digit};
use crate::gap::{gap, interpreter_line};
use crate::name::name;
use crate::number::number;
use crate::punctuator::{punctuator, with_equals};
use crate::regular_expression::regular_expression;
use crate::string::string;
use crate::template::template;
use esb_base::Text;
use esb_token::{Goal, Kind, Token};

/// Why no token was read.
#[derive(Clone, Copy, Debug, PartialEq, Eq)]
pub enum LexFault {
    /// At this place, behind white space and comments, neither the end nor a token of the goal stands, or a comment begins
    /// that isn't closed.
    BadToken(usize),
}

#[tactic(auto, unfolding(esb_token::specs::Tokens::division))]
fn division(text: &[u8]) -> Option<(Kind, usize)>
    requires { 1 ≤ length text.now }
    ensures value { result ≡ spec.division text.now }
    ensures within { IfSome result (IsPiece text.now) }
{
    if byte_at(text, 1) == b'*' {
        None
    } else {
        Some(with_equals(Kind::Slash, Kind::SlashAssign, 1, text))
    }
}

/// What begins with a `/` that begins no comment.
#[tactic(auto, unfolding(esb_token::specs::Tokens::slash))]
fn slash(goal: Goal, text: &[u8]) -> Option<(Kind, usize)>
    requires { 1 ≤ length text.now }
    ensures value { result ≡ spec.slash goal text.now }
    ensures within { IfSome result (IsPiece text.now) }
{
    match goal {
        Goal::Div | Goal::TemplateTail => division(text),
        Goal::RegExp => regular_expression(text),
    }
}

/// What begins with a `}`.
#[tactic(auto, unfolding(esb_token::specs::Tokens::right_brace))]
fn right_brace(goal: Goal, text: &[u8]) -> Option<(Kind, usize)>
    requires { 1 ≤ length text.now }
    ensures value { result ≡ spec.right_brace goal text.now }
    ensures within { IfSome result (IsPiece text.now) }
{
    match goal {
        Goal::Div | Goal::RegExp => Some((Kind::RightBrace, 1)),
        Goal::TemplateTail => template(Kind::TemplateTail, Kind::TemplateMiddle, text),
    }
}

fn punctuator_or_name(text: &[u8]) -> Option<(Kind, usize)>
    ensures value { result ≡ spec.punctuator_or_name text.now }
    ensures within { IfSome result (IsPiece text.now) }
{
    match punctuator(text) {
        Some(found) => Some(found),
        None => name(text),
    }
}

/// The token at the front, where neither white space nor a closed comment is.
#[tactic(auto, unfolding(esb_token::specs::Tokens::token))]
fn token(goal: Goal, text: &[u8]) -> Option<(Kind, usize)>
    ensures value { result ≡ spec.token goal text.now }
    ensures within { IfSome result (λ p. p.1 ≤ length text.now) }
    ensures progress { IfSome result (λ p. p.0 ≢ k.End → 1 ≤ p.1) }
{
    match text {
        [] => Some((Kind::End, 0)),
        [b'/', ..] => slash(goal, text),
        [b'}', ..] => right_brace(goal, text),
        [b'`', ..] => template(Kind::TemplateWhole, Kind::TemplateHead, text),
        [b'"' | b'\'', ..] => string(text),
        [b'0'..=b'9', ..] => number(text),
        [b'.', rest @ ..] if is_digit(byte_at(rest, 0)) => number(text),
        _ => punctuator_or_name(text),
    }
}

/// The token at the first place behind white space and comments, and where it stands.
#[tactic(auto, unfolding(esb_token::specs::Tokens::next_from))]
fn next_from(at: usize, rest: &[u8], goal: Goal) -> Result<Token, LexFault>
    requires { at + length rest.now < 2 ^ 64 }
    ensures value { result ≡ answer (spec.next_from at rest.now goal) }
    ensures within { IfOk result (IsWithin at (at + length rest.now)) }
    ensures progress { IfOk result (λ token. token.kind ≢ k.End → token.start < token.end) }
    ensures place { IfErr result (IsPlace at (at + length rest.now)) }
{
    let gap = gap(rest);
    let start = at + gap.length;
    let after_line = gap.has_line;
    match token(goal, after(rest, gap.length)) {
        Some((kind, length)) => Ok(Token {
            kind,
            start,
            end: start + length,
            after_line,
        }),
        None => Err(LexFault::BadToken(start)),
    }
}

#[tactic(auto, unfolding(esb_token::specs::Tokens::skipped))]
fn skipped(bytes: &[u8], at: usize) -> usize
    requires { at ≤ length bytes.now }
    ensures value { result ≡ spec.skipped bytes.now at }
    ensures within { at + result ≤ length bytes.now }
{
    if at == 0 { interpreter_line(bytes) } else { 0 }
}

/// The next token from a place on: the longest of the goal, at the first place behind white space and comments
/// (ECMA-262, clause 11). A first line `#!` is skipped at the very start. `at` is at most the contents' length, and where a
/// character begins. It is refused exactly where the contents don't end and no token of the goal stands, or where the longest
/// is a number with a digit or the start of a name directly behind it.
#[tactic(auto, unfolding(esb_token::specs::Tokens::next))]
pub fn next(contents: &Text, at: usize, goal: Goal) -> Result<Token, LexFault>
    requires { at ≤ length contents.now }
    ensures value { result ≡ answer (spec.next contents.now at goal) }
    ensures spelled { IfOk result (λ token. token.kind ≢ k.End → IsTokenAt goal contents.now token) }
    ensures longest { IfOk result (IsLongest goal contents.now) }
    ensures refused { IfErr result (IsRefusal goal contents.now) }
    ensures within { IfOk result (IsWithin at (length contents.now)) }
    ensures progress { IfOk result (λ token. token.kind ≢ k.End → token.start < token.end) }
    ensures place { IfErr result (IsPlace at (length contents.now)) }
    ensures literal { IfOk result (λ token. token.kind ≡ k.Text → spec.IsStringLiteral contents.now token) }
    ensures last { IfOk result (λ token. token.kind ≡ k.End → IsLast contents.now token) }
{
    let bytes = contents.as_bytes();
    let from = at + skipped(bytes, at);
    next_from(from, after(bytes, from), goal)
}
