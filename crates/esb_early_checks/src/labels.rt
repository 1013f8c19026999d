//! Labels, `break` and `continue` (ECMA-262, 13.8.1, 13.9.1, 13.13.1).

ghost use Rattle.std.specs.Prelude.{◌≡◌, ◌&&◌};
ghost use Rattle.esb_early_checks.specs.Findings.{Finds};
ghost use Rattle.esb_early_checks.specs.Labels as spec;

use crate::breach::Rule;
use crate::found::{Found, report_if};
use crate::label::Label;
use crate::setting::Setting;
use esb_names::is_same_name;
use esb_token::Token;

/// An unknown or repeated label.
const LABEL: Rule = 2;

/// `break` or `continue` with no target.
const TARGET: Rule = 3;

fn has_label(text: &[u8], name: Token, labels: &[Label]) -> bool
    ensures { result ≡ spec.has_label text.now name labels.now }
{
    for label in labels {
        if is_same_name(text, label.name, name) {
            return true;
        }
    }
    false
}

fn has_loop(text: &[u8], name: Token, labels: &[Label]) -> bool
    ensures { result ≡ spec.has_loop text.now name labels.now }
{
    for label in labels {
        if label.is_loop && is_same_name(text, label.name, name) {
            return true;
        }
    }
    false
}

fn both(a: bool, b: bool) -> bool
    ensures { result ≡ (a && b) }
{
    a && b
}

fn check_known(text: &[u8], name: Token, out: &mut Found)
    ensures { Finds (spec.unknown_label text.now name) out.old out.new }
{
    let known = has_label(text, name, out.labels.as_slice());
    report_if(!known, name.start, LABEL, out);
}

fn check_loop(text: &[u8], word: Token, name: Token, out: &mut Found)
    ensures { Finds (spec.no_loop text.now word name) out.old out.new }
{
    let known = has_label(text, name, out.labels.as_slice());
    let is_loop = has_loop(text, name, out.labels.as_slice());
    report_if(both(known, !is_loop), word.start, TARGET, out);
}

/// A `break` and the label that it names.
pub fn check_break(
    text: &[u8],
    word: Token,
    label: Option<Token>,
    setting: Setting,
    out: &mut Found,
)
    ensures { Finds (spec.break_breaches text.now word label setting) out.old out.new }
{
    match label {
        None => report_if(!setting.in_breakable, word.start, TARGET, out),
        Some(name) => check_known(text, name, out),
    }
}

/// A `continue` and the label that it names.
pub fn check_continue(
    text: &[u8],
    word: Token,
    label: Option<Token>,
    setting: Setting,
    out: &mut Found,
)
    ensures { Finds (spec.continue_breaches text.now word label setting) out.old out.new }
{
    match label {
        None => report_if(!setting.in_loop, word.start, TARGET, out),
        Some(name) => {
            check_known(text, name, out);
            check_loop(text, word, name, out);
        }
    }
}

/// The label of a statement.
pub fn check_label(text: &[u8], name: Token, out: &mut Found)
    ensures { Finds (spec.label_breaches text.now name) out.old out.new }
{
    let known = has_label(text, name, out.labels.as_slice());
    report_if(known, name.start, LABEL, out);
}
