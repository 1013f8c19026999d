//! Names of parameters that stand there twice (ECMA-262, 14.1.2, 14.2.1, 14.3.1, 14.8.1).

ghost use Rattle.std.specs.Prelude.{◌≡◌, false, List as Listed, IfOk};
ghost use Rattle.std.specs.Vec.{vec_items};
ghost use Rattle.esb_early_checks.specs.Findings.{Finds};
ghost use Rattle.esb_names.specs.Names as names;
ghost use Rattle.esb_early.specs.Parameters as spec;
ghost use Rattle.esb_early.specs.Parameters.{Adds};
ghost use Rattle.esb_early.specs.Rules as rules;

use crate::gathered::{Names, gather_bracketed, gather_expression, no_names};
use esb_base::Memory;
use esb_early_checks::{Found, Rule, refuse, report_if};
use esb_names::{bytes_of, points_of};
use esb_token::Token;
use esb_tree::{Bracketed, Expression};
use std::alloc::Global;
use std::collections::BTreeSet;

/// A name that an earlier parameter has.
const REPEATED: Rule = 9;

/// Adds a name to those that were read, and tells whether it was not among them.
fn add(
    alloc: Global,
    text: &[u8],
    name: Token,
    seen: &mut BTreeSet<Vec<u32>>,
) -> Result<bool, Memory>
    ensures { IfOk result (Adds vec_items text.now name seen.old seen.new) }
{
    let key = points_of(alloc, bytes_of(text, name))?;
    let is_new = seen.insert(key)?;
    Ok(is_new)
}

fn check_names(text: &[u8], names: &[Token], out: &mut Found)
    ensures { Finds (spec.repeated_breaches text.now names.now) out.old out.new }
{
    if names.len() < 2 {
        return;
    }
    // A tree, since names can be chosen so that their hashes are the same.
    let mut seen = BTreeSet::new(out.alloc);
    for name in names {
        match add(out.alloc, text, *name, &mut seen) {
            Ok(is_new) => report_if(!is_new, name.start, REPEATED, out),
            Err(_) => {
                refuse(out);
                return;
            }
        }
    }
}

/// The names that were gathered are those of the parameters, unless memory was refused.
fn check_gathered(text: &[u8], names: &Names, out: &mut Found)
    ensures { (list : Listed Token) → (names.now.refused ≡ false → names.now.list ≡ list) → Finds (spec.repeated_breaches text.now list) out.old out.new }
{
    if names.refused {
        refuse(out);
    } else {
        check_names(text, names.list.as_slice(), out);
    }
}

/// The parameters of a function or a method.
pub fn check_names_of_parameters(text: &[u8], x: &Bracketed, out: &mut Found)
    ensures { Finds (spec.repeated_breaches text.now (rules.names_of_bracketed x.now)) out.old out.new }
{
    let mut names = no_names(out.alloc);
    gather_bracketed(x, &mut names);
    check_gathered(text, &names, out);
}

/// What stands before the arrow of a function.
pub fn check_names_of_head(text: &[u8], x: &Expression, out: &mut Found)
    ensures { Finds (spec.repeated_breaches text.now (rules.names_of_expression x.now)) out.old out.new }
{
    let mut names = no_names(out.alloc);
    gather_expression(x, &mut names);
    check_gathered(text, &names, out);
}
