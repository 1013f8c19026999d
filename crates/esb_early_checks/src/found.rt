//! The first breach that a walk found so far.

ghost use Rattle.std.specs.Prelude.{◌≡◌, [], false, IfOk, None};
ghost use Rattle.esb_early_checks.specs.Findings as spec;
ghost use Rattle.esb_early_checks.specs.Findings.{Finding, Finds, Enters, Leaves, PutsBack, SetsAside, breach_if};

use crate::breach::{Breach, Rule};
use crate::label::Label;
use esb_base::{List, Memory};
use std::alloc::Global;

/// The first breach so far, and the labels round the place. Once memory was refused, it is not known.
#[derive(Drop)]
pub struct Found {
    pub first: Option<Breach>,
    pub labels: List<Label>,
    pub refused: bool,
    pub alloc: Global,
}

/// None so far.
pub fn begin(alloc: Global) -> Found
    ensures first { result.first ≡ None }
    ensures labels { result.labels ≡ [] }
    ensures refused { result.refused ≡ false }
{
    Found {
        first: None,
        labels: List::new(alloc),
        refused: false,
        alloc,
    }
}

fn is_before(a: Breach, b: Breach) -> bool
    ensures { result ≡ spec.is_before a b }
{
    a.at < b.at || a.at == b.at && a.rule < b.rule
}

fn earlier(first: Option<Breach>, breach: Breach) -> Option<Breach>
    ensures { result ≡ spec.earlier first breach }
{
    match first {
        None => Some(breach),
        Some(first) => {
            if is_before(breach, first) {
                Some(breach)
            } else {
                Some(first)
            }
        }
    }
}

/// Notes a breach, if the rule is broken.
#[tactic(auto, unfolding(crate::specs::Findings::Finds))]
pub fn report_if(broken: bool, at: usize, rule: Rule, out: &mut Found)
    ensures { Finds (breach_if broken at rule) out.old out.new }
{
    if broken {
        out.first = earlier(out.first, Breach { at, rule });
    }
}

/// Notes that memory was refused, so that what is found is not known.
pub fn refuse(out: &mut Found)
    ensures { (finding : Finding) → Finds finding out.old out.new }
{
    out.refused = true;
}

/// Begins the statement behind a label.
#[tactic(auto, unfolding(crate::specs::Findings::Enters))]
pub fn enter(label: Label, out: &mut Found)
    ensures { Enters label out.old out.new }
{
    if out.labels.push(label).is_err() {
        out.refused = true;
    }
}

/// Ends it.
#[tactic(auto, unfolding(crate::specs::Findings::Leaves))]
pub fn leave(out: &mut Found)
    ensures { Leaves out.old out.new }
{
    let _ = out.labels.pop();
}

/// Sets the labels aside, which count no more in the body of a function.
#[tactic(auto, unfolding(crate::specs::Findings::SetsAside))]
pub fn set_aside(out: &mut Found) -> List<Label>
    ensures { SetsAside result out.old out.new }
{
    let none = List::new(out.alloc);
    std::mem::replace(&mut out.labels, none)
}

/// Puts them back.
#[tactic(auto, unfolding(crate::specs::Findings::PutsBack))]
pub fn put_back(outer: List<Label>, out: &mut Found)
    ensures { PutsBack outer out.old out.new }
{
    out.labels = outer;
}

/// The first breach, unless memory was refused.
pub fn finish(found: Found) -> Result<Option<Breach>, Memory>
    ensures { IfOk result (λ first. (found.refused ≡ false) × (first ≡ found.first)) }
{
    if found.refused {
        return Err(Memory);
    }
    Ok(found.first)
}
