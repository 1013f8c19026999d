ghost use Rattle.std.specs.Prelude.{◌≡◌, ◌↔◌, IsTrue, IfOk};
ghost use Rattle.esb_scan.specs.Run.{run_entry};
ghost use Rattle.esb_scan.specs.Complete.{IsComplete, is_loaded, all_loaded};

use crate::run::{Run, run_entry, run_load};
use esb_ask::{Product, Resolved, Table};
use esb_base::{Memory, Text};
use esb_flags::Options;
use std::alloc::Global;

fn is_loaded(
    alloc: Global,
    options: &Options,
    table: &Table,
    entry: &(Text, Text),
) -> Result<bool, Memory>
    ensures { IfOk result (λ loaded. loaded ≡ is_loaded options.now table.now (run_entry options.now table.now entry.now)) }
{
    match run_entry(alloc, options, table, entry) {
        Run::Asks(_) => Ok(false),
        Run::Done(Product::Entry(Resolved::To { name, .. })) => {
            match run_load(alloc, options, table, &name) {
                Run::Asks(_) => Ok(false),
                Run::Done(_) => Ok(true),
                Run::Memory => Err(Memory),
            }
        }
        Run::Done(_) => Ok(true),
        Run::Memory => Err(Memory),
    }
}

fn all_loaded(alloc: Global, options: &Options, table: &Table) -> Result<bool, Memory>
    ensures { IfOk result (λ loaded. loaded ≡ all_loaded options.now table.now options.now.entries) }
{
    for entry in options.entries.as_slice() {
        if !is_loaded(alloc, options, table, entry)? {
            return Ok(false);
        }
    }
    Ok(true)
}

/// Whether the table answers all that the tasks of a build ask.
pub fn is_complete(alloc: Global, options: &Options, table: &Table) -> Result<bool, Memory>
    ensures { IfOk result (λ complete. IsTrue complete ↔ IsComplete options.now table.now) }
{
    all_loaded(alloc, options, table)
}
