ghost use Rattle.std.specs.Prelude.{◌≡◌, Ok, IfOk, IfErr};
ghost use Rattle.esb_link.specs.SerialLink.{IsComplete, serial_link, IsFault};

use crate::fault::LinkFault;
use crate::order::sorted;
use crate::scanned::{Scanned, scan_all};
use esb_ask::{OutFile, Table};
use esb_base::List;
use esb_flags::Options;
use std::alloc::Global;

/// Links a build whose table is finished: its files in the order of their paths, or what is wrong, with the messages of the
/// entries first and then those of their files, or else those of paths that outputs share with other contents. Contents are shared.
pub fn link(alloc: Global, options: &Options, table: &Table) -> Result<List<OutFile>, LinkFault>
    requires { IsComplete options.now table.now }
    ensures ok { IfOk result (λ files. serial_link options.now table.now ≡ Ok files) }
    ensures err { IfErr result (IsFault options.now table.now) }
{
    let Scanned {
        of_entries,
        of_files,
        outputs,
    } = scan_all(alloc, options, table)?;
    let mut messages = of_entries;
    messages.append(of_files)?;
    if !messages.is_empty() {
        return Err(LinkFault::Errors(messages));
    }
    let (files, shared) = sorted(alloc, outputs)?;
    if !shared.is_empty() {
        return Err(LinkFault::Errors(shared));
    }
    Ok(files)
}
