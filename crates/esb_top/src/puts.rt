//! The files of a build are put.
ghost use Rattle.std.specs.Prelude.{◌≡◌, ℕ, ◌+◌, ◌<◌, ◌≤◌, true, [], Some, List as Listed, length, vec_len, count_by, IfOk};
ghost use Rattle.std.specs.Vec.{vec_capacity};
ghost use Rattle.esb_ask.specs.declared.outcome.Failures.TheVariants as lists;
ghost use Rattle.esb_ask.specs.declared.outcome.Outcome.TheVariants as outcomes;
ghost use Rattle.esb_core.specs.Allowed.{is_part, may_fail};
ghost use Rattle.esb_sound.specs.Files.{ArePut, is_failed, listed};
ghost use Rattle.esb_sound.specs.Told.{RoseBy};
ghost use Rattle.esb_top.specs.Puts.{PutsOne};

use esb_ask::{Failures, OutFile};
use esb_base::{Host, List, Memory, PutFault, Shared, Text};
use std::alloc::Global;

/// Puts a file. Where that fails, it is added to a list that has room for it.
fn put_one<H: Host>(host: &mut H, file: OutFile, failures: &mut Vec<(Text, PutFault)>)
    requires room { vec_len failures.old < vec_capacity failures.old }
    ensures puts { PutsOne H.tells (H.put_at host.old) (H.put_at host.new) (H.put_faults host.old) (H.put_faults host.new) file failures.old.items failures.new.items }
    ensures grows { vec_len failures.new ≤ vec_len failures.old + 1 }
    ensures capacity { vec_capacity failures.new ≡ vec_capacity failures.old }
    ensures world { H.tells → H.world host.new ≡ H.world host.old }
    ensures never_falls { H.faults host.old ≤ H.faults host.new }
{
    if let Err(fault) = host.put(&file.path, file.contents.as_slice()) {
        failures.push_reserved((file.path, fault));
    }
}

/// Puts files one after the other, and adds those that fail to an empty list that has room for all of them.
fn put_all<H: Host>(host: &mut H, files: Vec<OutFile>, failures: &mut Vec<(Text, PutFault)>)
    requires empty { failures.old.items ≡ [] }
    requires room { length files.items ≤ vec_capacity failures.old }
    ensures part { is_part failures.new.items files.items ≡ true }
    ensures puts { H.tells → ArePut files.items (lists.Paths failures.new.items) (H.put_at host.old) (H.put_at host.new) }
    ensures counted { RoseBy (count_by is_failed failures.new.items) (H.put_faults host.old) (H.put_faults host.new) }
    ensures world { H.tells → H.world host.new ≡ H.world host.old }
    ensures never_falls { H.faults host.old ≤ H.faults host.new }
{
    for file in files {
        put_one(host, file, failures);
    }
}

/// The same files once more.
fn copies(alloc: Global, files: &[OutFile]) -> Result<Vec<OutFile>, Memory>
    ensures { IfOk result (λ copies. copies.items ≡ files.now) }
{
    let mut copies = Vec::with_capacity(alloc, files.len())?;
    for file in files {
        copies.push(OutFile {
            path: file.path.share()?,
            contents: file.contents.share()?,
        })?;
    }
    Ok(copies)
}

/// Puts files in their order, and tells which failed. Where memory is refused for the list of these, it tells so of all, and where
/// it is refused before the first put, none is made.
pub(crate) fn put_files<H: Host>(alloc: Global, host: &mut H, files: &[OutFile]) -> Failures
    ensures may { may_fail (Some (outcomes.Files files.now)) result ≡ true }
    ensures puts { H.tells → ArePut files.now result (H.put_at host.old) (H.put_at host.new) }
    ensures counted { RoseBy (count_by is_failed (listed result)) (H.put_faults host.old) (H.put_faults host.new) }
    ensures world { H.tells → H.world host.new ≡ H.world host.old }
    ensures never_falls { H.faults host.old ≤ H.faults host.new }
{
    let Ok(copies) = copies(alloc, files) else {
        return Failures::All;
    };
    let Ok(mut failures) = Vec::with_capacity(alloc, files.len()) else {
        return Failures::All;
    };
    let Ok(none) = Shared::new(alloc, List::new(alloc)) else {
        return Failures::All;
    };
    put_all(host, copies, &mut failures);
    if failures.is_empty() {
        return Failures::Paths(none);
    }
    match Shared::new(alloc, List::from_vec(failures)) {
        Ok(failures) => Failures::Paths(failures),
        Err(Memory) => Failures::All,
    }
}
