ghost use Rattle.std.specs.Prelude.{◌≡◌, IfOk};
ghost use Rattle.std.specs.Prelude.{Some};
ghost use Rattle.esb_ask.specs.Table.{answer_to};
ghost use Rattle.esb_scan.specs.Likeness.{normal_loaded, IsPlacedLoad};
ghost use Rattle.esb_scan.specs.Run.{run, run_entry, run_load, resolved_by, read_by, loaded_by, system_file, IsPlacedAnswer, IsRun, IsRunBut};
ghost use Rattle.esb_scan.specs.Scripts.{IsPlacedScript};

use crate::loaders::loader_of;
use crate::messages::{cannot_read, no_loader, not_found};
use crate::paths::below;
use crate::scripts::script;
use crate::unbuilt::not_built;
use esb_ask::{Answer, Loaded, Product, Question, Resolved, Table, Task};
use esb_base::{Blob, FileName, Loader, Memory, Text};
use esb_flags::Options;
use std::alloc::Global;

/// What the run of a task gave.
#[derive(Drop)]
pub enum Run {
    /// The first question that the table has no answer to.
    Asks(Question),
    /// The task's product.
    Done(Product),
    /// Memory was refused.
    Memory,
}

fn system_file(alloc: Global, path: Text) -> Result<FileName, Memory>
    ensures { IfOk result (λ name. name ≡ system_file path) }
{
    let namespace = Text::of(alloc, "file")?;
    Ok(FileName { namespace, path })
}

fn resolved_by(alloc: Global, path: Text, spec: &Text, answer: &Answer) -> Result<Resolved, Memory>
    ensures { IfOk result (λ resolved. resolved ≡ resolved_by path spec.now answer.now) }
{
    match answer {
        Answer::File => Ok(Resolved::To {
            name: system_file(alloc, path)?,
            marked: false,
        }),
        Answer::Fault => Ok(Resolved::Refused(cannot_read(alloc, &path)?)),
        Answer::Folder | Answer::Missing | Answer::TooBig | Answer::Bytes(_) => {
            Ok(Resolved::Refused(not_found(alloc, spec)?))
        }
    }
}

fn read_by(
    alloc: Global,
    options: &Options,
    name: &FileName,
    contents: &Blob,
    loader: Option<Loader>,
) -> Result<Loaded, Memory>
    ensures alike { IfOk result (λ loaded. normal_loaded loaded ≡ read_by options.now name.now contents.now loader) }
    ensures placed { IfOk result (IsPlacedScript options.now.cwd name.now contents.now) }
{
    match loader {
        None => Ok(Loaded::Refused(no_loader(alloc, &options.cwd, name)?)),
        Some(Loader::Copy) => Ok(Loaded::Copied(contents.share()?)),
        Some(Loader::Js) => script(alloc, &options.cwd, name, contents),
        Some(Loader::Empty) => Ok(Loaded::Copied(Blob::of(alloc, b"")?)),
        Some(Loader::Json | Loader::Txt) => {
            Ok(Loaded::Refused(not_built(alloc, &options.cwd, name)?))
        }
    }
}

fn loaded_by(
    alloc: Global,
    options: &Options,
    name: &FileName,
    answer: &Answer,
) -> Result<Loaded, Memory>
    ensures alike { IfOk result (λ loaded. normal_loaded loaded ≡ loaded_by options.now name.now answer.now) }
    ensures placed { IfOk result (IsPlacedAnswer options.now.cwd name.now answer.now) }
{
    match answer {
        Answer::Bytes(contents) => {
            let loader = loader_of(&options.flags, name.path.as_str());
            read_by(alloc, options, name, contents, loader)
        }
        Answer::File | Answer::Folder | Answer::Missing | Answer::TooBig | Answer::Fault => {
            Ok(Loaded::Refused(cannot_read(alloc, &name.path)?))
        }
    }
}

fn try_entry(
    alloc: Global,
    options: &Options,
    table: &Table,
    entry: &(Text, Text),
) -> Result<Run, Memory>
    ensures { IfOk result (λ done. done ≡ run_entry options.now table.now entry.now) }
{
    let path = below(alloc, &options.cwd, &entry.1)?;
    let asked = Question::Kind(path.share()?);
    match table.get(&asked) {
        None => Ok(Run::Asks(asked)),
        Some(answer) => {
            let resolved = resolved_by(alloc, path, &entry.1, answer)?;
            Ok(Run::Done(Product::Entry(resolved)))
        }
    }
}

fn try_load(alloc: Global, options: &Options, table: &Table, name: &FileName) -> Result<Run, Memory>
    ensures { IfOk result (IsRunBut options.now.cwd table.now (run_load options.now table.now name.now)) }
{
    let asked = Question::Read(name.path.share()?);
    match table.get(&asked) {
        None => Ok(Run::Asks(asked)),
        Some(answer) => {
            let loaded = loaded_by(alloc, options, name, answer)?;
            Ok(Run::Done(Product::Load(loaded)))
        }
    }
}

fn try_task(alloc: Global, options: &Options, table: &Table, task: &Task) -> Result<Run, Memory>
    ensures { IfOk result (IsRunBut options.now.cwd table.now (run options.now table.now task.now)) }
{
    match task {
        Task::Entry(number) => match options.entries.get(*number as usize) {
            None => Ok(Run::Done(Product::Entry(Resolved::Left))),
            Some(entry) => try_entry(alloc, options, table, entry),
        },
        Task::Load(name) => try_load(alloc, options, table, name),
    }
}

/// The run for an entry: its output path and its in text. The task of an entry's number does the same.
pub fn run_entry(alloc: Global, options: &Options, table: &Table, entry: &(Text, Text)) -> Run
    ensures { IsRun (run_entry options.now table.now entry.now) result }
{
    match try_entry(alloc, options, table, entry) {
        Ok(done) => done,
        Err(Memory) => Run::Memory,
    }
}

/// The run for a file. The task that loads it does the same.
pub fn run_load(alloc: Global, options: &Options, table: &Table, name: &FileName) -> Run
    ensures { IsRunBut options.now.cwd table.now (run_load options.now table.now name.now) result }
{
    match try_load(alloc, options, table, name) {
        Ok(done) => done,
        Err(Memory) => Run::Memory,
    }
}

/// Runs a task over the answers so far: the first question that they lack, or else the task's product. It answers `Memory` only
/// where memory was refused. A text that has no tree may be told at any of its places.
pub fn run_task(alloc: Global, options: &Options, table: &Table, task: &Task) -> Run
    ensures { IsRunBut options.now.cwd table.now (run options.now table.now task.now) result }
{
    match try_task(alloc, options, table, task) {
        Ok(done) => done,
        Err(Memory) => Run::Memory,
    }
}
