ghost use Rattle.std.specs.Prelude.{◌≡◌, ◌++◌, [], true, Some, map, IfOk, OnOk};
ghost use Rattle.std.specs.List.{AllByRecursion};
ghost use Rattle.esb_scan.specs.Likeness.{normal_loaded, normal_message, IsPlaced, IsPlacedLoad};
ghost use Rattle.esb_scan.specs.Run.{run_entry, run_load, is_done};
ghost use Rattle.esb_link.specs.SerialLink.{IsComplete, IsEntryComplete, resolution, load_of, found_messages, load_messages, entry_messages, file_messages, out_folder, out_name, out_path, output_by, output_of, outputs};

use esb_ask::{Loaded, Message, Product, Resolved, Table};
use esb_base::{Blob, FileName, List, Loader, Memory, Text};
use esb_flags::Options;
use esb_scan::{Run, below, loader_of, run_entry, run_load, stem_of};
use std::alloc::Global;

/// What the entries so far gave.
#[derive(Drop)]
pub(crate) struct Scanned {
    /// The messages of the entries.
    pub(crate) of_entries: List<Message>,
    /// The messages of their files.
    pub(crate) of_files: List<Message>,
    /// The outputs, in the order of the entries.
    pub(crate) outputs: List<(Text, Blob)>,
}

fn find(
    alloc: Global,
    options: &Options,
    table: &Table,
    entry: &(Text, Text),
) -> Result<Resolved, Memory>
    requires { is_done (run_entry options.now table.now entry.now) ≡ true }
    ensures { IfOk result (λ resolved. run_entry options.now table.now entry.now ≡ Run.Done (Product.Entry resolved)) }
{
    match run_entry(alloc, options, table, entry) {
        Run::Done(Product::Entry(resolved)) => Ok(resolved),
        Run::Done(Product::Load(_)) | Run::Asks(_) => unreachable!(),
        Run::Memory => Err(Memory),
    }
}

fn load(alloc: Global, options: &Options, table: &Table, name: &FileName) -> Result<Loaded, Memory>
    requires { is_done (run_load options.now table.now name.now) ≡ true }
    ensures alike { IfOk result (λ loaded. run_load options.now table.now name.now ≡ Run.Done (Product.Load (normal_loaded loaded))) }
    ensures placed { IfOk result (IsPlacedLoad options.now.cwd table.now) }
{
    match run_load(alloc, options, table, name) {
        Run::Done(Product::Load(loaded)) => Ok(loaded),
        Run::Done(Product::Entry(_)) | Run::Asks(_) => unreachable!(),
        Run::Memory => Err(Memory),
    }
}

/// The folder of the outputs.
fn out_folder(alloc: Global, options: &Options) -> Result<Text, Memory>
    ensures { IfOk result (λ folder. folder ≡ out_folder options.now) }
{
    match &options.flags.outdir {
        Some(outdir) => below(alloc, &options.cwd, outdir),
        None => {
            let outdir = Text::of(alloc, "")?;
            below(alloc, &options.cwd, &outdir)
        }
    }
}

/// The name of an output, by the loader of its file.
fn out_name(alloc: Global, loader: Option<Loader>, name: &Text) -> Result<Text, Memory>
    ensures { IfOk result (λ out. out ≡ out_name loader name.now) }
{
    match loader {
        Some(Loader::Copy) => name.share(),
        Some(Loader::Js | Loader::Json | Loader::Txt | Loader::Empty) | None => {
            let stem = stem_of(name.as_str());
            let out = format!(in alloc; "{stem}.js")?;
            Text::of(alloc, out.as_str())
        }
    }
}

/// The path of the output of an entry that leads to a file. `folder` is the folder of the outputs.
fn out_path(
    alloc: Global,
    options: &Options,
    folder: &Text,
    entry: &(Text, Text),
    name: &FileName,
) -> Result<Text, Memory>
    requires { folder.now ≡ out_folder options.now }
    ensures { IfOk result (λ path. path ≡ out_path options.now entry.now name.now) }
{
    let loader = loader_of(&options.flags, name.path.as_str());
    let out = out_name(alloc, loader, &entry.1)?;
    below(alloc, folder, &out)
}

impl Scanned {
    /// Adds what the load of an entry's file gave. `path` is the path of its output.
    fn add_load(&mut self, path: Text, loaded: Loaded) -> Result<(), Memory>
        ensures of_entries { OnOk result (self.new.of_entries ≡ self.old.of_entries) }
        ensures of_files { OnOk result (self.new.of_files ≡ self.old.of_files ++ load_messages (Some loaded)) }
        ensures outputs { OnOk result (self.new.outputs ≡ self.old.outputs ++ output_by path (Some loaded)) }
    {
        match loaded {
            Loaded::Copied(contents) => self.outputs.push((path, contents)),
            Loaded::Refused(message) => self.of_files.push(message),
        }
    }

    /// Adds what an entry gave. `folder` is the folder of the outputs.
    fn add_entry(
        &mut self,
        alloc: Global,
        options: &Options,
        table: &Table,
        folder: &Text,
        entry: &(Text, Text),
    ) -> Result<(), Memory>
        requires complete { IsEntryComplete options.now table.now entry.now }
        requires in_folder { folder.now ≡ out_folder options.now }
        ensures of_entries { OnOk result (self.new.of_entries
            ≡ self.old.of_entries ++ found_messages (resolution options.now table.now entry.now)) }
        ensures of_files { OnOk result (map normal_message self.new.of_files
            ≡ map normal_message self.old.of_files
            ++ load_messages (load_of options.now table.now (resolution options.now table.now entry.now))) }
        ensures placed { OnOk result (AllByRecursion (IsPlaced options.now.cwd table.now) self.old.of_files
            → AllByRecursion (IsPlaced options.now.cwd table.now) self.new.of_files) }
        ensures outputs { OnOk result (self.new.outputs
            ≡ self.old.outputs
            ++ output_of options.now table.now entry.now (resolution options.now table.now entry.now)) }
    {
        match find(alloc, options, table, entry)? {
            Resolved::To { name, .. } => {
                let path = out_path(alloc, options, folder, entry, &name)?;
                let loaded = load(alloc, options, table, &name)?;
                self.add_load(path, loaded)
            }
            Resolved::Refused(message) => self.of_entries.push(message),
            Resolved::External | Resolved::Left => Ok(()),
        }
    }
}

/// What all entries gave.
pub(crate) fn scan_all(alloc: Global, options: &Options, table: &Table) -> Result<Scanned, Memory>
    requires { IsComplete options.now table.now }
    ensures of_entries { IfOk result (λ scanned. scanned.of_entries ≡ entry_messages options.now table.now) }
    ensures of_files { IfOk result (λ scanned. map normal_message scanned.of_files ≡ file_messages options.now table.now) }
    ensures placed { IfOk result (λ scanned. AllByRecursion (IsPlaced options.now.cwd table.now) scanned.of_files) }
    ensures outputs { IfOk result (λ scanned. scanned.outputs ≡ outputs options.now table.now) }
{
    let folder = out_folder(alloc, options)?;
    let mut scanned = Scanned {
        of_entries: List::new(alloc),
        of_files: List::new(alloc),
        outputs: List::new(alloc),
    };
    for entry in options.entries.as_slice() {
        scanned.add_entry(alloc, options, table, &folder, entry)?;
    }
    Ok(scanned)
}
