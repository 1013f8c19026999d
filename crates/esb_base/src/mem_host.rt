ghost use Rattle.std.specs.Prelude.{◌≡◌, ℕ, [], ◌∷◌, reverse, OnOk, OnErr};
ghost use Rattle.std.specs.Map.{lookup};
ghost use Rattle.std.specs.Option.{option_copied};
ghost use Rattle.std.specs.Str.{bytes_eq};
ghost use Rattle.esb_base.specs.World.{folder_of, has_below, is_below, kind_in, read_in, ReadIs};

use crate::blob::Blob;
use crate::host::{Host, KindAnswer, PutFault, ReadAnswer};
use crate::list::List;
use crate::memory::Memory;
use crate::text::Text;
use std::alloc::Global;
use std::marker::Model;

/// The most bytes of a file that is read.
const MOST_BYTES: usize = 16_777_216;

/// A host in memory that tells its world, some of whose calls fail.
#[derive(Drop)]
pub struct MemHost {
    alloc: Global,
    world: List<List<(Text, Blob)>>,
    puts: Vec<(Text, Blob)>,
    fails: List<u64>,
    calls: u64,
    faults: u64,
    put_faults: u64,
}

impl Model for MemHost {
    ghost use Rattle.std.specs.Prelude.{reverse};
    ghost use Rattle.esb_base.specs.MemState.{HostState};

    ghost Value = { HostState };

    ghost view = { λ h. record { world = h.world; puts = reverse h.puts.items; fails = h.fails; calls = h.calls; faults = h.faults; put_faults = h.put_faults } };
}

/// The contents at a path of a folder.
fn find<'a>(folder: &'a [(Text, Blob)], path: &str) -> Option<&'a Blob>
    ensures { option_copied result ≡ lookup (bytes_eq path.now) folder.now }
{
    for file in folder {
        if path == file.0.as_str() {
            return Some(&file.1);
        }
    }
    None
}

/// Whether a file of the folder lies below the path.
fn has_below(folder: &[(Text, Blob)], path: &str) -> bool
    ensures { result ≡ has_below path.now folder.now }
{
    for file in folder {
        if is_below(path, file.0.as_str()) {
            return true;
        }
    }
    false
}

/// Whether a file's path lies below the path.
fn is_below(path: &str, file: &str) -> bool
    ensures { result ≡ is_below path.now file.now }
{
    let (path, file) = (path.as_bytes(), file.as_bytes());
    file.starts_with(path) && (path == b"/".as_slice() || file[path.len()..].starts_with(b"/"))
}

impl MemHost {
    ghost use Rattle.esb_base.specs.MemState.{HostState};

    /// `world` has the folder of each turn: clean absolute paths, of which none lies below another.
    /// `fails` lists the numbers of the calls that fail, from 0.
    pub fn new(alloc: Global, world: List<List<(Text, Blob)>>, fails: List<u64>) -> MemHost
        ensures { result ≡ record { world = world; puts = []; fails = fails; calls = 0; faults = 0; put_faults = 0 } }
    {
        MemHost {
            alloc,
            world,
            puts: Vec::new(alloc),
            fails,
            calls: 0,
            faults: 0,
            put_faults: 0,
        }
    }

    /// The folder of a turn.
    fn folder(&self, turn: u32) -> &[(Text, Blob)]
        ensures { result.now ≡ folder_of self.now.world turn }
    {
        let world = self.world.as_slice();
        match world {
            [] => &[],
            [.., last] => match world.get(turn as usize) {
                Some(folder) => folder.as_slice(),
                None => last.as_slice(),
            },
        }
    }
}

impl Host for MemHost {
    ghost use Rattle.std.specs.Map.{lookup};
    ghost use Rattle.std.specs.Str.{bytes_eq};
    ghost use Rattle.esb_base.specs.MemState.{HostState};

    ghost tells = { Unit {0} };

    ghost world = { λ h. h.world };

    ghost put_at = { λ h q. lookup (bytes_eq q) h.puts };

    ghost faults = { λ h. h.faults };

    ghost put_faults = { λ h. h.put_faults };

    ghost is_reliable = { λ h. h.fails ≡ [] };

    fn kind(&mut self, turn: u32, path: &Text) -> KindAnswer {
        let fails = self.fails.as_slice().contains(&self.calls);
        self.calls = self.calls.saturating_add(1);
        if fails {
            self.faults = self.faults.saturating_add(1);
            return KindAnswer::Fault;
        }
        let folder = self.folder(turn);
        kind_in(folder, path.as_str())
    }

    fn read(&mut self, turn: u32, path: &Text) -> ReadAnswer {
        let fails = self.fails.as_slice().contains(&self.calls);
        self.calls = self.calls.saturating_add(1);
        if fails {
            self.faults = self.faults.saturating_add(1);
            return ReadAnswer::Fault;
        }
        let folder = self.folder(turn);
        read_in(folder, path.as_str())
    }

    fn put(&mut self, path: &Text, bytes: &[u8]) -> Result<(), PutFault> {
        let fails = self.fails.as_slice().contains(&self.calls);
        self.calls = self.calls.saturating_add(1);
        if fails {
            self.put_faults = self.put_faults.saturating_add(1);
            return Err(PutFault::Failed);
        }
        match put_in(self.alloc, &mut self.puts, path, bytes) {
            Ok(()) => Ok(()),
            Err(Memory) => Err(PutFault::Memory),
        }
    }
}

/// What lies at a path of a folder.
fn kind_in(folder: &[(Text, Blob)], path: &str) -> KindAnswer
    ensures { result ≡ kind_in folder.now path.now (lookup (bytes_eq path.now) folder.now) }
{
    if find(folder, path).is_some() {
        KindAnswer::File
    } else if has_below(folder, path) {
        KindAnswer::Folder
    } else {
        KindAnswer::Missing
    }
}

/// What the file at a path of a folder has.
fn read_in(folder: &[(Text, Blob)], path: &str) -> ReadAnswer
    ensures told { ReadIs (read_in (lookup (bytes_eq path.now) folder.now)) result }
    ensures no_fault { result ≡ ReadAnswer.Fault → ⊥ }
{
    match find(folder, path) {
        None => ReadAnswer::Missing,
        Some(contents) if contents.len() > MOST_BYTES => ReadAnswer::TooBig,
        Some(contents) => match contents.share() {
            Ok(contents) => ReadAnswer::Bytes(contents),
            Err(Memory) => ReadAnswer::Memory,
        },
    }
}

/// Adds a file with a copy of the bytes.
fn put_in(
    alloc: Global,
    puts: &mut Vec<(Text, Blob)>,
    path: &Text,
    bytes: &[u8],
) -> Result<(), Memory>
    ensures ok { OnOk result (reverse puts.new.items ≡ (path.now, bytes.now) ∷ reverse puts.old.items) }
    ensures err { OnErr result (puts.new.items ≡ puts.old.items) }
{
    let path = path.share()?;
    let contents = Blob::of(alloc, bytes)?;
    puts.push((path, contents))?;
    Ok(())
}
