//! A host over the files of the system.
ghost use Rattle.std.specs.Prelude.{◌≡◌, [], None};

use esb_base::{Blob, Host, KindAnswer, PutFault, ReadAnswer, Text};
use std::alloc::Global;
use std::fs::{File, Files, OpenFile};
use std::io::{ErrorKind, Read};
use std::vec::Vec;
use std::{fs, io};

/// The most bytes that a file has.
const MOST_BYTES: usize = 16_777_216;

/// A host over the files below the working folder. Every turn reads the files as they are then.
#[derive(Drop)]
pub struct FolderHost<F> {
    files: F,
    alloc: Global,
    faults: u64,
    put_faults: u64,
}

impl<F: Files> FolderHost<F> {
    pub fn new(files: F, alloc: Global) -> FolderHost<F>
        ensures { (result.faults ≡ 0) × (result.put_faults ≡ 0) }
    {
        FolderHost {
            files,
            alloc,
            faults: 0,
            put_faults: 0,
        }
    }
}

/// Why a look at a path gave nothing.
#[derive(Clone, Copy, Debug, PartialEq, Eq)]
enum Refusal {
    Missing,
    Memory,
    Fault,
}

fn refusal_of(error: &io::Error) -> Refusal {
    match error.kind() {
        ErrorKind::NotFound | ErrorKind::NotADirectory => Refusal::Missing,
        ErrorKind::OutOfMemory => Refusal::Memory,
        _ => Refusal::Fault,
    }
}

/// What a file has. One that has more than `MOST_BYTES` isn't read, and of one that grew since only one byte more is.
fn read_file<F: Files>(files: &F, alloc: Global, path: &str) -> io::Result<Option<Vec<u8>>> {
    let file = File::open(files, path)?;
    if file.metadata()?.len() > MOST_BYTES as u64 {
        return Ok(None);
    }
    let mut bytes = Vec::new(alloc);
    file.take(MOST_BYTES as u64 + 1).read_to_end(&mut bytes)?;
    Ok(Some(bytes))
}

/// Writes a file, and makes the folders that it lies in.
fn write_file<F: Files>(files: &F, path: &str, bytes: &[u8]) -> io::Result<()> {
    if let Some((folder, _)) = path.rsplit_once('/') {
        fs::create_dir_all(files, folder)?;
    }
    fs::write(files, path, bytes)
}

impl<F: Files> Host for FolderHost<F> {
    ghost tells = { ⊥ };

    ghost world = { λ _. [] };

    ghost put_at = { λ _ _. None };

    ghost faults = { λ s. s.faults };

    ghost put_faults = { λ s. s.put_faults };

    ghost is_reliable = { λ _. ⊥ };

    fn kind(&mut self, _turn: u32, path: &Text) -> KindAnswer {
        let refusal = match fs::metadata(&self.files, path.as_str()) {
            Ok(metadata) => {
                if metadata.is_file() {
                    return KindAnswer::File;
                }
                if metadata.is_dir() {
                    return KindAnswer::Folder;
                }
                Refusal::Fault
            }
            Err(error) => refusal_of(&error),
        };
        match refusal {
            Refusal::Missing => KindAnswer::Missing,
            Refusal::Memory => KindAnswer::Memory,
            Refusal::Fault => {
                self.faults = self.faults.saturating_add(1);
                KindAnswer::Fault
            }
        }
    }

    fn read(&mut self, _turn: u32, path: &Text) -> ReadAnswer {
        match read_file(&self.files, self.alloc, path.as_str()) {
            Ok(None) => ReadAnswer::TooBig,
            Ok(Some(bytes)) => {
                if bytes.len() > MOST_BYTES {
                    return ReadAnswer::TooBig;
                }
                match Blob::of(self.alloc, bytes.as_slice()) {
                    Ok(blob) => ReadAnswer::Bytes(blob),
                    Err(_) => ReadAnswer::Memory,
                }
            }
            Err(error) => match refusal_of(&error) {
                Refusal::Missing => ReadAnswer::Missing,
                Refusal::Memory => ReadAnswer::Memory,
                Refusal::Fault => {
                    self.faults = self.faults.saturating_add(1);
                    ReadAnswer::Fault
                }
            },
        }
    }

    fn put(&mut self, path: &Text, bytes: &[u8]) -> Result<(), PutFault> {
        match write_file(&self.files, path.as_str(), bytes) {
            Ok(()) => Ok(()),
            Err(error) => match refusal_of(&error) {
                Refusal::Memory => Err(PutFault::Memory),
                Refusal::Missing | Refusal::Fault => {
                    self.put_faults = self.put_faults.saturating_add(1);
                    Err(PutFault::Failed)
                }
            },
        }
    }
}
