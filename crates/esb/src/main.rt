//! The program `esb`: it serves a client over standard input and output.
#![tactic(auto)]

mod folder_host;
mod streams;

use esb_base::{Memory, Text};
use esb_top::run_serial;
use folder_host::FolderHost;
use std::alloc::Global;
use std::env;
use std::env::Args;
use std::io::Write;
use std::process::ExitCode;
use std::vec::Vec;
use streams::{ReadSource, WriteSink};

const HELP: &str = "usage: esb service --serial [--handshake=TEXT]

Reads request packets from standard input, and writes their replies to standard output, on one
thread. A packet is a frame of four bytes of length and a value: docs/PACKETS.md. TEXT, or else the
version, is sent first, behind its length.

  --help     write this
  --version  write the version

status: 0 the input ended and all that was owed was written, 1 a bad word, 2 malformed input,
3 a failed read, 4 a failed write, 5 want of memory, 6 too many reads, 13 a word that cannot be read
";

const VERSION: &str = "esb 0.1.0 (esb-profile-1)\n";

/// A failed write.
const WRITE_FAILED: u8 = 4;
/// Want of memory.
const OUT_OF_MEMORY: u8 = 5;
/// A word that is not UTF-8.
const UNREADABLE_WORD: u8 = 13;

fn to_texts(alloc: Global, words: Args) -> Result<Vec<Text>, Memory> {
    let mut texts = Vec::new(alloc);
    for word in words.skip(1) {
        if texts.push(Text::of(alloc, word.as_str())?).is_err() {
            return Err(Memory);
        }
    }
    Ok(texts)
}

/// What one word alone asks to be told.
fn told(words: &[Text]) -> Option<&'static str> {
    let [word] = words else {
        return None;
    };
    match word.as_str() {
        "--help" => Some(HELP),
        "--version" => Some(VERSION),
        _ => None,
    }
}

fn main(rt: HostRuntime) -> ExitCode {
    let alloc = rt.alloc();
    let Ok(words) = env::args(&rt) else {
        return ExitCode::from(UNREADABLE_WORD);
    };
    let Ok(words) = to_texts(alloc, words) else {
        return ExitCode::from(OUT_OF_MEMORY);
    };
    if let Some(text) = told(words.as_slice()) {
        return match rt.stdout().write_all(text.as_bytes()) {
            Ok(()) => ExitCode::SUCCESS,
            Err(_) => ExitCode::from(WRITE_FAILED),
        };
    }
    let mut source = ReadSource::new(rt.stdin());
    let mut sink = WriteSink::new(rt.stdout());
    let mut host = FolderHost::new(&rt, alloc);
    let session = run_serial(alloc, words.as_slice(), &mut source, &mut sink, &mut host);
    ExitCode::from(session.status)
}
