//! A small program over `parse_file`. It reads paths from standard input, one a line, and says of each file whether its text is
//! accepted as a module.
#![tactic(auto)]

use esb_base::{Memory, Steps, Text};
use esb_module::{ParseFault, parse_file};
use esb_nodes::Discard;
use std::alloc::Global;
use std::io::{ErrorKind, Read};
use std::{fs, io};

/// What is wrong with a text, if anything is.
fn fault_in(alloc: Global, text: &str, steps: &mut Steps) -> Result<Option<ParseFault>, Memory> {
    let contents = Text::of(alloc, text)?;
    match parse_file(alloc, &contents, steps) {
        Ok(tree) => {
            tree.items.discard();
            Ok(None)
        }
        Err(ParseFault::Memory) => Err(Memory),
        Err(fault) => Ok(Some(fault)),
    }
}

fn main(rt: HostRuntime) -> io::Result<()> {
    let alloc = rt.alloc();
    let mut paths = String::new(alloc);
    rt.stdin().read_to_string(&mut paths)?;
    let mut steps = Steps::new();
    let mut bytes = 0u64;
    let mut accepted = 0u64;
    for path in paths.as_str().lines() {
        let Ok(text) = fs::read_to_string(&rt, path) else {
            println!(rt; "unread {path}")?;
            continue;
        };
        bytes = bytes.saturating_add(text.len() as u64);
        match fault_in(alloc, text.as_str(), &mut steps) {
            Ok(None) => {
                accepted = accepted.saturating_add(1);
                println!(rt; "accepted {path}")?;
            }
            Ok(Some(ParseFault::Early(at, rule))) => {
                println!(rt; "refused {path}: early error {rule} at {at}")?;
            }
            Ok(Some(ParseFault::NoTree(at))) => println!(rt;
                "refused {path}: syntax error at {at}"
            )?,
            Ok(Some(ParseFault::Memory)) | Err(Memory) => {
                return Err(io::Error::from(ErrorKind::OutOfMemory));
            }
        }
    }
    let parses = steps.count();
    println!(rt; "{parses} read, {accepted} accepted, {bytes} bytes")?;
    Ok(())
}
