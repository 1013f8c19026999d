use super::*;
use esb_ask::{Answer, Question, Table};
use esb_base::{Blob, Flags, List, Loader, Memory, Text};
use esb_flags::Options;
use esb_scan::is_complete;
use std::alloc::Global;
use std::test::Fail;

/// A build of `b.txt` and `a.txt` in the folder `/w`, to the folder `out`. Files with the extension are copied.
fn options(alloc: Global, extension: &str) -> Result<Options, Memory> {
    let mut loaders = List::new(alloc);
    let extension = Text::of(alloc, extension)?;
    loaders.push((extension, Loader::Copy))?;
    let mut entries = List::new(alloc);
    entries.push((Text::of(alloc, "")?, Text::of(alloc, "b.txt")?))?;
    entries.push((Text::of(alloc, "")?, Text::of(alloc, "a.txt")?))?;
    Ok(Options {
        cwd: Text::of(alloc, "/w")?,
        entries,
        write: false,
        context: false,
        plugins: List::new(alloc),
        flags: Flags {
            outdir: Some(Text::of(alloc, "out")?),
            outfile: None,
            splitting: false,
            loaders,
            externals: List::new(alloc),
            conditions: List::new(alloc),
            entry_names: Text::of(alloc, "")?,
            chunk_names: Text::of(alloc, "")?,
        },
    })
}

/// Tells the kind of a file and its contents.
fn tell(
    alloc: Global,
    table: &mut Table,
    path: &str,
    kind: Answer,
    contents: Answer,
) -> Result<(), Memory> {
    let path = Text::of(alloc, path)?;
    let asked = Question::Kind(path.share()?);
    if asked.fits(&kind) {
        table.put(asked, kind)?;
    }
    let asked = Question::Read(path);
    if asked.fits(&contents) {
        table.put(asked, contents)?;
    }
    Ok(())
}

/// The paths and contents of the files, or the texts of the messages, each with a line end.
fn shown(alloc: Global, options: &Options, table: &Table) -> Result<String, Memory> {
    let mut out = String::new(alloc);
    if !is_complete(alloc, options, table)? {
        return Ok(out);
    }
    match link(alloc, options, table) {
        Ok(files) => {
            for file in files.as_slice() {
                out.push_str(file.path.as_str())?;
                out.push_str("\n")?;
            }
        }
        Err(LinkFault::Errors(messages)) => {
            for message in messages.as_slice() {
                out.push_str(message.text.as_str())?;
                out.push_str("\n")?;
            }
        }
        Err(LinkFault::Memory) => return Err(Memory),
    }
    Ok(out)
}

/// What the build shows where `b.txt` and `a.txt` got these answers, and files with the extension are copied.
fn built(
    alloc: Global,
    extension: &str,
    b: (Answer, Answer),
    a: (Answer, Answer),
) -> Result<String, Memory> {
    let options = options(alloc, extension)?;
    let mut table = Table::new(alloc);
    tell(alloc, &mut table, "/w/b.txt", b.0, b.1)?;
    tell(alloc, &mut table, "/w/a.txt", a.0, a.1)?;
    shown(alloc, &options, &table)
}

#[test]
fn files_are_sorted(rt: HostRuntime) -> Result<(), Fail> {
    let alloc = rt.alloc();
    let b = Answer::Bytes(Blob::of(alloc, b"b")?);
    let a = Answer::Bytes(Blob::of(alloc, b"a")?);
    let text = built(alloc, "txt", (Answer::File, b), (Answer::File, a))?;
    assert!(rt; text.as_str() == "/w/out/a.txt\n/w/out/b.txt\n");
    Ok(())
}

#[test]
fn messages_of_entries_come_first(rt: HostRuntime) -> Result<(), Fail> {
    let alloc = rt.alloc();
    let b = (Answer::File, Answer::Missing);
    let a = (Answer::Missing, Answer::Fault);
    let text = built(alloc, "txt", b, a)?;
    let expected = "Could not resolve \"a.txt\": not found\nCannot read /w/b.txt\n";
    assert!(rt; text.as_str() == expected);
    Ok(())
}

#[test]
fn a_loader_that_lacks(rt: HostRuntime) -> Result<(), Fail> {
    let alloc = rt.alloc();
    let b = Answer::Bytes(Blob::of(alloc, b"b")?);
    let text = built(
        alloc,
        "md",
        (Answer::File, b),
        (Answer::File, Answer::Fault),
    )?;
    assert!(rt; text.as_str() == "Not built yet\nCannot read /w/a.txt\n");
    Ok(())
}
