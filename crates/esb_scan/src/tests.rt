use super::*;
use esb_ask::{Answer, Loaded, Message, Product, Question, Resolved, Table, Task};
use esb_base::{Blob, FileName, Flags, List, Loader, Memory, Text};
use esb_flags::Options;
use std::alloc::Global;
use std::test::Fail;

/// The loaders of the flags.
const LOADERS: [(&str, Loader); 6] = [
    ("txt", Loader::Copy),
    ("a", Loader::Js),
    ("b", Loader::Json),
    ("c", Loader::Txt),
    ("d", Loader::Copy),
    ("e", Loader::Empty),
];

fn loaders_of_flags(alloc: Global) -> Result<List<(Text, Loader)>, Memory> {
    let mut loaders = List::new(alloc);
    for (extension, loader) in LOADERS {
        let extension = Text::of(alloc, extension)?;
        loaders.push((extension, loader))?;
    }
    Ok(loaders)
}

/// A build of `a.txt` in the folder `/w`.
fn options(alloc: Global) -> Result<Options, Memory> {
    let out = Text::of(alloc, "")?;
    let path = Text::of(alloc, "a.txt")?;
    let mut entries = List::new(alloc);
    entries.push((out, path))?;
    let cwd = Text::of(alloc, "/w")?;
    let outdir = Text::of(alloc, "out")?;
    let entry_names = Text::of(alloc, "")?;
    let chunk_names = Text::of(alloc, "")?;
    let loaders = loaders_of_flags(alloc)?;
    Ok(Options {
        cwd,
        entries,
        write: false,
        context: false,
        plugins: List::new(alloc),
        flags: Flags {
            outdir: Some(outdir),
            outfile: None,
            splitting: false,
            loaders,
            externals: List::new(alloc),
            conditions: List::new(alloc),
            entry_names,
            chunk_names,
        },
    })
}

/// The path or the text that the run tells of.
fn shown(alloc: Global, run: &Run) -> Result<Text, Memory> {
    match run {
        Run::Asks(Question::Kind(path) | Question::Read(path)) => path.share(),
        Run::Done(Product::Entry(Resolved::To { name, .. })) => name.path.share(),
        Run::Done(
            Product::Entry(Resolved::Refused(message)) | Product::Load(Loaded::Refused(message)),
        ) => message.text.share(),
        _ => Text::of(alloc, ""),
    }
}

/// Runs the task of the first entry once `/w/a.txt` is told to be the answer.
fn entry_by(alloc: Global, kind: Answer) -> Result<Text, Memory> {
    let options = options(alloc)?;
    let mut table = Table::new(alloc);
    let asked = Question::Kind(Text::of(alloc, "/w/a.txt")?);
    if asked.fits(&kind) {
        table.put(asked, kind)?;
    }
    shown(alloc, &run_task(alloc, &options, &table, &Task::Entry(0)))
}

/// Runs the task that loads `/w/a.txt` once the answer is told.
fn load_by(alloc: Global, contents: Answer) -> Result<Text, Memory> {
    let options = options(alloc)?;
    let mut table = Table::new(alloc);
    let path = Text::of(alloc, "/w/a.txt")?;
    let asked = Question::Read(path.share()?);
    if asked.fits(&contents) {
        table.put(asked, contents)?;
    }
    let namespace = Text::of(alloc, "file")?;
    let task = Task::Load(FileName { namespace, path });
    shown(alloc, &run_task(alloc, &options, &table, &task))
}

#[test]
fn what_an_entry_gives(rt: HostRuntime) -> Result<(), Fail> {
    let alloc = rt.alloc();
    let not_found = "Could not resolve \"a.txt\": not found";
    // A kind is never too big, so the first row asks.
    assert!(rt; entry_by(alloc, Answer::TooBig)?.as_str() == "/w/a.txt");
    assert!(rt; entry_by(alloc, Answer::File)?.as_str() == "/w/a.txt");
    assert!(rt; entry_by(alloc, Answer::Folder)?.as_str() == not_found);
    assert!(rt; entry_by(alloc, Answer::Missing)?.as_str() == not_found);
    assert!(rt; entry_by(alloc, Answer::Fault)?.as_str() == "Cannot read /w/a.txt");
    Ok(())
}

#[test]
fn what_a_load_gives(rt: HostRuntime) -> Result<(), Fail> {
    let alloc = rt.alloc();
    let contents = Answer::Bytes(Blob::of(alloc, b"hi")?);
    assert!(rt; load_by(alloc, contents)?.as_str() == "");
    assert!(rt; load_by(alloc, Answer::File)?.as_str() == "/w/a.txt");
    assert!(rt; load_by(alloc, Answer::Missing)?.as_str() == "Cannot read /w/a.txt");
    assert!(rt; load_by(alloc, Answer::TooBig)?.as_str() == "Cannot read /w/a.txt");
    Ok(())
}

/// A path below the working folder, and what its load gives: the text of a message, or none where it is copied or printed.
const LOADED: [(&str, &str); 18] = [
    ("/w/x.d", ""),
    ("/w/x.txt", ""),
    ("/w/x.js.d", ""),
    ("/w/..d", ""),
    ("/w/x.a", ""),
    ("/w/x.b", "Not built yet"),
    ("/w/x.c", "Not built yet"),
    ("/w/x.e", ""),
    ("/w/x.js", ""),
    ("/w/x.mjs", ""),
    ("/w/x.cjs", ""),
    ("/w/x.json", "Not built yet"),
    ("/w/x", "No loader for /w/x"),
    ("/w/x.", "No loader for /w/x."),
    ("/w/.d", "No loader for /w/.d"),
    ("/w/x.D", "No loader for /w/x.D"),
    ("/w/x.d.zip", "No loader for /w/x.d.zip"),
    ("/w/y.d/x", "No loader for /w/y.d/x"),
];

/// The message of the load of a file that is there, or none where it is copied or printed.
fn told(alloc: Global, namespace: &str, path: &str) -> Result<Option<Message>, Memory> {
    let options = options(alloc)?;
    let mut table = Table::new(alloc);
    let path = Text::of(alloc, path)?;
    let asked = Question::Read(path.share()?);
    let hi = Blob::of(alloc, b"hi")?;
    let contents = Answer::Bytes(hi);
    if asked.fits(&contents) {
        table.put(asked, contents)?;
    }
    let namespace = Text::of(alloc, namespace)?;
    let name = FileName { namespace, path };
    match run_load(alloc, &options, &table, &name) {
        Run::Done(Product::Load(Loaded::Refused(message))) => Ok(Some(message)),
        Run::Memory => Err(Memory),
        _ => Ok(None),
    }
}

/// Whether the load of a file says this, or nothing where the text is empty.
fn says(alloc: Global, path: &str, text: &str) -> Result<bool, Memory> {
    let told = told(alloc, "file", path)?;
    Ok(match told {
        Some(message) => message.text.as_str() == text,
        None => text.is_empty(),
    })
}

/// Whether the load of a file says something of its first line, and calls the file so.
fn calls(alloc: Global, namespace: &str, path: &str, file: &str) -> Result<bool, Memory> {
    let told = told(alloc, namespace, path)?;
    Ok(match told {
        Some(message) => message.file.as_str() == file && message.line == 1,
        None => false,
    })
}

#[test]
fn loaders(rt: HostRuntime) -> Result<(), Fail> {
    for (path, text) in LOADED {
        assert!(rt; says(rt.alloc(), path, text)?, "{path}");
    }
    Ok(())
}

#[test]
fn files_of_messages(rt: HostRuntime) -> Result<(), Fail> {
    assert!(rt; calls(rt.alloc(), "file", "/w/y/x.json", "y/x.json")?);
    assert!(rt; calls(rt.alloc(), "file", "/v/x", "../v/x")?);
    assert!(rt; calls(rt.alloc(), "env", "x.json", "env:x.json")?);
    Ok(())
}

#[test]
fn stems(rt: HostRuntime) {
    let rows = [
        ("a.js", "a"),
        ("a.b.mjs", "a.b"),
        ("a.", "a"),
        (".a", ".a"),
        ("a", "a"),
        ("", ""),
        ("d.x/a", "d.x/a"),
        ("d.x/.a", "d.x/.a"),
        ("d.x/a.js", "d.x/a"),
    ];
    for (path, stem) in rows {
        assert_eq!(rt; stem_of(path), stem);
    }
}
