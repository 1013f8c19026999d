use super::*;
use esb_base::{List, Memory, Text};
use esb_wire::Value;
use std::alloc::{AllocError, Global};
use std::test::Fail;

/// The value of a field.
#[derive(Clone, Copy)]
enum Put {
    Absent,
    Null,
    Number(u32),
    Flag(bool),
    Chars(&'static str),
    Texts(&'static [&'static str]),
    Lists(&'static [&'static [&'static str]]),
    /// So many plug-ins with this key for their name.
    Plugins(u32, &'static str),
    /// So many entries.
    Entries(u32),
}

const GOOD: [(&str, Put); 9] = [
    ("command", Put::Chars("build")),
    ("key", Put::Number(7)),
    ("entries", Put::Lists(&[&["", "a.txt"], &["", "b.txt"]])),
    ("flags", Put::Texts(&["--outdir=out", "--loader:.txt=copy"])),
    ("absWorkingDir", Put::Chars("/w/x")),
    ("write", Put::Flag(false)),
    ("context", Put::Flag(false)),
    ("plugins", Put::Texts(&[])),
    ("note", Put::Absent),
];

/// A field of the good request, what it is changed to, and the text of the refusal, or none.
type Row = (&'static str, Put, &'static str);

const COMMANDS: [Row; 4] = [
    ("command", Put::Absent, "Missing field: command"),
    ("command", Put::Number(1), "Missing field: command"),
    ("command", Put::Chars("frob"), "Unknown command: frob"),
    ("command", Put::Chars("Build"), "Unknown command: Build"),
];

const KEYS: [Row; 4] = [
    ("note", Put::Absent, ""),
    ("note", Put::Null, ""),
    ("key", Put::Absent, "Missing field: key"),
    ("key", Put::Chars("7"), "Missing field: key"),
];

const SHAPES: [Row; 7] = [
    ("entries", Put::Null, "Missing field: entries"),
    ("entries", Put::Texts(&["a.txt"]), "Missing field: entries"),
    (
        "entries",
        Put::Lists(&[&["", "a.txt", ""]]),
        "Missing field: entries",
    ),
    ("write", Put::Number(0), "Missing field: write"),
    ("write", Put::Flag(true), ""),
    ("context", Put::Flag(true), ""),
    ("context", Put::Null, "Missing field: context"),
];

const PLUGINS: [Row; 4] = [
    ("plugins", Put::Absent, ""),
    ("plugins", Put::Plugins(1, "nom"), "Missing field: plugins"),
    ("plugins", Put::Plugins(64, "name"), "Not built yet"),
    (
        "plugins",
        Put::Plugins(65, "name"),
        "Missing field: plugins",
    ),
];

const ENTRIES: [Row; 10] = [
    ("entries", Put::Lists(&[]), ""),
    ("entries", Put::Lists(&[&["", ".txt"]]), ""),
    ("entries", Put::Lists(&[&["", "a.js"], &["", "atxt"]]), ""),
    ("entries", Put::Lists(&[&["x", "a.txt"]]), "Not built yet"),
    ("entries", Put::Lists(&[&["", ""]]), "Not built yet"),
    ("entries", Put::Lists(&[&["", "."]]), "Not built yet"),
    ("entries", Put::Lists(&[&["", ".."]]), "Not built yet"),
    ("entries", Put::Lists(&[&["", "d/a.txt"]]), "Not built yet"),
    ("entries", Put::Lists(&[&["", "a.txt/"]]), "Not built yet"),
    (
        "entries",
        Put::Lists(&[&["", "a.txt"], &["", "b.txt"], &["", "a.txt"]]),
        "Not built yet",
    ),
];

const COUNTS: [Row; 2] = [
    ("entries", Put::Entries(1_024), ""),
    ("entries", Put::Entries(1_025), "Too many entries"),
];

const LISTS: [Row; 2] = [
    ("flags", Put::Chars("--outdir=out"), "Missing field: flags"),
    ("flags", Put::Lists(&[&[]]), "Missing field: flags"),
];

/// The flags of the good request, and the text of the refusal, or none.
const FLAGS: [(&[&str], &str); 22] = [
    (&["--outdir=out"], ""),
    (&["--bundle", "--loader:.txt=copy", "--outdir=out"], ""),
    (&[], "Must use outdir"),
    (&["--minify"], "Bad flag: --minify"),
    (&["--outdir=a", "--outdir=b"], "Repeated flag: --outdir=b"),
    (&["--loader:.=js", "--outdir=a"], "Bad flag: --loader:.=js"),
    (&["--splitting=true"], "Bad flag: --splitting=true"),
    (&["--chunk-names=[hash"], "Bad flag: --chunk-names=[hash"),
    (&["--outdir=a.b", "--chunk-names=hash]-[name]"], ""),
    // where outputs go
    (&["--outdir=a/b"], "Not built yet"),
    (&["--outdir=/a"], "Not built yet"),
    (&["--outdir="], "Not built yet"),
    (&["--outdir=."], "Not built yet"),
    (&["--outdir=a", "--outdir=.."], "Not built yet"),
    (&["--outfile=a"], "Not built yet"),
    (&["--outdir=a", "--entry-names=[name]"], "Not built yet"),
    (&["--outdir=a", "--entry-names="], "Not built yet"),
    // chunks, and names that their contents give
    (&["--outdir=a", "--splitting"], "Not built yet"),
    (&["--minify", "--splitting"], "Not built yet"),
    (&["--outdir=a", "--chunk-names=[hash]"], "Not built yet"),
    (
        &["--outdir=a", "--chunk-names=[dir][hash]"],
        "Not built yet",
    ),
    (&["--chunk-names=[[hash]", "--minify"], "Not built yet"),
];

const FOLDERS: [Row; 5] = [
    ("absWorkingDir", Put::Null, "Missing field: absWorkingDir"),
    ("absWorkingDir", Put::Chars("/"), "Not built yet"),
    ("absWorkingDir", Put::Chars("w"), "Not built yet"),
    ("absWorkingDir", Put::Chars("/w/"), "Not built yet"),
    ("absWorkingDir", Put::Chars("/w/../x"), "Not built yet"),
];

/// The fields of a request in their order, and what it is read as.
type Asked = (&'static [(&'static str, Put)], &'static str);

const OTHERS: [Asked; 8] = [
    (
        &[("command", Put::Chars("rebuild")), ("key", Put::Number(7))],
        "rebuild 7",
    ),
    (
        &[("key", Put::Number(8)), ("command", Put::Chars("cancel"))],
        "cancel 8",
    ),
    (
        &[
            ("entries", Put::Null),
            ("command", Put::Chars("dispose")),
            ("port", Put::Chars("")),
            ("key", Put::Number(0)),
        ],
        "dispose 0",
    ),
    (
        &[
            ("command", Put::Chars("watch")),
            ("key", Put::Number(4_294_967_295)),
        ],
        "watch 4294967295",
    ),
    (
        &[
            ("command", Put::Chars("serve")),
            ("key", Put::Number(1)),
            ("port", Put::Number(8_000)),
        ],
        "serve 1 8000",
    ),
    (
        &[
            ("port", Put::Number(65_536)),
            ("key", Put::Number(2)),
            ("command", Put::Chars("serve")),
        ],
        "serve 2 65536",
    ),
    (&[("command", Put::Chars("ping"))], "ping"),
    (
        &[("key", Put::Null), ("command", Put::Chars("ping"))],
        "ping",
    ),
];

const UNFIT: [Asked; 9] = [
    (&[("command", Put::Chars("rebuild"))], "Missing field: key"),
    (
        &[("command", Put::Chars("cancel")), ("key", Put::Chars("7"))],
        "Missing field: key",
    ),
    (
        &[("command", Put::Chars("dispose")), ("key", Put::Null)],
        "Missing field: key",
    ),
    (
        &[("command", Put::Chars("watch")), ("key", Put::Flag(true))],
        "Missing field: key",
    ),
    (&[("command", Put::Chars("serve"))], "Missing field: key"),
    (
        &[("command", Put::Chars("serve")), ("port", Put::Number(1))],
        "Missing field: key",
    ),
    (
        &[("command", Put::Chars("serve")), ("key", Put::Number(1))],
        "Missing field: port",
    ),
    (
        &[
            ("command", Put::Chars("serve")),
            ("key", Put::Number(1)),
            ("port", Put::Chars("1")),
        ],
        "Missing field: port",
    ),
    (&[], "Missing field: command"),
];

/// Requests with more than one thing wrong.
const ORDER: [Asked; 6] = [
    (
        &[("key", Put::Null), ("command", Put::Chars(""))],
        "Unknown command: ",
    ),
    (&[("command", Put::Chars("build"))], "Missing field: key"),
    (
        &[
            ("command", Put::Chars("build")),
            ("flags", Put::Null),
            ("entries", Put::Null),
            ("key", Put::Number(1)),
        ],
        "Missing field: entries",
    ),
    (
        &[
            ("command", Put::Chars("build")),
            ("key", Put::Number(1)),
            ("entries", Put::Entries(1_025)),
            ("flags", Put::Texts(&[])),
            ("absWorkingDir", Put::Chars("w")),
            ("write", Put::Flag(true)),
        ],
        "Missing field: context",
    ),
    (
        &[
            ("command", Put::Chars("build")),
            ("key", Put::Number(1)),
            ("entries", Put::Entries(1_025)),
            ("flags", Put::Texts(&[])),
            ("absWorkingDir", Put::Chars("w")),
            ("write", Put::Flag(true)),
            ("context", Put::Flag(true)),
        ],
        "Not built yet",
    ),
    (
        &[
            ("command", Put::Chars("build")),
            ("key", Put::Number(1)),
            ("entries", Put::Entries(1_025)),
            ("flags", Put::Texts(&["--minify"])),
            ("absWorkingDir", Put::Chars("/w")),
            ("write", Put::Flag(false)),
            ("context", Put::Flag(true)),
        ],
        "Too many entries",
    ),
];

fn texts(alloc: Global, items: &[&'static str]) -> Result<Value, Memory> {
    let mut values = List::new(alloc);
    for item in items {
        values.push(Value::Str(Text::of(alloc, item)?))?;
    }
    Ok(Value::Array(values))
}

fn lists(alloc: Global, items: &[&'static [&'static str]]) -> Result<Value, Memory> {
    let mut values = List::new(alloc);
    for item in items {
        values.push(texts(alloc, item)?)?;
    }
    Ok(Value::Array(values))
}

fn plugins(alloc: Global, count: u32, key: &str) -> Result<Value, Memory> {
    let mut values = List::new(alloc);
    for _ in 0..count {
        let mut pairs = List::new(alloc);
        pairs.push((Text::of(alloc, key)?, Value::Str(Text::of(alloc, "p")?)))?;
        values.push(Value::Map(pairs))?;
    }
    Ok(Value::Array(values))
}

fn entry(alloc: Global, number: u32) -> Result<Value, Memory> {
    let path = name_of(alloc, number)?;
    let mut pair = List::new(alloc);
    pair.push(Value::Str(Text::of(alloc, "")?))?;
    pair.push(Value::Str(Text::of(alloc, path.as_str())?))?;
    Ok(Value::Array(pair))
}

fn name_of(alloc: Global, number: u32) -> Result<String, AllocError> {
    format!(in alloc; "{number}.txt")
}

fn entries(alloc: Global, count: u32) -> Result<Value, Memory> {
    let mut values = List::new(alloc);
    for number in 0..count {
        values.push(entry(alloc, number)?)?;
    }
    Ok(Value::Array(values))
}

fn made(alloc: Global, put: Put) -> Result<Option<Value>, Memory> {
    match put {
        Put::Absent => Ok(None),
        Put::Null => Ok(Some(Value::Null)),
        Put::Number(number) => Ok(Some(Value::Number(number))),
        Put::Flag(flag) => Ok(Some(Value::Bool(flag))),
        Put::Chars(chars) => Ok(Some(Value::Str(Text::of(alloc, chars)?))),
        Put::Texts(items) => Ok(Some(texts(alloc, items)?)),
        Put::Lists(items) => Ok(Some(lists(alloc, items)?)),
        Put::Plugins(count, key) => Ok(Some(plugins(alloc, count, key)?)),
        Put::Entries(count) => Ok(Some(entries(alloc, count)?)),
    }
}

/// The good request, with this in the place of one field.
fn request(alloc: Global, field: &str, put: Put) -> Result<Value, Memory> {
    let mut pairs = List::new(alloc);
    for (name, good) in GOOD {
        let put = if name == field { put } else { good };
        if let Some(value) = made(alloc, put)? {
            pairs.push((Text::of(alloc, name)?, value))?;
        }
    }
    Ok(Value::Map(pairs))
}

/// Whether the request is refused with this text, or taken where there is none.
fn answers(alloc: Global, request: &Value, text: &str) -> Result<bool, Memory> {
    match read_command(alloc, request) {
        Ok(_) => Ok(text.is_empty()),
        Err(CommandFault::Refused(refusal)) => Ok(refusal.as_str() == text),
        Err(CommandFault::Memory) => Err(Memory),
    }
}

fn row_holds(alloc: Global, field: &str, put: Put, text: &str) -> Result<bool, Memory> {
    let request = request(alloc, field, put)?;
    answers(alloc, &request, text)
}

fn request_of(alloc: Global, fields: &[(&'static str, Put)]) -> Result<Value, Memory> {
    let mut pairs = List::new(alloc);
    for (name, put) in fields {
        if let Some(value) = made(alloc, *put)? {
            pairs.push((Text::of(alloc, name)?, value))?;
        }
    }
    Ok(Value::Map(pairs))
}

fn spelled(alloc: Global, command: &Command) -> Result<String, AllocError> {
    match command {
        Command::Build { key, options } => { format!(in alloc; "build {key} {}", options.context) }
        Command::Rebuild(key) => format!(in alloc; "rebuild {key}"),
        Command::Cancel(key) => format!(in alloc; "cancel {key}"),
        Command::Dispose(key) => format!(in alloc; "dispose {key}"),
        Command::Watch(key) => format!(in alloc; "watch {key}"),
        Command::Serve { key, port } => format!(in alloc; "serve {key} {port}"),
        Command::Ping => String::from_str(alloc, "ping"),
    }
}

/// The command, or the text of the refusal.
fn read(alloc: Global, request: &Value) -> Result<String, Memory> {
    match read_command(alloc, request) {
        Ok(command) => Ok(spelled(alloc, &command)?),
        Err(CommandFault::Refused(refusal)) => Ok(String::from_str(alloc, refusal.as_str())?),
        Err(CommandFault::Memory) => Err(Memory),
    }
}

fn is_read_as(alloc: Global, fields: &[(&'static str, Put)], text: &str) -> Result<bool, Memory> {
    let request = request_of(alloc, fields)?;
    Ok(read(alloc, &request)?.as_str() == text)
}

#[test]
fn rows_of_others(rt: HostRuntime) -> Result<(), Fail> {
    for (fields, text) in OTHERS {
        assert!(rt; is_read_as(rt.alloc(), fields, text)?, "{text}");
    }
    Ok(())
}

#[test]
fn rows_of_unfit_fields(rt: HostRuntime) -> Result<(), Fail> {
    for (fields, text) in UNFIT {
        assert!(rt; is_read_as(rt.alloc(), fields, text)?, "{text}");
    }
    Ok(())
}

#[test]
fn rows_of_the_order(rt: HostRuntime) -> Result<(), Fail> {
    for (fields, text) in ORDER {
        assert!(rt; is_read_as(rt.alloc(), fields, text)?, "{text}");
    }
    Ok(())
}

#[test]
fn a_context(rt: HostRuntime) -> Result<(), Fail> {
    let request = request(rt.alloc(), "context", Put::Flag(true))?;
    assert!(rt; read(rt.alloc(), &request)?.as_str() == "build 7 true");
    Ok(())
}

#[test]
fn rows_of_commands(rt: HostRuntime) -> Result<(), Fail> {
    for (field, put, text) in COMMANDS {
        assert!(rt; row_holds(rt.alloc(), field, put, text)?, "{field}: {text}");
    }
    Ok(())
}

#[test]
fn rows_of_keys(rt: HostRuntime) -> Result<(), Fail> {
    for (field, put, text) in KEYS {
        assert!(rt; row_holds(rt.alloc(), field, put, text)?, "{field}: {text}");
    }
    Ok(())
}

#[test]
fn rows_of_shapes(rt: HostRuntime) -> Result<(), Fail> {
    for (field, put, text) in SHAPES {
        assert!(rt; row_holds(rt.alloc(), field, put, text)?, "{field}: {text}");
    }
    Ok(())
}

#[test]
fn rows_of_plugins(rt: HostRuntime) -> Result<(), Fail> {
    for (field, put, text) in PLUGINS {
        assert!(rt; row_holds(rt.alloc(), field, put, text)?, "{field}: {text}");
    }
    Ok(())
}

#[test]
fn rows_of_entries(rt: HostRuntime) -> Result<(), Fail> {
    for (field, put, text) in ENTRIES {
        assert!(rt; row_holds(rt.alloc(), field, put, text)?, "{field}: {text}");
    }
    Ok(())
}

#[test]
fn rows_of_counts(rt: HostRuntime) -> Result<(), Fail> {
    for (field, put, text) in COUNTS {
        assert!(rt; row_holds(rt.alloc(), field, put, text)?, "{field}: {text}");
    }
    Ok(())
}

#[test]
fn rows_of_lists(rt: HostRuntime) -> Result<(), Fail> {
    for (field, put, text) in LISTS {
        assert!(rt; row_holds(rt.alloc(), field, put, text)?, "{field}: {text}");
    }
    Ok(())
}

#[test]
fn rows_of_folders(rt: HostRuntime) -> Result<(), Fail> {
    for (field, put, text) in FOLDERS {
        assert!(rt; row_holds(rt.alloc(), field, put, text)?, "{field}: {text}");
    }
    Ok(())
}

#[test]
fn rows_of_flags(rt: HostRuntime) -> Result<(), Fail> {
    for (words, text) in FLAGS {
        assert!(rt;
            row_holds(rt.alloc(), "flags", Put::Texts(words), text)?,
            "{text}"
        );
    }
    Ok(())
}

#[test]
fn no_map(rt: HostRuntime) -> Result<(), Fail> {
    assert!(rt; answers(rt.alloc(), &Value::Null, "Request is not a map")?);
    Ok(())
}

/// Whether the options of the good request are those that its fields spell.
fn is_good(key: u32, options: &Options) -> bool {
    let outdir = match &options.flags.outdir {
        Some(outdir) => outdir.as_str(),
        None => "",
    };
    key == 7 && options.cwd.as_str() == "/w/x" && options.entries.len() == 2 && outdir == "out"
}

fn good_is_read(alloc: Global) -> Result<bool, CommandFault> {
    let request = request(alloc, "note", Put::Null)?;
    let Command::Build { key, options } = read_command(alloc, &request)? else {
        return Ok(false);
    };
    Ok(is_good(key, &options))
}

#[test]
fn a_build(rt: HostRuntime) {
    let holds = match good_is_read(rt.alloc()) {
        Ok(holds) => holds,
        Err(_fault) => false,
    };
    assert!(rt; holds);
}
