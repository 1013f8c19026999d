use super::*;
use esb_base::{Flags, List, Loader, Memory, Text};
use std::alloc::{AllocError, Global};
use std::test::Fail;

/// The flags, how many entries the build has, and what they are read as.
type Row = (&'static [&'static str], u32, &'static str);

const PLACES: [Row; 11] = [
    (&["--outdir=out"], 2, "dir out"),
    (&["--outdir="], 1, "dir "),
    (&["--outdir=/a/../b"], 1, "dir /a/../b"),
    (&["--outfile=o.js"], 1, "file o.js"),
    (&["--outfile="], 1, "file "),
    (&[], 0, "Must use outdir"),
    (&[], 1, "Must use outdir"),
    (&["--outfile=o.js"], 2, "Must use outdir"),
    (&["--outfile=o.js"], 0, "Must use outdir"),
    (&["--outfile=o.js", "--splitting"], 1, "Must use outdir"),
    (&["--splitting", "--outdir=out"], 1, "dir out splitting"),
];

const REPEATS: [Row; 16] = [
    (
        &["--outdir=a", "--outdir=b"],
        1,
        "1 Repeated flag: --outdir=b",
    ),
    (
        &["--outfile=a", "--outfile=a"],
        1,
        "1 Repeated flag: --outfile=a",
    ),
    (
        &["--outdir=a", "--outfile=b"],
        1,
        "1 Repeated flag: --outfile=b",
    ),
    (
        &["--outfile=a", "--outdir=b"],
        1,
        "1 Repeated flag: --outdir=b",
    ),
    (
        &["--splitting", "--splitting"],
        1,
        "1 Repeated flag: --splitting",
    ),
    (&["--bundle", "--bundle"], 1, "1 Repeated flag: --bundle"),
    (
        &["--log-level=a", "--log-level=b"],
        1,
        "1 Repeated flag: --log-level=b",
    ),
    (
        &["--log-limit=0", "--log-limit=0"],
        1,
        "1 Repeated flag: --log-limit=0",
    ),
    (&["--color=a", "--color="], 1, "1 Repeated flag: --color="),
    (
        &["--format=esm", "--bundle", "--format=esm"],
        1,
        "2 Repeated flag: --format=esm",
    ),
    (
        &["--loader:.a=js", "--loader:.b=js", "--loader:.a=text"],
        1,
        "2 Repeated flag: --loader:.a=text",
    ),
    (
        &["--conditions=a", "--conditions=b"],
        1,
        "1 Repeated flag: --conditions=b",
    ),
    (
        &["--entry-names=a", "--chunk-names=a", "--entry-names=b"],
        1,
        "2 Repeated flag: --entry-names=b",
    ),
    (
        &["--chunk-names=a", "--chunk-names=a"],
        1,
        "1 Repeated flag: --chunk-names=a",
    ),
    (
        &["--outdir=a", "--outdir=b", "--minify"],
        1,
        "1 Repeated flag: --outdir=b",
    ),
    (
        &["--external:a", "--external:a", "--outdir=a"],
        1,
        "dir a external a external a",
    ),
];

/// Words that are no flags.
const BAD: [&str; 39] = [
    "--minify",
    "",
    "-",
    "--",
    "--outdir",
    "--outdir:a",
    "-outdir=a",
    " --outdir=a",
    "--Outdir=a",
    "--outfile",
    "--splitting=",
    "--splitting=true",
    "--splittin",
    "--bundle=",
    "--bundled",
    "--log-level",
    "--log-limit",
    "--color",
    "--format=",
    "--format=cjs",
    "--format=esm ",
    "--loader:.a",
    "--loader:.a=",
    "--loader:.a=jsx",
    "--loader:.a=file",
    "--loader:a=js",
    "--loader:.=js",
    "--loader:.a.b=js",
    "--loader:.a/b=js",
    "--loader:..a=js",
    "--external:",
    "--external=a",
    "--conditions=",
    "--conditions=a,",
    "--conditions=,a",
    "--entry-names=",
    "--entry-names=[ext]",
    "--chunk-names=",
    "--chunk-names=[dir]/[name]",
];

const NAMES: [Row; 12] = [
    (
        &["--outdir=o", "--entry-names=[dir]/[name]-[hash]"],
        1,
        "dir o entries [dir]/[name]-[hash]",
    ),
    (&["--outdir=o", "--entry-names=x"], 1, "dir o entries x"),
    (
        &["--outdir=o", "--entry-names=[name][name]]"],
        1,
        "dir o entries [name][name]]",
    ),
    (
        &["--outdir=o", "--entry-names=[name"],
        1,
        "1 Bad flag: --entry-names=[name",
    ),
    (
        &["--outdir=o", "--entry-names=[[name]"],
        1,
        "1 Bad flag: --entry-names=[[name]",
    ),
    (
        &["--outdir=o", "--entry-names=[Name]"],
        1,
        "1 Bad flag: --entry-names=[Name]",
    ),
    (
        &["--outdir=o", "--entry-names=[name]["],
        1,
        "1 Bad flag: --entry-names=[name][",
    ),
    (
        &["--outdir=o", "--chunk-names=c/[hash]"],
        1,
        "dir o chunks c/[hash]",
    ),
    (&["--outdir=o", "--chunk-names=[name]-[hash]"], 1, "dir o"),
    (
        &["--outdir=o", "--chunk-names=[name]-[dir]"],
        1,
        "1 Bad flag: --chunk-names=[name]-[dir]",
    ),
    (
        &["--outdir=o", "--conditions=a,b c,a"],
        1,
        "dir o condition a condition b c condition a",
    ),
    (
        &["--outdir=o", "--conditions=a,,b"],
        1,
        "1 Bad flag: --conditions=a,,b",
    ),
];

const OTHERS: [Row; 10] = [
    (
        &[
            "--outdir=o",
            "--bundle",
            "--log-level=silent",
            "--log-limit=0",
            "--color=true",
            "--format=esm",
        ],
        1,
        "dir o",
    ),
    (
        &["--outdir=o", "--log-level=", "--log-limit=", "--color="],
        1,
        "dir o",
    ),
    (
        &[
            "--loader:.a=js",
            "--loader:.b=json",
            "--outdir=o",
            "--loader:.c=text",
            "--loader:.d=copy",
            "--loader:.e=empty",
        ],
        1,
        "dir o a=Js b=Json c=Txt d=Copy e=Empty",
    ),
    (
        &["--outdir=o", "--loader:.a=js", "--loader:.A=js"],
        1,
        "dir o a=Js A=Js",
    ),
    (
        &["--outdir=o", "--loader:.a=b=js", "--loader:.a=text"],
        1,
        "dir o a=b=Js a=Txt",
    ),
    (
        &["--outdir=o", "--loader:.--outdir==js"],
        1,
        "dir o --outdir==Js",
    ),
    (
        &["--external:./a", "--outdir=o", "--external:b=c"],
        1,
        "dir o external ./a external b=c",
    ),
    (&["--outdir=--outfile=a"], 1, "dir --outfile=a"),
    (&["--minify", "--watch"], 1, "0 Bad flag: --minify"),
    (
        &["--bundle", "--outdir=a", "--outdir=b", "--outdir=c"],
        1,
        "2 Repeated flag: --outdir=b",
    ),
];

fn words(alloc: Global, items: &[&'static str]) -> Result<List<Text>, Memory> {
    let mut words = List::new(alloc);
    for item in items {
        words.push(Text::of(alloc, item)?)?;
    }
    Ok(words)
}

fn push_texts(text: &mut String, name: &str, items: &[Text]) -> Result<(), AllocError> {
    for item in items {
        text.push_str(name)?;
        text.push_str(item.as_str())?;
    }
    Ok(())
}

/// Writes a template, unless it is the one that holds with no flag.
fn push_names(text: &mut String, name: &str, usual: &str, names: &Text) -> Result<(), AllocError> {
    if names.as_str() != usual {
        text.push_str(name)?;
        text.push_str(names.as_str())?;
    }
    Ok(())
}

fn push_path(text: &mut String, name: &str, path: &Option<Text>) -> Result<(), AllocError> {
    if let Some(path) = path {
        text.push_str(name)?;
        text.push_str(path.as_str())?;
    }
    Ok(())
}

fn loader_name(loader: Loader) -> &'static str {
    match loader {
        Loader::Js => "=Js",
        Loader::Json => "=Json",
        Loader::Txt => "=Txt",
        Loader::Copy => "=Copy",
        Loader::Empty => "=Empty",
    }
}

fn spelled(alloc: Global, flags: &Flags) -> Result<String, AllocError> {
    let mut text = String::new(alloc);
    push_path(&mut text, "dir ", &flags.outdir)?;
    push_path(&mut text, "file ", &flags.outfile)?;
    if flags.splitting {
        text.push_str(" splitting")?;
    }
    for (extension, loader) in flags.loaders.as_slice() {
        text.push_str(" ")?;
        text.push_str(extension.as_str())?;
        text.push_str(loader_name(*loader))?;
    }
    push_texts(&mut text, " external ", flags.externals.as_slice())?;
    push_texts(&mut text, " condition ", flags.conditions.as_slice())?;
    push_names(&mut text, " entries ", "[dir]/[name]", &flags.entry_names)?;
    push_names(&mut text, " chunks ", "[name]-[hash]", &flags.chunk_names)?;
    Ok(text)
}

/// The text of the refusal, behind the place that it names.
fn refused(alloc: Global, fault: FlagFault, flags: &[Text]) -> Result<String, Memory> {
    let CommandFault::Refused(refusal) = refusal_of(alloc, fault, flags) else {
        return Err(Memory);
    };
    let text = match fault {
        FlagFault::BadFlag(place) | FlagFault::Repeated(place) => {
            format!(in alloc; "{place} {}", refusal.as_str())?
        }
        _ => String::from_str(alloc, refusal.as_str())?,
    };
    Ok(text)
}

fn read(alloc: Global, items: &[&'static str], entries: u32) -> Result<String, Memory> {
    let flags = words(alloc, items)?;
    match read_flags(alloc, flags.as_slice(), entries) {
        Ok(read) => Ok(spelled(alloc, &read)?),
        Err(FlagFault::Memory) => Err(Memory),
        Err(fault) => refused(alloc, fault, flags.as_slice()),
    }
}

fn is_read_as(alloc: Global, row: Row) -> Result<bool, Memory> {
    let (items, entries, text) = row;
    Ok(read(alloc, items, entries)?.as_str() == text)
}

#[test]
fn rows_of_places(rt: HostRuntime) -> Result<(), Fail> {
    for row in PLACES {
        assert!(rt; is_read_as(rt.alloc(), row)?, "{}", row.2);
    }
    Ok(())
}

#[test]
fn rows_of_repeats(rt: HostRuntime) -> Result<(), Fail> {
    for row in REPEATS {
        assert!(rt; is_read_as(rt.alloc(), row)?, "{}", row.2);
    }
    Ok(())
}

#[test]
fn rows_of_names(rt: HostRuntime) -> Result<(), Fail> {
    for row in NAMES {
        assert!(rt; is_read_as(rt.alloc(), row)?, "{}", row.2);
    }
    Ok(())
}

#[test]
fn rows_of_other_flags(rt: HostRuntime) -> Result<(), Fail> {
    for row in OTHERS {
        assert!(rt; is_read_as(rt.alloc(), row)?, "{}", row.2);
    }
    Ok(())
}

/// Whether the word is bad behind a good one.
fn is_bad(alloc: Global, word: &'static str) -> Result<bool, Memory> {
    let flags = words(alloc, &["--outdir=a", word])?;
    match read_flags(alloc, flags.as_slice(), 1) {
        Err(FlagFault::BadFlag(place)) => Ok(place == 1),
        Err(FlagFault::Memory) => Err(Memory),
        _ => Ok(false),
    }
}

#[test]
fn bad_words(rt: HostRuntime) -> Result<(), Fail> {
    for word in BAD {
        assert!(rt; is_bad(rt.alloc(), word)?, "{word}");
    }
    Ok(())
}
