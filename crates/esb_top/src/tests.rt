ghost use Rattle.std.specs.Prelude.{◌≤◌};

use super::*;
use esb_base::{Blob, List, MemHost, MemSink, MemSource, Text};
use std::alloc::Global;
use std::test::Fail;
use std::vec::Vec;

const GREETING: &[u8] = b"\x0d\0\0\0esb-profile-1";

/// `{command: "frob"}`
const FROB: &[u8] = b"\x1d\0\0\0\x06\0\0\0\x06\x01\0\0\0\x07\0\0\0command\x03\x04\0\0\0frob";

const FROB_REPLY: &[u8] =
    b",\0\0\0\x07\0\0\0\x06\x01\0\0\0\x05\0\0\0error\x03\x15\0\0\0Unknown command: frob";

/// A build of `a.txt` and `b.txt` in `/w`.
const BUILD: &[u8] =
    b"\xc8\0\0\0\x08\0\0\0\x06\x07\0\0\0\x0d\0\0\0absWorkingDir\x03\x02\0\0\0/w\x07\0\0\0command\x03\x05\0\0\0build\x07\0\0\0context\x01\0\x07\0\0\0entries\x05\x02\0\0\0\x05\x02\0\0\0\x03\0\0\0\0\x03\x05\0\0\0a.txt\x05\x02\0\0\0\x03\0\0\0\0\x03\x05\0\0\0b.txt\x05\0\0\0flags\x05\x02\0\0\0\x03\x0c\0\0\0--outdir=out\x03\x12\0\0\0--loader:.txt=copy\x03\0\0\0key\x02\x01\0\0\0\x05\0\0\0write\x01\0";

/// A build of `a.txt` and `b.txt` in `/w` that writes its files.
const WRITE: &[u8] =
    b"\xc8\0\0\0\0\0\0\0\x06\x07\0\0\0\x0d\0\0\0absWorkingDir\x03\x02\0\0\0/w\x07\0\0\0command\x03\x05\0\0\0build\x07\0\0\0context\x01\0\x07\0\0\0entries\x05\x02\0\0\0\x05\x02\0\0\0\x03\0\0\0\0\x03\x05\0\0\0a.txt\x05\x02\0\0\0\x03\0\0\0\0\x03\x05\0\0\0b.txt\x05\0\0\0flags\x05\x02\0\0\0\x03\x0c\0\0\0--outdir=out\x03\x12\0\0\0--loader:.txt=copy\x03\0\0\0key\x02\x01\0\0\0\x05\0\0\0write\x01\x01";

const BUILD_REPLY: &[u8] =
    b"\x8c\0\0\0\x09\0\0\0\x06\x02\0\0\0\x06\0\0\0errors\x05\0\0\0\0\x0b\0\0\0outputFiles\x05\x02\0\0\0\x06\x02\0\0\0\x08\0\0\0contents\x04\0\0\0\0\x04\0\0\0path\x03\x0c\0\0\0/w/out/a.txt\x06\x02\0\0\0\x08\0\0\0contents\x04\x02\0\0\0\xff\0\x04\0\0\0path\x03\x0c\0\0\0/w/out/b.txt";

/// The reply where `a.txt` is not there.
const ABSENT_REPLY: &[u8] =
    b"\x9a\0\0\0\x09\0\0\0\x06\x02\0\0\0\x06\0\0\0errors\x05\x01\0\0\0\x06\x05\0\0\0\x06\0\0\0column\x02\0\0\0\0\x04\0\0\0file\x03\0\0\0\0\x06\0\0\0length\x02\0\0\0\0\x04\0\0\0line\x02\0\0\0\0\x04\0\0\0text\x03$\0\0\0Could not resolve \x22a.txt\x22: not found\x0b\0\0\0outputFiles\x05\0\0\0\0";

/// `{command: "ping"}`
const PING: &[u8] = b"\x1d\0\0\0\0\0\0\0\x06\x01\0\0\0\x07\0\0\0command\x03\x04\0\0\0ping";

const PING_REPLY: &[u8] = b"\x09\0\0\0\x01\0\0\0\x06\0\0\0\0";

/// What stands in `a.txt`, in each folder of a world.
type Contents<'a> = &'a [Option<&'a [u8]>];

const EMPTY: &[u8] = b"";

const NEW: &[u8] = b"new";

/// The folder `/w` with `b.txt`, of the bytes ff 00, and maybe `a.txt`.
fn folder(alloc: Global, a: Option<&[u8]>) -> Result<List<(Text, Blob)>, Fail> {
    let mut folder = List::new(alloc);
    if let Some(contents) = a {
        folder.push((Text::of(alloc, "/w/a.txt")?, Blob::of(alloc, contents)?))?;
    }
    folder.push((Text::of(alloc, "/w/b.txt")?, Blob::of(alloc, b"\xff\0")?))?;
    Ok(folder)
}

fn world(alloc: Global, contents: Contents) -> Result<List<List<(Text, Blob)>>, Fail> {
    let mut world = List::new(alloc);
    for a in contents {
        world.push(folder(alloc, *a)?)?;
    }
    Ok(world)
}

fn joined(alloc: Global, parts: &[&[u8]]) -> Result<List<u8>, Fail> {
    let mut bytes = List::new(alloc);
    for part in parts {
        bytes.extend_from_slice(part)?;
    }
    Ok(bytes)
}

/// How a session on these words and frames ended, its place, and what it sent. A read gives at most `most` bytes, and the listed
/// reads, writes and calls of the host fail.
fn served(
    alloc: Global,
    contents: Contents,
    words: &[&str],
    input: &[&[u8]],
    most: usize,
    failing_reads: &[u64],
    failing_writes: &[u64],
    failing_calls: &[u64],
) -> Result<(u8, u64, List<u8>), Fail>
    requires { 1 ≤ most }
{
    let mut texts = Vec::new(alloc);
    for word in words {
        texts.push(Text::of(alloc, word)?)?;
    }
    let input = joined(alloc, input)?;
    let input = Blob::of(alloc, input.as_slice())?;
    let mut source = MemSource::new(input, most, List::of(alloc, failing_reads)?);
    let mut sink = MemSink::new(alloc, 100_000, List::of(alloc, failing_writes)?)?;
    let mut host = MemHost::new(
        alloc,
        world(alloc, contents)?,
        List::of(alloc, failing_calls)?,
    );
    let session = run_serial(alloc, texts.as_slice(), &mut source, &mut sink, &mut host);
    let sent = List::of(alloc, sink.as_slice())?;
    Ok((session.status, session.place, sent))
}

/// Whether the service ends so, with this place, and sends these, where a read gives at most `most` bytes.
fn serves_by(
    alloc: Global,
    contents: Contents,
    input: &[&[u8]],
    most: usize,
    end: (u8, u64),
    output: &[&[u8]],
) -> Result<bool, Fail>
    requires { 1 ≤ most }
{
    let (status, place, sent) = served(
        alloc,
        contents,
        &["service", "--serial"],
        input,
        most,
        &[],
        &[],
        &[],
    )?;
    let output = joined(alloc, output)?;
    Ok((status, place) == end && sent.as_slice() == output.as_slice())
}

/// Whether the service ends so, with this place, and sends these, however the reads are cut.
fn serves(
    alloc: Global,
    contents: Contents,
    input: &[&[u8]],
    end: (u8, u64),
    output: &[&[u8]],
) -> Result<bool, Fail> {
    Ok(
        serves_by(alloc, contents, input, 1, end, output)?
            && serves_by(alloc, contents, input, 7, end, output)?
            && serves_by(alloc, contents, input, 65_536, end, output)?,
    )
}

#[test]
fn empty_input(rt: HostRuntime) -> Result<(), Fail> {
    assert!(rt; serves(rt.alloc(), &[Some(EMPTY)], &[], (0, 0), &[GREETING])?);
    Ok(())
}

#[test]
fn requests_in_order(rt: HostRuntime) -> Result<(), Fail> {
    assert!(rt;
        serves(
            rt.alloc(),
            &[Some(EMPTY)],
            &[FROB, BUILD, FROB],
            (0, 0),
            &[GREETING, FROB_REPLY, BUILD_REPLY, FROB_REPLY],
        )?
    );
    Ok(())
}

#[test]
fn a_ping(rt: HostRuntime) -> Result<(), Fail> {
    let cut: &[u8] = b"\x1d\0\0\0\0\0\0\0\x06\x01\0\0\0\x07\0\0\0command\x03\x04\0\0\0pin";
    assert!(rt;
        serves(
            rt.alloc(),
            &[Some(EMPTY)],
            &[PING],
            (0, 0),
            &[GREETING, PING_REPLY]
        )?
    );
    assert!(rt;
        serves(
            rt.alloc(),
            &[Some(EMPTY)],
            &[PING, cut],
            (2, 33),
            &[GREETING, PING_REPLY]
        )?
    );
    assert!(rt; serves(rt.alloc(), &[Some(EMPTY)], &[cut], (2, 0), &[GREETING])?);
    Ok(())
}

#[test]
fn an_absent_entry(rt: HostRuntime) -> Result<(), Fail> {
    assert!(rt;
        serves(
            rt.alloc(),
            &[None],
            &[BUILD],
            (0, 0),
            &[GREETING, ABSENT_REPLY]
        )?
    );
    Ok(())
}

#[test]
fn malformed_input(rt: HostRuntime) -> Result<(), Fail> {
    let frames: [&[u8]; 4] = [
        // a packet that is cut
        b"\x1d\0\0\0\0",
        // a boolean 2
        b"\x06\0\0\0\0\0\0\0\x01\x02",
        // a key that stands twice
        b"\x15\0\0\0\0\0\0\0\x06\x02\0\0\0\x01\0\0\0a\0\x01\0\0\0a\0",
        // a byte after the value
        b"\x06\0\0\0\0\0\0\0\0\0",
    ];
    for frame in frames {
        assert!(rt; serves(rt.alloc(), &[Some(EMPTY)], &[frame], (2, 0), &[GREETING])?);
        assert!(rt;
            serves(
                rt.alloc(),
                &[Some(EMPTY)],
                &[FROB, frame],
                (2, 33),
                &[GREETING, FROB_REPLY]
            )?
        );
    }
    Ok(())
}

#[test]
fn faults(rt: HostRuntime) -> Result<(), Fail> {
    let alloc = rt.alloc();
    let words = ["service", "--serial"];
    let (status, _, sent) = served(
        alloc,
        &[Some(EMPTY)],
        &words,
        &[FROB],
        65_536,
        &[1],
        &[],
        &[],
    )?;
    let replied = joined(alloc, &[GREETING, FROB_REPLY])?;
    assert!(rt; status == 3 && sent.as_slice() == replied.as_slice());
    // the length of the greeting, its text, and each reply are a write
    let ends = [0, 4, GREETING.len()];
    for (failing, end) in ends.iter().enumerate() {
        let (status, _, sent) = served(
            alloc,
            &[Some(EMPTY)],
            &words,
            &[FROB, FROB],
            65_536,
            &[],
            &[failing as u64],
            &[],
        )?;
        assert!(rt; status == 4 && sent.as_slice() == &GREETING[..*end]);
    }
    Ok(())
}

/// Whether these words, on one request, end with this status and send these.
fn words_send(alloc: Global, words: &[&str], status: u8, output: &[&[u8]]) -> Result<bool, Fail> {
    let (ended, place, sent) = served(alloc, &[Some(EMPTY)], words, &[FROB], 9, &[], &[], &[])?;
    let output = joined(alloc, output)?;
    Ok((ended, place) == (status, 0) && sent.as_slice() == output.as_slice())
}

#[test]
fn handshakes(rt: HostRuntime) -> Result<(), Fail> {
    let talk: [(&str, &[u8]); 4] = [
        ("--handshake=", b"\0\0\0\0"),
        ("--handshake=a", b"\x01\0\0\0a"),
        (
            "--handshake=--handshake=é",
            b"\x0e\0\0\0--handshake=\xc3\xa9",
        ),
        ("--handshake=esb-profile-1", GREETING),
    ];
    for (word, greeting) in talk {
        assert!(rt;
            words_send(
                rt.alloc(),
                &["service", "--serial", word],
                0,
                &[greeting, FROB_REPLY]
            )?
        );
    }
    Ok(())
}

#[test]
fn bad_words(rt: HostRuntime) -> Result<(), Fail> {
    let talk: [(&[&str], &[u8]); 13] = [
        (&[], b"0"),
        (&["serve"], b"0"),
        (&["--serial", "service"], b"0"),
        (&["service"], b"1"),
        (&["service", "-serial"], b"1"),
        (&["service", "--handshake=a", "--serial"], b"1"),
        (&["service", "--serial", "x"], b"2"),
        (&["service", "--serial", ""], b"2"),
        (&["service", "--serial", "--handshake"], b"2"),
        (&["service", "--serial", "x", "--handshake=a"], b"2"),
        (&["service", "--serial", "--handshake=a", "x"], b"3"),
        (
            &["service", "--serial", "--handshake=a", "--handshake=b"],
            b"3",
        ),
        (&["service", "--serial", "--handshake=", ""], b"3"),
    ];
    for (words, place) in talk {
        assert!(rt; words_send(rt.alloc(), words, 1, &[b"esb: bad word ", place, b"\n"])?);
    }
    Ok(())
}

/// Whether the service answers each request of a table with the reply beside it.
fn answers(alloc: Global, contents: Contents, talk: &[(&[u8], &[u8])]) -> Result<bool, Fail> {
    let mut requests: Vec<&[u8]> = Vec::new(alloc);
    let mut replies: Vec<&[u8]> = Vec::new(alloc);
    replies.push(GREETING)?;
    for (request, reply) in talk {
        requests.push(request)?;
        replies.push(reply)?;
    }
    serves(
        alloc,
        contents,
        requests.as_slice(),
        (0, 0),
        replies.as_slice(),
    )
}

#[test]
fn refused_requests(rt: HostRuntime) -> Result<(), Fail> {
    let talk: [(&[u8], &[u8]); 4] = [
        // {command: "frob"} → {error: "Unknown command: frob"}
        (
            b"\x1d\0\0\0\0\0\0\0\x06\x01\0\0\0\x07\0\0\0command\x03\x04\0\0\0frob",
            b",\0\0\0\x01\0\0\0\x06\x01\0\0\0\x05\0\0\0error\x03\x15\0\0\0Unknown command: frob",
        ),
        // {command: "rebuild"} → {error: "Missing field: key"}
        (
            b" \0\0\0\x02\0\0\0\x06\x01\0\0\0\x07\0\0\0command\x03\x07\0\0\0rebuild",
            b")\0\0\0\x03\0\0\0\x06\x01\0\0\0\x05\0\0\0error\x03\x12\0\0\0Missing field: key",
        ),
        // {command: "rebuild", key: 9} → {error: "Unknown key"}
        (
            b",\0\0\0\x04\0\0\0\x06\x02\0\0\0\x07\0\0\0command\x03\x07\0\0\0rebuild\x03\0\0\0key\x02\x09\0\0\0",
            b"\x22\0\0\0\x05\0\0\0\x06\x01\0\0\0\x05\0\0\0error\x03\x0b\0\0\0Unknown key",
        ),
        // null → {error: "Request is not a map"}
        (
            b"\x05\0\0\0\x06\0\0\0\0",
            b"+\0\0\0\x07\0\0\0\x06\x01\0\0\0\x05\0\0\0error\x03\x14\0\0\0Request is not a map",
        ),
    ];
    assert!(rt; answers(rt.alloc(), &[Some(EMPTY)], &talk)?);
    Ok(())
}

#[test]
fn a_context(rt: HostRuntime) -> Result<(), Fail> {
    let talk: [(&[u8], &[u8]); 11] = [
        // build with key 1, context: true → {}
        (
            b"\xc8\0\0\0\0\0\0\0\x06\x07\0\0\0\x0d\0\0\0absWorkingDir\x03\x02\0\0\0/w\x07\0\0\0command\x03\x05\0\0\0build\x07\0\0\0context\x01\x01\x07\0\0\0entries\x05\x02\0\0\0\x05\x02\0\0\0\x03\0\0\0\0\x03\x05\0\0\0a.txt\x05\x02\0\0\0\x03\0\0\0\0\x03\x05\0\0\0b.txt\x05\0\0\0flags\x05\x02\0\0\0\x03\x0c\0\0\0--outdir=out\x03\x12\0\0\0--loader:.txt=copy\x03\0\0\0key\x02\x01\0\0\0\x05\0\0\0write\x01\0",
            b"\x09\0\0\0\x01\0\0\0\x06\0\0\0\0",
        ),
        // build with key 1, context: true → {error: "Key in use"}
        (
            b"\xc8\0\0\0\x02\0\0\0\x06\x07\0\0\0\x0d\0\0\0absWorkingDir\x03\x02\0\0\0/w\x07\0\0\0command\x03\x05\0\0\0build\x07\0\0\0context\x01\x01\x07\0\0\0entries\x05\x02\0\0\0\x05\x02\0\0\0\x03\0\0\0\0\x03\x05\0\0\0a.txt\x05\x02\0\0\0\x03\0\0\0\0\x03\x05\0\0\0b.txt\x05\0\0\0flags\x05\x02\0\0\0\x03\x0c\0\0\0--outdir=out\x03\x12\0\0\0--loader:.txt=copy\x03\0\0\0key\x02\x01\0\0\0\x05\0\0\0write\x01\0",
            b"!\0\0\0\x03\0\0\0\x06\x01\0\0\0\x05\0\0\0error\x03\x0a\0\0\0Key in use",
        ),
        // {command: "rebuild", key: 1} → both files
        (
            b",\0\0\0\x04\0\0\0\x06\x02\0\0\0\x07\0\0\0command\x03\x07\0\0\0rebuild\x03\0\0\0key\x02\x01\0\0\0",
            b"\x8c\0\0\0\x05\0\0\0\x06\x02\0\0\0\x06\0\0\0errors\x05\0\0\0\0\x0b\0\0\0outputFiles\x05\x02\0\0\0\x06\x02\0\0\0\x08\0\0\0contents\x04\0\0\0\0\x04\0\0\0path\x03\x0c\0\0\0/w/out/a.txt\x06\x02\0\0\0\x08\0\0\0contents\x04\x02\0\0\0\xff\0\x04\0\0\0path\x03\x0c\0\0\0/w/out/b.txt",
        ),
        // {command: "rebuild", key: 1} → both files of the second folder
        (
            b",\0\0\0\x06\0\0\0\x06\x02\0\0\0\x07\0\0\0command\x03\x07\0\0\0rebuild\x03\0\0\0key\x02\x01\0\0\0",
            b"\x8f\0\0\0\x07\0\0\0\x06\x02\0\0\0\x06\0\0\0errors\x05\0\0\0\0\x0b\0\0\0outputFiles\x05\x02\0\0\0\x06\x02\0\0\0\x08\0\0\0contents\x04\x03\0\0\0new\x04\0\0\0path\x03\x0c\0\0\0/w/out/a.txt\x06\x02\0\0\0\x08\0\0\0contents\x04\x02\0\0\0\xff\0\x04\0\0\0path\x03\x0c\0\0\0/w/out/b.txt",
        ),
        // {command: "cancel", key: 1} → {}
        (
            b"+\0\0\0\x08\0\0\0\x06\x02\0\0\0\x07\0\0\0command\x03\x06\0\0\0cancel\x03\0\0\0key\x02\x01\0\0\0",
            b"\x09\0\0\0\x09\0\0\0\x06\0\0\0\0",
        ),
        // {command: "watch", key: 1} → {error: "Not available"}
        (
            b"*\0\0\0\x0a\0\0\0\x06\x02\0\0\0\x07\0\0\0command\x03\x05\0\0\0watch\x03\0\0\0key\x02\x01\0\0\0",
            b"$\0\0\0\x0b\0\0\0\x06\x01\0\0\0\x05\0\0\0error\x03\x0d\0\0\0Not available",
        ),
        // {command: "serve", key: 1, port: 8000} → {error: "Not available"}
        (
            b"7\0\0\0\x0c\0\0\0\x06\x03\0\0\0\x07\0\0\0command\x03\x05\0\0\0serve\x03\0\0\0key\x02\x01\0\0\0\x04\0\0\0port\x02@\x1f\0\0",
            b"$\0\0\0\x0d\0\0\0\x06\x01\0\0\0\x05\0\0\0error\x03\x0d\0\0\0Not available",
        ),
        // {command: "dispose", key: 1} → {}
        (
            b",\0\0\0\x0e\0\0\0\x06\x02\0\0\0\x07\0\0\0command\x03\x07\0\0\0dispose\x03\0\0\0key\x02\x01\0\0\0",
            b"\x09\0\0\0\x0f\0\0\0\x06\0\0\0\0",
        ),
        // {command: "rebuild", key: 1} → {error: "Unknown key"}
        (
            b",\0\0\0\x10\0\0\0\x06\x02\0\0\0\x07\0\0\0command\x03\x07\0\0\0rebuild\x03\0\0\0key\x02\x01\0\0\0",
            b"\x22\0\0\0\x11\0\0\0\x06\x01\0\0\0\x05\0\0\0error\x03\x0b\0\0\0Unknown key",
        ),
        // build with key 1, context: false → both files of the second folder
        (
            b"\xc8\0\0\0\x12\0\0\0\x06\x07\0\0\0\x0d\0\0\0absWorkingDir\x03\x02\0\0\0/w\x07\0\0\0command\x03\x05\0\0\0build\x07\0\0\0context\x01\0\x07\0\0\0entries\x05\x02\0\0\0\x05\x02\0\0\0\x03\0\0\0\0\x03\x05\0\0\0a.txt\x05\x02\0\0\0\x03\0\0\0\0\x03\x05\0\0\0b.txt\x05\0\0\0flags\x05\x02\0\0\0\x03\x0c\0\0\0--outdir=out\x03\x12\0\0\0--loader:.txt=copy\x03\0\0\0key\x02\x01\0\0\0\x05\0\0\0write\x01\0",
            b"\x8f\0\0\0\x13\0\0\0\x06\x02\0\0\0\x06\0\0\0errors\x05\0\0\0\0\x0b\0\0\0outputFiles\x05\x02\0\0\0\x06\x02\0\0\0\x08\0\0\0contents\x04\x03\0\0\0new\x04\0\0\0path\x03\x0c\0\0\0/w/out/a.txt\x06\x02\0\0\0\x08\0\0\0contents\x04\x02\0\0\0\xff\0\x04\0\0\0path\x03\x0c\0\0\0/w/out/b.txt",
        ),
        // {command: "watch", key: 1} → {error: "Unknown key"}
        (
            b"*\0\0\0\x14\0\0\0\x06\x02\0\0\0\x07\0\0\0command\x03\x05\0\0\0watch\x03\0\0\0key\x02\x01\0\0\0",
            b"\x22\0\0\0\x15\0\0\0\x06\x01\0\0\0\x05\0\0\0error\x03\x0b\0\0\0Unknown key",
        ),
    ];
    assert!(rt; answers(rt.alloc(), &[Some(EMPTY), Some(NEW)], &talk)?);
    Ok(())
}

#[test]
fn flags_of_a_build(rt: HostRuntime) -> Result<(), Fail> {
    let talk: [(&[u8], &[u8]); 5] = [
        // the flags ["--outdir=a", "--outdir=b"] → {error: "Repeated flag: --outdir=b"}
        (
            b"\xaa\0\0\0\0\0\0\0\x06\x07\0\0\0\x0d\0\0\0absWorkingDir\x03\x02\0\0\0/w\x07\0\0\0command\x03\x05\0\0\0build\x07\0\0\0context\x01\0\x07\0\0\0entries\x05\x01\0\0\0\x05\x02\0\0\0\x03\0\0\0\0\x03\x05\0\0\0a.txt\x05\0\0\0flags\x05\x02\0\0\0\x03\x0a\0\0\0--outdir=a\x03\x0a\0\0\0--outdir=b\x03\0\0\0key\x02\x01\0\0\0\x05\0\0\0write\x01\0",
            b"0\0\0\0\x01\0\0\0\x06\x01\0\0\0\x05\0\0\0error\x03\x19\0\0\0Repeated flag: --outdir=b",
        ),
        // the flag "--minify" → {error: "Bad flag: --minify"}
        (
            b"\x99\0\0\0\x02\0\0\0\x06\x07\0\0\0\x0d\0\0\0absWorkingDir\x03\x02\0\0\0/w\x07\0\0\0command\x03\x05\0\0\0build\x07\0\0\0context\x01\0\x07\0\0\0entries\x05\x01\0\0\0\x05\x02\0\0\0\x03\0\0\0\0\x03\x05\0\0\0a.txt\x05\0\0\0flags\x05\x01\0\0\0\x03\x08\0\0\0--minify\x03\0\0\0key\x02\x01\0\0\0\x05\0\0\0write\x01\0",
            b")\0\0\0\x03\0\0\0\x06\x01\0\0\0\x05\0\0\0error\x03\x12\0\0\0Bad flag: --minify",
        ),
        // no flags → {error: "Must use outdir"}
        (
            b"\x8c\0\0\0\x04\0\0\0\x06\x07\0\0\0\x0d\0\0\0absWorkingDir\x03\x02\0\0\0/w\x07\0\0\0command\x03\x05\0\0\0build\x07\0\0\0context\x01\0\x07\0\0\0entries\x05\x01\0\0\0\x05\x02\0\0\0\x03\0\0\0\0\x03\x05\0\0\0a.txt\x05\0\0\0flags\x05\0\0\0\0\x03\0\0\0key\x02\x01\0\0\0\x05\0\0\0write\x01\0",
            b"&\0\0\0\x05\0\0\0\x06\x01\0\0\0\x05\0\0\0error\x03\x0f\0\0\0Must use outdir",
        ),
        // the flags ["--minify", "--splitting"] → {error: "Not built yet"}
        (
            b"\xa9\0\0\0\x06\0\0\0\x06\x07\0\0\0\x0d\0\0\0absWorkingDir\x03\x02\0\0\0/w\x07\0\0\0command\x03\x05\0\0\0build\x07\0\0\0context\x01\0\x07\0\0\0entries\x05\x01\0\0\0\x05\x02\0\0\0\x03\0\0\0\0\x03\x05\0\0\0a.txt\x05\0\0\0flags\x05\x02\0\0\0\x03\x08\0\0\0--minify\x03\x0b\0\0\0--splitting\x03\0\0\0key\x02\x01\0\0\0\x05\0\0\0write\x01\0",
            b"$\0\0\0\x07\0\0\0\x06\x01\0\0\0\x05\0\0\0error\x03\x0d\0\0\0Not built yet",
        ),
        // the flag "--outdir=out" → one message: b.txt, line 1, "Not built yet"
        (
            b"\x9d\0\0\0\x08\0\0\0\x06\x07\0\0\0\x0d\0\0\0absWorkingDir\x03\x02\0\0\0/w\x07\0\0\0command\x03\x05\0\0\0build\x07\0\0\0context\x01\0\x07\0\0\0entries\x05\x01\0\0\0\x05\x02\0\0\0\x03\0\0\0\0\x03\x05\0\0\0b.txt\x05\0\0\0flags\x05\x01\0\0\0\x03\x0c\0\0\0--outdir=out\x03\0\0\0key\x02\x01\0\0\0\x05\0\0\0write\x01\0",
            b"\x88\0\0\0\x09\0\0\0\x06\x02\0\0\0\x06\0\0\0errors\x05\x01\0\0\0\x06\x05\0\0\0\x06\0\0\0column\x02\0\0\0\0\x04\0\0\0file\x03\x05\0\0\0b.txt\x06\0\0\0length\x02\0\0\0\0\x04\0\0\0line\x02\x01\0\0\0\x04\0\0\0text\x03\x0d\0\0\0Not built yet\x0b\0\0\0outputFiles\x05\0\0\0\0",
        ),
    ];
    assert!(rt; answers(rt.alloc(), &[Some(EMPTY)], &talk)?);
    Ok(())
}

#[test]
fn written_files(rt: HostRuntime) -> Result<(), Fail> {
    // The host is asked for the kind and the contents of both files, by its calls 0 to 3, and then puts both.
    let rows: [(&[u64], &[u8]); 4] = [
        // both are put
        (
            &[],
            b",\0\0\0\x01\0\0\0\x06\x02\0\0\0\x06\0\0\0errors\x05\0\0\0\0\x0b\0\0\0outputFiles\x05\0\0\0\0",
        ),
        // Failed to write /w/out/a.txt
        (
            &[4],
            b"\x92\0\0\0\x01\0\0\0\x06\x02\0\0\0\x06\0\0\0errors\x05\x01\0\0\0\x06\x05\0\0\0\x06\0\0\0column\x02\0\0\0\0\x04\0\0\0file\x03\0\0\0\0\x06\0\0\0length\x02\0\0\0\0\x04\0\0\0line\x02\0\0\0\0\x04\0\0\0text\x03\x1c\0\0\0Failed to write /w/out/a.txt\x0b\0\0\0outputFiles\x05\0\0\0\0",
        ),
        // Failed to write /w/out/b.txt
        (
            &[5],
            b"\x92\0\0\0\x01\0\0\0\x06\x02\0\0\0\x06\0\0\0errors\x05\x01\0\0\0\x06\x05\0\0\0\x06\0\0\0column\x02\0\0\0\0\x04\0\0\0file\x03\0\0\0\0\x06\0\0\0length\x02\0\0\0\0\x04\0\0\0line\x02\0\0\0\0\x04\0\0\0text\x03\x1c\0\0\0Failed to write /w/out/b.txt\x0b\0\0\0outputFiles\x05\0\0\0\0",
        ),
        // Failed to write /w/out/a.txt; Failed to write /w/out/b.txt
        (
            &[4, 5],
            b"\xf8\0\0\0\x01\0\0\0\x06\x02\0\0\0\x06\0\0\0errors\x05\x02\0\0\0\x06\x05\0\0\0\x06\0\0\0column\x02\0\0\0\0\x04\0\0\0file\x03\0\0\0\0\x06\0\0\0length\x02\0\0\0\0\x04\0\0\0line\x02\0\0\0\0\x04\0\0\0text\x03\x1c\0\0\0Failed to write /w/out/a.txt\x06\x05\0\0\0\x06\0\0\0column\x02\0\0\0\0\x04\0\0\0file\x03\0\0\0\0\x06\0\0\0length\x02\0\0\0\0\x04\0\0\0line\x02\0\0\0\0\x04\0\0\0text\x03\x1c\0\0\0Failed to write /w/out/b.txt\x0b\0\0\0outputFiles\x05\0\0\0\0",
        ),
    ];
    for (failing, reply) in rows {
        let (status, _, sent) = served(
            rt.alloc(),
            &[Some(EMPTY)],
            &["service", "--serial"],
            &[WRITE],
            65_536,
            &[],
            &[],
            failing,
        )?;
        let output = joined(rt.alloc(), &[GREETING, reply])?;
        assert_eq!(rt; status, 0);
        assert_eq!(rt; sent.as_slice(), output.as_slice());
    }
    Ok(())
}
