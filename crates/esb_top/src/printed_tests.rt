//! Builds of JavaScript files.

use super::*;
use esb_base::{Blob, List, MemHost, MemSink, MemSource, Text};
use std::alloc::Global;
use std::test::Fail;
use std::vec::Vec;

/// A name of what is tried, the files, a request, and its reply.
type Row<'a> = (&'a str, &'a [(&'a str, &'a [u8])], &'a [u8], &'a [u8]);

const GREETING: &[u8] = b"\x0d\0\0\0esb-profile-1";

/// The packets that a session on these files answers to a request.
fn answer(alloc: Global, files: &[(&str, &[u8])], request: &[u8]) -> Result<List<u8>, Fail> {
    let mut folder = List::new(alloc);
    for (path, contents) in files {
        folder.push((Text::of(alloc, path)?, Blob::of(alloc, contents)?))?;
    }
    let mut world = List::new(alloc);
    world.push(folder)?;
    let mut words = Vec::new(alloc);
    for word in ["service", "--serial"] {
        words.push(Text::of(alloc, word)?)?;
    }
    let mut source = MemSource::new(Blob::of(alloc, request)?, 65_536, List::new(alloc));
    let mut sink = MemSink::new(alloc, 100_000, List::new(alloc))?;
    let mut host = MemHost::new(alloc, world, List::new(alloc));
    let session = run_serial(alloc, words.as_slice(), &mut source, &mut sink, &mut host);
    let sent = sink.as_slice();
    if session.status != 0 || sent.len() < GREETING.len() {
        return Ok(List::new(alloc));
    }
    Ok(List::of(alloc, &sent[GREETING.len()..])?)
}

#[test]
fn printed_files(rt: HostRuntime) -> Result<(), Fail> {
    let rows: [Row; 21] = [
        (
            "divisions and regular expressions",
            &[(
                "/w/a.js",
                b"a = b / c / d\x0af(/x/g)\x0ag = () => {}\x0a/x/.test(h)",
            )],
            b"\xac\0\0\0\0\0\0\0\x06\x08\0\0\0\x0d\0\0\0absWorkingDir\x03\x02\0\0\0/w\x07\0\0\0command\x03\x05\0\0\0build\x07\0\0\0context\x01\0\x07\0\0\0entries\x05\x01\0\0\0\x05\x02\0\0\0\x03\0\0\0\0\x03\x04\0\0\0a.js\x05\0\0\0flags\x05\x01\0\0\0\x03\x0c\0\0\0--outdir=out\x03\0\0\0key\x02\x01\0\0\0\x07\0\0\0plugins\x05\0\0\0\0\x05\0\0\0write\x01\0",
            b"\x8e\0\0\0\x01\0\0\0\x06\x02\0\0\0\x06\0\0\0errors\x05\0\0\0\0\x0b\0\0\0outputFiles\x05\x01\0\0\0\x06\x02\0\0\0\x08\0\0\0contents\x044\0\0\0a = b / c / d;\x0af(/x/g);\x0ag = () => { };\x0a/x/.test(h);\x0a\x04\0\0\0path\x03\x0b\0\0\0/w/out/a.js",
        ),
        (
            "semicolons that are left out",
            &[(
                "/w/a.js",
                b"r(function () { return\x0aa })\x0aa\x0a++b\x0ax\x0a(y)\x0ado;while(0) z",
            )],
            b"\xac\0\0\0\0\0\0\0\x06\x08\0\0\0\x0d\0\0\0absWorkingDir\x03\x02\0\0\0/w\x07\0\0\0command\x03\x05\0\0\0build\x07\0\0\0context\x01\0\x07\0\0\0entries\x05\x01\0\0\0\x05\x02\0\0\0\x03\0\0\0\0\x03\x04\0\0\0a.js\x05\0\0\0flags\x05\x01\0\0\0\x03\x0c\0\0\0--outdir=out\x03\0\0\0key\x02\x01\0\0\0\x07\0\0\0plugins\x05\0\0\0\0\x05\0\0\0write\x01\0",
            b"\x9a\0\0\0\x01\0\0\0\x06\x02\0\0\0\x06\0\0\0errors\x05\0\0\0\0\x0b\0\0\0outputFiles\x05\x01\0\0\0\x06\x02\0\0\0\x08\0\0\0contents\x04@\0\0\0r(function () { return; a; });\x0aa;\x0a++ b;\x0ax(y);\x0ado; while (0);\x0az;\x0a\x04\0\0\0path\x03\x0b\0\0\0/w/out/a.js",
        ),
        (
            "a number that begins with a dot",
            &[("/w/a.js", b"x = a ?.5 : b")],
            b"\xac\0\0\0\0\0\0\0\x06\x08\0\0\0\x0d\0\0\0absWorkingDir\x03\x02\0\0\0/w\x07\0\0\0command\x03\x05\0\0\0build\x07\0\0\0context\x01\0\x07\0\0\0entries\x05\x01\0\0\0\x05\x02\0\0\0\x03\0\0\0\0\x03\x04\0\0\0a.js\x05\0\0\0flags\x05\x01\0\0\0\x03\x0c\0\0\0--outdir=out\x03\0\0\0key\x02\x01\0\0\0\x07\0\0\0plugins\x05\0\0\0\0\x05\0\0\0write\x01\0",
            b"i\0\0\0\x01\0\0\0\x06\x02\0\0\0\x06\0\0\0errors\x05\0\0\0\0\x0b\0\0\0outputFiles\x05\x01\0\0\0\x06\x02\0\0\0\x08\0\0\0contents\x04\x0f\0\0\0x = a ? .5: b;\x0a\x04\0\0\0path\x03\x0b\0\0\0/w/out/a.js",
        ),
        (
            "100 parentheses in an argument",
            &[(
                "/w/a.js",
                b"use(((((((((((((((((((((((((((((((((((((((((((((((((((((((((((((((((((((((((((((((((((((((((((((((((((((1)))))))))))))))))))))))))))))))))))))))))))))))))))))))))))))))))))))))))))))))))))))))))))))))))))));",
            )],
            b"\xac\0\0\0\0\0\0\0\x06\x08\0\0\0\x0d\0\0\0absWorkingDir\x03\x02\0\0\0/w\x07\0\0\0command\x03\x05\0\0\0build\x07\0\0\0context\x01\0\x07\0\0\0entries\x05\x01\0\0\0\x05\x02\0\0\0\x03\0\0\0\0\x03\x04\0\0\0a.js\x05\0\0\0flags\x05\x01\0\0\0\x03\x0c\0\0\0--outdir=out\x03\0\0\0key\x02\x01\0\0\0\x07\0\0\0plugins\x05\0\0\0\0\x05\0\0\0write\x01\0",
            b"*\x01\0\0\x01\0\0\0\x06\x02\0\0\0\x06\0\0\0errors\x05\0\0\0\0\x0b\0\0\0outputFiles\x05\x01\0\0\0\x06\x02\0\0\0\x08\0\0\0contents\x04\xd0\0\0\0use(((((((((((((((((((((((((((((((((((((((((((((((((((((((((((((((((((((((((((((((((((((((((((((((((((((1)))))))))))))))))))))))))))))))))))))))))))))))))))))))))))))))))))))))))))))))))))))))))))))))))))));\x0a\x04\0\0\0path\x03\x0b\0\0\0/w/out/a.js",
        ),
        (
            "an empty file",
            &[("/w/a.js", b"")],
            b"\xac\0\0\0\0\0\0\0\x06\x08\0\0\0\x0d\0\0\0absWorkingDir\x03\x02\0\0\0/w\x07\0\0\0command\x03\x05\0\0\0build\x07\0\0\0context\x01\0\x07\0\0\0entries\x05\x01\0\0\0\x05\x02\0\0\0\x03\0\0\0\0\x03\x04\0\0\0a.js\x05\0\0\0flags\x05\x01\0\0\0\x03\x0c\0\0\0--outdir=out\x03\0\0\0key\x02\x01\0\0\0\x07\0\0\0plugins\x05\0\0\0\0\x05\0\0\0write\x01\0",
            b"Z\0\0\0\x01\0\0\0\x06\x02\0\0\0\x06\0\0\0errors\x05\0\0\0\0\x0b\0\0\0outputFiles\x05\x01\0\0\0\x06\x02\0\0\0\x08\0\0\0contents\x04\0\0\0\0\x04\0\0\0path\x03\x0b\0\0\0/w/out/a.js",
        ),
        (
            "a first line for the shell, and comments",
            &[("/w/a.js", b"#!/bin/x\x0a/* a */ f() // b\x0a")],
            b"\xac\0\0\0\0\0\0\0\x06\x08\0\0\0\x0d\0\0\0absWorkingDir\x03\x02\0\0\0/w\x07\0\0\0command\x03\x05\0\0\0build\x07\0\0\0context\x01\0\x07\0\0\0entries\x05\x01\0\0\0\x05\x02\0\0\0\x03\0\0\0\0\x03\x04\0\0\0a.js\x05\0\0\0flags\x05\x01\0\0\0\x03\x0c\0\0\0--outdir=out\x03\0\0\0key\x02\x01\0\0\0\x07\0\0\0plugins\x05\0\0\0\0\x05\0\0\0write\x01\0",
            b"_\0\0\0\x01\0\0\0\x06\x02\0\0\0\x06\0\0\0errors\x05\0\0\0\0\x0b\0\0\0outputFiles\x05\x01\0\0\0\x06\x02\0\0\0\x08\0\0\0contents\x04\x05\0\0\0f();\x0a\x04\0\0\0path\x03\x0b\0\0\0/w/out/a.js",
        ),
        (
            "a breach behind a character of two bytes",
            &[("/w/a.js", b"x\x0a/*\xc3\xa9*/ break;")],
            b"\xac\0\0\0\0\0\0\0\x06\x08\0\0\0\x0d\0\0\0absWorkingDir\x03\x02\0\0\0/w\x07\0\0\0command\x03\x05\0\0\0build\x07\0\0\0context\x01\0\x07\0\0\0entries\x05\x01\0\0\0\x05\x02\0\0\0\x03\0\0\0\0\x03\x04\0\0\0a.js\x05\0\0\0flags\x05\x01\0\0\0\x03\x0c\0\0\0--outdir=out\x03\0\0\0key\x02\x01\0\0\0\x07\0\0\0plugins\x05\0\0\0\0\x05\0\0\0write\x01\0",
            b"\x87\0\0\0\x01\0\0\0\x06\x02\0\0\0\x06\0\0\0errors\x05\x01\0\0\0\x06\x05\0\0\0\x06\0\0\0column\x02\x07\0\0\0\x04\0\0\0file\x03\x04\0\0\0a.js\x06\0\0\0length\x02\0\0\0\0\x04\0\0\0line\x02\x02\0\0\0\x04\0\0\0text\x03\x0d\0\0\0Early error 3\x0b\0\0\0outputFiles\x05\0\0\0\0",
        ),
        (
            "a breach in the first line",
            &[("/w/a.js", b"eval = 1")],
            b"\xac\0\0\0\0\0\0\0\x06\x08\0\0\0\x0d\0\0\0absWorkingDir\x03\x02\0\0\0/w\x07\0\0\0command\x03\x05\0\0\0build\x07\0\0\0context\x01\0\x07\0\0\0entries\x05\x01\0\0\0\x05\x02\0\0\0\x03\0\0\0\0\x03\x04\0\0\0a.js\x05\0\0\0flags\x05\x01\0\0\0\x03\x0c\0\0\0--outdir=out\x03\0\0\0key\x02\x01\0\0\0\x07\0\0\0plugins\x05\0\0\0\0\x05\0\0\0write\x01\0",
            b"\x87\0\0\0\x01\0\0\0\x06\x02\0\0\0\x06\0\0\0errors\x05\x01\0\0\0\x06\x05\0\0\0\x06\0\0\0column\x02\0\0\0\0\x04\0\0\0file\x03\x04\0\0\0a.js\x06\0\0\0length\x02\0\0\0\0\x04\0\0\0line\x02\x01\0\0\0\x04\0\0\0text\x03\x0d\0\0\0Early error 8\x0b\0\0\0outputFiles\x05\0\0\0\0",
        ),
        (
            "bytes that are no text",
            &[("/w/a.js", b"f('\xff')")],
            b"\xac\0\0\0\0\0\0\0\x06\x08\0\0\0\x0d\0\0\0absWorkingDir\x03\x02\0\0\0/w\x07\0\0\0command\x03\x05\0\0\0build\x07\0\0\0context\x01\0\x07\0\0\0entries\x05\x01\0\0\0\x05\x02\0\0\0\x03\0\0\0\0\x03\x04\0\0\0a.js\x05\0\0\0flags\x05\x01\0\0\0\x03\x0c\0\0\0--outdir=out\x03\0\0\0key\x02\x01\0\0\0\x07\0\0\0plugins\x05\0\0\0\0\x05\0\0\0write\x01\0",
            b"\x83\0\0\0\x01\0\0\0\x06\x02\0\0\0\x06\0\0\0errors\x05\x01\0\0\0\x06\x05\0\0\0\x06\0\0\0column\x02\0\0\0\0\x04\0\0\0file\x03\x04\0\0\0a.js\x06\0\0\0length\x02\0\0\0\0\x04\0\0\0line\x02\x01\0\0\0\x04\0\0\0text\x03\x09\0\0\0Not UTF-8\x0b\0\0\0outputFiles\x05\0\0\0\0",
        ),
        (
            "an import",
            &[("/w/a.js", b"import \x22x\x22")],
            b"\xac\0\0\0\0\0\0\0\x06\x08\0\0\0\x0d\0\0\0absWorkingDir\x03\x02\0\0\0/w\x07\0\0\0command\x03\x05\0\0\0build\x07\0\0\0context\x01\0\x07\0\0\0entries\x05\x01\0\0\0\x05\x02\0\0\0\x03\0\0\0\0\x03\x04\0\0\0a.js\x05\0\0\0flags\x05\x01\0\0\0\x03\x0c\0\0\0--outdir=out\x03\0\0\0key\x02\x01\0\0\0\x07\0\0\0plugins\x05\0\0\0\0\x05\0\0\0write\x01\0",
            b"\x87\0\0\0\x01\0\0\0\x06\x02\0\0\0\x06\0\0\0errors\x05\x01\0\0\0\x06\x05\0\0\0\x06\0\0\0column\x02\0\0\0\0\x04\0\0\0file\x03\x04\0\0\0a.js\x06\0\0\0length\x02\0\0\0\0\x04\0\0\0line\x02\x01\0\0\0\x04\0\0\0text\x03\x0d\0\0\0Not built yet\x0b\0\0\0outputFiles\x05\0\0\0\0",
        ),
        (
            "an export",
            &[("/w/a.js", b"export {}")],
            b"\xac\0\0\0\0\0\0\0\x06\x08\0\0\0\x0d\0\0\0absWorkingDir\x03\x02\0\0\0/w\x07\0\0\0command\x03\x05\0\0\0build\x07\0\0\0context\x01\0\x07\0\0\0entries\x05\x01\0\0\0\x05\x02\0\0\0\x03\0\0\0\0\x03\x04\0\0\0a.js\x05\0\0\0flags\x05\x01\0\0\0\x03\x0c\0\0\0--outdir=out\x03\0\0\0key\x02\x01\0\0\0\x07\0\0\0plugins\x05\0\0\0\0\x05\0\0\0write\x01\0",
            b"\x87\0\0\0\x01\0\0\0\x06\x02\0\0\0\x06\0\0\0errors\x05\x01\0\0\0\x06\x05\0\0\0\x06\0\0\0column\x02\0\0\0\0\x04\0\0\0file\x03\x04\0\0\0a.js\x06\0\0\0length\x02\0\0\0\0\x04\0\0\0line\x02\x01\0\0\0\x04\0\0\0text\x03\x0d\0\0\0Not built yet\x0b\0\0\0outputFiles\x05\0\0\0\0",
        ),
        (
            "a call of require",
            &[("/w/a.js", b"f(require)")],
            b"\xac\0\0\0\0\0\0\0\x06\x08\0\0\0\x0d\0\0\0absWorkingDir\x03\x02\0\0\0/w\x07\0\0\0command\x03\x05\0\0\0build\x07\0\0\0context\x01\0\x07\0\0\0entries\x05\x01\0\0\0\x05\x02\0\0\0\x03\0\0\0\0\x03\x04\0\0\0a.js\x05\0\0\0flags\x05\x01\0\0\0\x03\x0c\0\0\0--outdir=out\x03\0\0\0key\x02\x01\0\0\0\x07\0\0\0plugins\x05\0\0\0\0\x05\0\0\0write\x01\0",
            b"\x87\0\0\0\x01\0\0\0\x06\x02\0\0\0\x06\0\0\0errors\x05\x01\0\0\0\x06\x05\0\0\0\x06\0\0\0column\x02\0\0\0\0\x04\0\0\0file\x03\x04\0\0\0a.js\x06\0\0\0length\x02\0\0\0\0\x04\0\0\0line\x02\x01\0\0\0\x04\0\0\0text\x03\x0d\0\0\0Not built yet\x0b\0\0\0outputFiles\x05\0\0\0\0",
        ),
        (
            "a property that is called module",
            &[("/w/a.js", b"f()\x0aa.module")],
            b"\xac\0\0\0\0\0\0\0\x06\x08\0\0\0\x0d\0\0\0absWorkingDir\x03\x02\0\0\0/w\x07\0\0\0command\x03\x05\0\0\0build\x07\0\0\0context\x01\0\x07\0\0\0entries\x05\x01\0\0\0\x05\x02\0\0\0\x03\0\0\0\0\x03\x04\0\0\0a.js\x05\0\0\0flags\x05\x01\0\0\0\x03\x0c\0\0\0--outdir=out\x03\0\0\0key\x02\x01\0\0\0\x07\0\0\0plugins\x05\0\0\0\0\x05\0\0\0write\x01\0",
            b"\x87\0\0\0\x01\0\0\0\x06\x02\0\0\0\x06\0\0\0errors\x05\x01\0\0\0\x06\x05\0\0\0\x06\0\0\0column\x02\0\0\0\0\x04\0\0\0file\x03\x04\0\0\0a.js\x06\0\0\0length\x02\0\0\0\0\x04\0\0\0line\x02\x01\0\0\0\x04\0\0\0text\x03\x0d\0\0\0Not built yet\x0b\0\0\0outputFiles\x05\0\0\0\0",
        ),
        (
            "exports",
            &[("/w/a.js", b"exports.a = 1")],
            b"\xac\0\0\0\0\0\0\0\x06\x08\0\0\0\x0d\0\0\0absWorkingDir\x03\x02\0\0\0/w\x07\0\0\0command\x03\x05\0\0\0build\x07\0\0\0context\x01\0\x07\0\0\0entries\x05\x01\0\0\0\x05\x02\0\0\0\x03\0\0\0\0\x03\x04\0\0\0a.js\x05\0\0\0flags\x05\x01\0\0\0\x03\x0c\0\0\0--outdir=out\x03\0\0\0key\x02\x01\0\0\0\x07\0\0\0plugins\x05\0\0\0\0\x05\0\0\0write\x01\0",
            b"\x87\0\0\0\x01\0\0\0\x06\x02\0\0\0\x06\0\0\0errors\x05\x01\0\0\0\x06\x05\0\0\0\x06\0\0\0column\x02\0\0\0\0\x04\0\0\0file\x03\x04\0\0\0a.js\x06\0\0\0length\x02\0\0\0\0\x04\0\0\0line\x02\x01\0\0\0\x04\0\0\0text\x03\x0d\0\0\0Not built yet\x0b\0\0\0outputFiles\x05\0\0\0\0",
        ),
        (
            "words that begin with those, and a text",
            &[("/w/a.js", b"f(exported, 'import', requires)")],
            b"\xac\0\0\0\0\0\0\0\x06\x08\0\0\0\x0d\0\0\0absWorkingDir\x03\x02\0\0\0/w\x07\0\0\0command\x03\x05\0\0\0build\x07\0\0\0context\x01\0\x07\0\0\0entries\x05\x01\0\0\0\x05\x02\0\0\0\x03\0\0\0\0\x03\x04\0\0\0a.js\x05\0\0\0flags\x05\x01\0\0\0\x03\x0c\0\0\0--outdir=out\x03\0\0\0key\x02\x01\0\0\0\x07\0\0\0plugins\x05\0\0\0\0\x05\0\0\0write\x01\0",
            b"{\0\0\0\x01\0\0\0\x06\x02\0\0\0\x06\0\0\0errors\x05\0\0\0\0\x0b\0\0\0outputFiles\x05\x01\0\0\0\x06\x02\0\0\0\x08\0\0\0contents\x04!\0\0\0f(exported, 'import', requires);\x0a\x04\0\0\0path\x03\x0b\0\0\0/w/out/a.js",
        ),
        (
            "the loader `empty`",
            &[("/w/a.css", b"\xff")],
            b"\xc5\0\0\0\0\0\0\0\x06\x08\0\0\0\x0d\0\0\0absWorkingDir\x03\x02\0\0\0/w\x07\0\0\0command\x03\x05\0\0\0build\x07\0\0\0context\x01\0\x07\0\0\0entries\x05\x01\0\0\0\x05\x02\0\0\0\x03\0\0\0\0\x03\x05\0\0\0a.css\x05\0\0\0flags\x05\x02\0\0\0\x03\x0c\0\0\0--outdir=out\x03\x13\0\0\0--loader:.css=empty\x03\0\0\0key\x02\x01\0\0\0\x07\0\0\0plugins\x05\0\0\0\0\x05\0\0\0write\x01\0",
            b"Z\0\0\0\x01\0\0\0\x06\x02\0\0\0\x06\0\0\0errors\x05\0\0\0\0\x0b\0\0\0outputFiles\x05\x01\0\0\0\x06\x02\0\0\0\x08\0\0\0contents\x04\0\0\0\0\x04\0\0\0path\x03\x0b\0\0\0/w/out/a.js",
        ),
        (
            "no loader",
            &[("/w/a.b.md", b"")],
            b"\xae\0\0\0\0\0\0\0\x06\x08\0\0\0\x0d\0\0\0absWorkingDir\x03\x02\0\0\0/w\x07\0\0\0command\x03\x05\0\0\0build\x07\0\0\0context\x01\0\x07\0\0\0entries\x05\x01\0\0\0\x05\x02\0\0\0\x03\0\0\0\0\x03\x06\0\0\0a.b.md\x05\0\0\0flags\x05\x01\0\0\0\x03\x0c\0\0\0--outdir=out\x03\0\0\0key\x02\x01\0\0\0\x07\0\0\0plugins\x05\0\0\0\0\x05\0\0\0write\x01\0",
            b"\x93\0\0\0\x01\0\0\0\x06\x02\0\0\0\x06\0\0\0errors\x05\x01\0\0\0\x06\x05\0\0\0\x06\0\0\0column\x02\0\0\0\0\x04\0\0\0file\x03\x06\0\0\0a.b.md\x06\0\0\0length\x02\0\0\0\0\x04\0\0\0line\x02\x01\0\0\0\x04\0\0\0text\x03\x17\0\0\0No loader for /w/a.b.md\x0b\0\0\0outputFiles\x05\0\0\0\0",
        ),
        (
            "two outputs with one path",
            &[("/w/a.js", b"f()"), ("/w/a.mjs", b"g()")],
            b"\xc0\0\0\0\0\0\0\0\x06\x08\0\0\0\x0d\0\0\0absWorkingDir\x03\x02\0\0\0/w\x07\0\0\0command\x03\x05\0\0\0build\x07\0\0\0context\x01\0\x07\0\0\0entries\x05\x02\0\0\0\x05\x02\0\0\0\x03\0\0\0\0\x03\x05\0\0\0a.mjs\x05\x02\0\0\0\x03\0\0\0\0\x03\x04\0\0\0a.js\x05\0\0\0flags\x05\x01\0\0\0\x03\x0c\0\0\0--outdir=out\x03\0\0\0key\x02\x01\0\0\0\x07\0\0\0plugins\x05\0\0\0\0\x05\0\0\0write\x01\0",
            b"\xa1\0\0\0\x01\0\0\0\x06\x02\0\0\0\x06\0\0\0errors\x05\x01\0\0\0\x06\x05\0\0\0\x06\0\0\0column\x02\0\0\0\0\x04\0\0\0file\x03\0\0\0\0\x06\0\0\0length\x02\0\0\0\0\x04\0\0\0line\x02\0\0\0\0\x04\0\0\0text\x03+\0\0\0Two output files share the path /w/out/a.js\x0b\0\0\0outputFiles\x05\0\0\0\0",
        ),
        (
            "two outputs with one path and the same bytes",
            &[("/w/a.js", b"f()"), ("/w/a.cjs", b"f ( ) ;")],
            b"\xc0\0\0\0\0\0\0\0\x06\x08\0\0\0\x0d\0\0\0absWorkingDir\x03\x02\0\0\0/w\x07\0\0\0command\x03\x05\0\0\0build\x07\0\0\0context\x01\0\x07\0\0\0entries\x05\x02\0\0\0\x05\x02\0\0\0\x03\0\0\0\0\x03\x05\0\0\0a.cjs\x05\x02\0\0\0\x03\0\0\0\0\x03\x04\0\0\0a.js\x05\0\0\0flags\x05\x01\0\0\0\x03\x0c\0\0\0--outdir=out\x03\0\0\0key\x02\x01\0\0\0\x07\0\0\0plugins\x05\0\0\0\0\x05\0\0\0write\x01\0",
            b"_\0\0\0\x01\0\0\0\x06\x02\0\0\0\x06\0\0\0errors\x05\0\0\0\0\x0b\0\0\0outputFiles\x05\x01\0\0\0\x06\x02\0\0\0\x08\0\0\0contents\x04\x05\0\0\0f();\x0a\x04\0\0\0path\x03\x0b\0\0\0/w/out/a.js",
        ),
        (
            "a file that is copied beside one that is printed",
            &[("/w/a.mjs", b"f()"), ("/w/b.js", b"g()")],
            b"\xd6\0\0\0\0\0\0\0\x06\x08\0\0\0\x0d\0\0\0absWorkingDir\x03\x02\0\0\0/w\x07\0\0\0command\x03\x05\0\0\0build\x07\0\0\0context\x01\0\x07\0\0\0entries\x05\x02\0\0\0\x05\x02\0\0\0\x03\0\0\0\0\x03\x04\0\0\0b.js\x05\x02\0\0\0\x03\0\0\0\0\x03\x05\0\0\0a.mjs\x05\0\0\0flags\x05\x02\0\0\0\x03\x0c\0\0\0--outdir=out\x03\x11\0\0\0--loader:.js=copy\x03\0\0\0key\x02\x01\0\0\0\x07\0\0\0plugins\x05\0\0\0\0\x05\0\0\0write\x01\0",
            b"\x90\0\0\0\x01\0\0\0\x06\x02\0\0\0\x06\0\0\0errors\x05\0\0\0\0\x0b\0\0\0outputFiles\x05\x02\0\0\0\x06\x02\0\0\0\x08\0\0\0contents\x04\x05\0\0\0f();\x0a\x04\0\0\0path\x03\x0b\0\0\0/w/out/a.js\x06\x02\0\0\0\x08\0\0\0contents\x04\x03\0\0\0g()\x04\0\0\0path\x03\x0b\0\0\0/w/out/b.js",
        ),
        (
            "messages of entries come first, and hide paths that are shared",
            &[("/w/a.js", b"f()"), ("/w/a.mjs", b"\xff")],
            b"\xd3\0\0\0\0\0\0\0\x06\x08\0\0\0\x0d\0\0\0absWorkingDir\x03\x02\0\0\0/w\x07\0\0\0command\x03\x05\0\0\0build\x07\0\0\0context\x01\0\x07\0\0\0entries\x05\x03\0\0\0\x05\x02\0\0\0\x03\0\0\0\0\x03\x05\0\0\0a.mjs\x05\x02\0\0\0\x03\0\0\0\0\x03\x04\0\0\0a.js\x05\x02\0\0\0\x03\0\0\0\0\x03\x04\0\0\0b.js\x05\0\0\0flags\x05\x01\0\0\0\x03\x0c\0\0\0--outdir=out\x03\0\0\0key\x02\x01\0\0\0\x07\0\0\0plugins\x05\0\0\0\0\x05\0\0\0write\x01\0",
            b"\xf1\0\0\0\x01\0\0\0\x06\x02\0\0\0\x06\0\0\0errors\x05\x02\0\0\0\x06\x05\0\0\0\x06\0\0\0column\x02\0\0\0\0\x04\0\0\0file\x03\0\0\0\0\x06\0\0\0length\x02\0\0\0\0\x04\0\0\0line\x02\0\0\0\0\x04\0\0\0text\x03#\0\0\0Could not resolve \x22b.js\x22: not found\x06\x05\0\0\0\x06\0\0\0column\x02\0\0\0\0\x04\0\0\0file\x03\x05\0\0\0a.mjs\x06\0\0\0length\x02\0\0\0\0\x04\0\0\0line\x02\x01\0\0\0\x04\0\0\0text\x03\x09\0\0\0Not UTF-8\x0b\0\0\0outputFiles\x05\0\0\0\0",
        ),
    ];
    for (name, files, request, reply) in rows {
        let sent = answer(rt.alloc(), files, request)?;
        assert!(rt; sent.as_slice() == reply, "{name}");
    }
    Ok(())
}

/// A file that calls a function with a number in so many parentheses.
fn nested(alloc: Global, parentheses: usize) -> Result<List<u8>, Fail> {
    let mut text = List::of(alloc, b"use(")?;
    for _ in 0..parentheses {
        text.push(b'(')?;
    }
    text.push(b'1')?;
    for _ in 0..parentheses {
        text.push(b')')?;
    }
    text.extend_from_slice(b");")?;
    Ok(text)
}

/// Whether the bytes have these somewhere.
fn has(bytes: &[u8], wanted: &[u8]) -> bool {
    (0..bytes.len()).any(|at| bytes[at..].starts_with(wanted))
}

// Its place is any of the file's, so no reply is compared with it as a whole.
#[test]
fn a_syntax_error(rt: HostRuntime) -> Result<(), Fail> {
    let alloc = rt.alloc();
    let deep = nested(alloc, 300)?;
    let texts: [&[u8]; 3] = [b"a ?? b || c", b"if (", deep.as_slice()];
    let request: &[u8] =
        b"\xac\0\0\0\0\0\0\0\x06\x08\0\0\0\x0d\0\0\0absWorkingDir\x03\x02\0\0\0/w\x07\0\0\0command\x03\x05\0\0\0build\x07\0\0\0context\x01\0\x07\0\0\0entries\x05\x01\0\0\0\x05\x02\0\0\0\x03\0\0\0\0\x03\x04\0\0\0a.js\x05\0\0\0flags\x05\x01\0\0\0\x03\x0c\0\0\0--outdir=out\x03\0\0\0key\x02\x01\0\0\0\x07\0\0\0plugins\x05\0\0\0\0\x05\0\0\0write\x01\0";
    for text in texts {
        let sent = answer(alloc, &[("/w/a.js", text)], request)?;
        assert!(rt; has(sent.as_slice(), b"\x04\0\0\0file\x03\x04\0\0\0a.js"));
        assert!(rt;
            has(
                sent.as_slice(),
                b"\x04\0\0\0text\x03\x0c\0\0\0Syntax error\x0b\0\0\0outputFiles\x05\0\0\0\0"
            )
        );
    }
    Ok(())
}
