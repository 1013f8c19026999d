ghost use Rattle.std.specs.Prelude.{IfOk};
ghost use Rattle.esb_wire.specs.Spelling.{IsPacket};

use super::*;
use esb_ask::{Message, OutFile, Outcome};
use esb_base::{Blob, Flags, List, Shared, Text};
use esb_core::{Body, Out, View};
use esb_flags::Options;
use esb_wire::{Packet, encode};
use std::alloc::Global;
use std::test::Fail;

fn is_frame(alloc: Global, packet: &Packet, frame: &[u8]) -> Result<bool, Fail>
    requires { IsPacket packet.now }
{
    let mut out = List::new(alloc);
    encode(alloc, packet, &mut out)?;
    Ok(out.as_slice() == frame)
}

fn replies_nothing(alloc: Global, frame: &[u8]) -> Result<bool, Fail> {
    let out = Out::Reply {
        id: 3,
        body: Body::Empty,
    };
    let packet = packet_of(alloc, &out, None)?;
    is_frame(alloc, &packet, frame)
}

fn replies_an_error(alloc: Global, text: &str, frame: &[u8]) -> Result<bool, Fail> {
    let out = Out::Reply {
        id: 3,
        body: Body::Error(Text::of(alloc, text)?),
    };
    let packet = packet_of(alloc, &out, None)?;
    is_frame(alloc, &packet, frame)
}

fn flags(alloc: Global) -> Result<Flags, Fail> {
    let empty = Text::of(alloc, "")?;
    Ok(Flags {
        outdir: None,
        outfile: None,
        splitting: false,
        loaders: List::new(alloc),
        externals: List::new(alloc),
        conditions: List::new(alloc),
        entry_names: empty.share()?,
        chunk_names: empty,
    })
}

fn options(alloc: Global, write: bool) -> Result<Shared<Options>, Fail> {
    let options = Options {
        cwd: Text::of(alloc, "/")?,
        entries: List::new(alloc),
        write,
        context: false,
        plugins: List::new(alloc),
        flags: flags(alloc)?,
    };
    Ok(Shared::new(alloc, options)?)
}

/// The reply to request 3, a build that ended so.
fn result_packet(alloc: Global, outcome: Outcome, write: bool) -> Result<Packet, Fail>
    ensures { IfOk result IsPacket }
{
    let view = View {
        key: 1,
        options: options(alloc, write)?,
        outcome: Some(outcome),
        failed: None,
    };
    let out = Out::Reply {
        id: 3,
        body: Body::Result { build: 5 },
    };
    Ok(packet_of(alloc, &out, Some(&view))?)
}

fn shows(alloc: Global, outcome: Outcome, write: bool, frame: &[u8]) -> Result<bool, Fail> {
    let packet = result_packet(alloc, outcome, write)?;
    is_frame(alloc, &packet, frame)
}

fn one_file(alloc: Global) -> Result<Outcome, Fail> {
    let mut files = List::new(alloc);
    files.push(OutFile {
        path: Text::of(alloc, "/o")?,
        contents: Blob::of(alloc, b"x")?,
    })?;
    Ok(Outcome::Files(Shared::new(alloc, files)?))
}

fn one_error(alloc: Global) -> Result<Outcome, Fail> {
    let mut messages = List::new(alloc);
    messages.push(Message {
        text: Text::of(alloc, "t")?,
        file: Text::of(alloc, "f")?,
        line: 2,
        column: 3,
        length: 4,
    })?;
    Ok(Outcome::Errors(Shared::new(alloc, messages)?))
}

#[test]
fn replies_without_a_build(rt: HostRuntime) -> Result<(), Fail> {
    let alloc = rt.alloc();
    assert!(rt; replies_nothing(alloc, b"\x09\0\0\0\x07\0\0\0\x06\0\0\0\0")?);
    assert!(rt;
        replies_an_error(
            alloc,
            "no",
            b"\x19\0\0\0\x07\0\0\0\x06\x01\0\0\0\x05\0\0\0error\x03\x02\0\0\0no"
        )?
    );
    Ok(())
}

#[test]
fn files(rt: HostRuntime) -> Result<(), Fail> {
    let alloc = rt.alloc();
    assert!(rt;
        shows(
            alloc,
            one_file(alloc)?,
            false,
            b"\x52\0\0\0\x07\0\0\0\x06\x02\0\0\0\x06\0\0\0errors\x05\0\0\0\0\x0b\0\0\0outputFiles\x05\x01\0\0\0\x06\x02\0\0\0\x08\0\0\0contents\x04\x01\0\0\0x\x04\0\0\0path\x03\x02\0\0\0/o"
        )?
    );
    assert!(rt;
        shows(
            alloc,
            one_file(alloc)?,
            true,
            b"\x2c\0\0\0\x07\0\0\0\x06\x02\0\0\0\x06\0\0\0errors\x05\0\0\0\0\x0b\0\0\0outputFiles\x05\0\0\0\0"
        )?
    );
    Ok(())
}

#[test]
fn errors(rt: HostRuntime) -> Result<(), Fail> {
    let alloc = rt.alloc();
    assert!(rt;
        shows(
            alloc,
            one_error(alloc)?,
            true,
            b"\x78\0\0\0\x07\0\0\0\x06\x02\0\0\0\x06\0\0\0errors\x05\x01\0\0\0\x06\x05\0\0\0\x06\0\0\0column\x02\x03\0\0\0\x04\0\0\0file\x03\x01\0\0\0f\x06\0\0\0length\x02\x04\0\0\0\x04\0\0\0line\x02\x02\0\0\0\x04\0\0\0text\x03\x01\0\0\0t\x0b\0\0\0outputFiles\x05\0\0\0\0"
        )?
    );
    assert!(rt;
        shows(
            alloc,
            Outcome::Canceled,
            false,
            b"\x8c\0\0\0\x07\0\0\0\x06\x02\0\0\0\x06\0\0\0errors\x05\x01\0\0\0\x06\x05\0\0\0\x06\0\0\0column\x02\0\0\0\0\x04\0\0\0file\x03\0\0\0\0\x06\0\0\0length\x02\0\0\0\0\x04\0\0\0line\x02\0\0\0\0\x04\0\0\0text\x03\x16\0\0\0The build was canceled\x0b\0\0\0outputFiles\x05\0\0\0\0"
        )?
    );
    assert!(rt;
        shows(
            alloc,
            Outcome::Memory,
            false,
            b"\x83\0\0\0\x07\0\0\0\x06\x02\0\0\0\x06\0\0\0errors\x05\x01\0\0\0\x06\x05\0\0\0\x06\0\0\0column\x02\0\0\0\0\x04\0\0\0file\x03\0\0\0\0\x06\0\0\0length\x02\0\0\0\0\x04\0\0\0line\x02\0\0\0\0\x04\0\0\0text\x03\x0d\0\0\0Out of memory\x0b\0\0\0outputFiles\x05\0\0\0\0"
        )?
    );
    Ok(())
}

/// Whether the reply that shows so many files of 2^20 bytes is replaced by an error. They share their contents.
fn is_replaced(alloc: Global, count: usize) -> Result<bool, Fail> {
    let zeros = vec![in alloc; 0u8; 1 << 20]?;
    let contents = Blob::of(alloc, &zeros)?;
    let path = Text::of(alloc, "/o")?;
    let mut files = List::new(alloc);
    for _ in 0..count {
        files.push(OutFile {
            path: path.share()?,
            contents: contents.share()?,
        })?;
    }
    let outcome = Outcome::Files(Shared::new(alloc, files)?);
    let packet = result_packet(alloc, outcome, false)?;
    Ok(packet.value.field("error").is_some())
}

#[test]
fn large_replies_are_replaced(rt: HostRuntime) -> Result<(), Fail> {
    let alloc = rt.alloc();
    assert!(rt; !is_replaced(alloc, 255)?);
    assert!(rt; is_replaced(alloc, 256)?);
    Ok(())
}
