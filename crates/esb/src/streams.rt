//! A source over standard input, and a sink over standard output.
ghost use Rattle.std.specs.Prelude.{◌≡◌, []};

use esb_base::{Failed, ReadStep, Sink, Source};
use std::io::{Read, Write};

/// A source over a reader.
#[derive(Drop)]
pub struct ReadSource<R> {
    reader: R,
    faults: u64,
    gave: u64,
}

impl<R: Read> ReadSource<R> {
    pub fn new(reader: R) -> ReadSource<R>
        ensures { (result.faults ≡ 0) × (result.gave ≡ 0) }
    {
        ReadSource {
            reader,
            faults: 0,
            gave: 0,
        }
    }
}

impl<R: Read> Source for ReadSource<R> {
    ghost tells = { ⊥ };

    ghost left = { λ _. [] };

    ghost faults = { λ s. s.faults };

    ghost gave = { λ s. s.gave };

    ghost is_reliable = { λ _. ⊥ };

    fn read(&mut self, buf: &mut [u8]) -> ReadStep {
        match self.reader.read(buf) {
            Ok(0) => ReadStep::End,
            Ok(n) => {
                self.gave = self.gave.saturating_add(1);
                ReadStep::Bytes(n)
            }
            Err(_) => {
                self.faults = self.faults.saturating_add(1);
                ReadStep::Failed
            }
        }
    }
}

/// A sink over a writer.
#[derive(Drop)]
pub struct WriteSink<W> {
    writer: W,
    faults: u64,
}

impl<W: Write> WriteSink<W> {
    pub fn new(writer: W) -> WriteSink<W>
        ensures { result.faults ≡ 0 }
    {
        WriteSink { writer, faults: 0 }
    }
}

impl<W: Write> Sink for WriteSink<W> {
    ghost tells = { ⊥ };

    ghost holds = { λ _. [] };

    ghost faults = { λ s. s.faults };

    ghost can_take = { λ _ _. ⊥ };

    fn write(&mut self, bytes: &[u8]) -> Result<(), Failed> {
        match self.writer.write_all(bytes) {
            Ok(()) => Ok(()),
            Err(_) => {
                self.faults = self.faults.saturating_add(1);
                Err(Failed)
            }
        }
    }
}
