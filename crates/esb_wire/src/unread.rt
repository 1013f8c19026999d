ghost use Rattle.std.specs.Prelude.{◌≡◌, [], ◌+◌, ◌*◌, ◌<◌, ◌≤◌, ◌++◌, ◌↔◌, length, drop, vec_len, vec_capacity, IfOk, OnOk, OnErr, IsTrue};
ghost use Rattle.esb_base.specs.Faults.{Rose};
ghost use Rattle.esb_base.specs.Source.{gave_after};
ghost use Rattle.esb_wire.specs.Unread.{GrowsBy, Grows, gave_by};

use esb_base::{Memory, ReadStep, Source};
use std::alloc::Global;
use std::marker::Model;

/// The most bytes of one read.
pub(crate) const CHUNK: usize = 65_536;

/// Bytes that were read and not handed out. Contracts see these bytes.
///
/// A byte is moved at most once after it was read, but for growth by doubling: bytes are moved to the front only
/// before a read, and then they belong to one frame that is not whole.
#[derive(Drop)]
pub(crate) struct Unread {
    alloc: Global,
    /// The bytes that were handed out since the last move, and behind them the unread ones.
    bytes: Vec<u8>,
    start: usize,
    /// What a read writes to. It is made at the first read.
    chunk: Vec<u8>,
}

/// Drops the first bytes.
fn drop_front(bytes: &mut Vec<u8>, count: usize)
    requires { count ≤ vec_len bytes.old }
    ensures { bytes.new.items ≡ drop count bytes.old.items }
{
    if count == 0 {
        return;
    }
    let rest = bytes.len() - count;
    bytes.copy_within(count.., 0);
    bytes.truncate(rest);
}

/// Makes room for one read: at least as much as is held, so that the room doubles.
fn make_room(bytes: &mut Vec<u8>) -> Result<(), Memory>
    ensures items { bytes.new.items ≡ bytes.old.items }
    ensures ok { OnOk result (vec_len bytes.new + CHUNK ≤ vec_capacity bytes.new) }
{
    let len = bytes.len();
    if bytes.capacity() - len < CHUNK {
        bytes.reserve_exact(len.max(CHUNK))?;
    }
    Ok(())
}

/// Makes what a read writes to, once.
fn make_chunk(alloc: Global, chunk: &mut Vec<u8>) -> Result<(), Memory>
    requires { vec_len chunk.old ≤ CHUNK }
    ensures ok { OnOk result (0 < vec_len chunk.new) }
    ensures most { vec_len chunk.new ≤ CHUNK }
{
    if chunk.is_empty() {
        *chunk = vec![in alloc; 0; CHUNK]?;
    }
    Ok(())
}

/// Reads once, and puts what was read behind the bytes.
fn read_chunk<S: Source>(bytes: &mut Vec<u8>, chunk: &mut Vec<u8>, source: &mut S) -> ReadStep
    requires some { 0 < vec_len chunk.old }
    requires most { vec_len chunk.old ≤ CHUNK }
    requires room { vec_len bytes.old + CHUNK ≤ vec_capacity bytes.old }
    ensures told { S.tells → bytes.new.items ++ S.left source.new ≡ bytes.old.items ++ S.left source.old }
    ensures ended { S.tells → result ≡ ReadStep.End → S.left source.new ≡ [] }
    ensures grows { GrowsBy bytes.old.items bytes.new.items result }
    ensures most { vec_len chunk.new ≤ CHUNK }
    ensures counted { S.gave source.new ≡ gave_after (S.gave source.old) result }
    ensures never_falls { S.faults source.old ≤ S.faults source.new }
    ensures failed { result ≡ ReadStep.Failed → Rose (S.faults source.old) (S.faults source.new) }
    ensures reliable { S.is_reliable source.old → S.is_reliable source.new × (S.faults source.new ≡ S.faults source.old) }
{
    match source.read(chunk) {
        ReadStep::Bytes(count) => {
            bytes.extend_from_slice(&chunk[..count]).unwrap();
            ReadStep::Bytes(count)
        }
        ReadStep::End => ReadStep::End,
        ReadStep::Failed => ReadStep::Failed,
    }
}

impl Model for Unread {
    ghost use Rattle.std.specs.Prelude.{ℕ, List, ◌≤◌, drop, vec_len};

    ghost Value = { List ℕ };

    ghost view = { λ u. drop u.start u.bytes.items };

    ghost invariant = { λ u. (u.start ≤ vec_len u.bytes) × (vec_len u.chunk ≤ 65536) };
}

impl Unread {
    pub(crate) fn new(alloc: Global) -> Unread
        ensures { result ≡ [] }
    {
        Unread {
            alloc,
            bytes: Vec::new(alloc),
            start: 0,
            chunk: Vec::new(alloc),
        }
    }

    pub(crate) fn as_slice(&self) -> &[u8]
        ensures { result.now ≡ self.now }
    {
        &self.bytes.as_slice()[self.start..]
    }

    pub(crate) fn is_empty(&self) -> bool
        ensures { IsTrue result ↔ (self.now ≡ []) }
    {
        self.as_slice().is_empty()
    }

    /// Hands out the first bytes.
    pub(crate) fn take_front(&mut self, count: usize)
        requires { count ≤ length self.old }
        ensures { self.new ≡ drop count self.old }
    {
        self.start += count;
    }

    /// Reads once, behind what is unread. Where memory is refused nothing is read.
    pub(crate) fn read_from<S: Source>(&mut self, source: &mut S) -> Result<ReadStep, Memory>
        ensures told { S.tells → self.new ++ S.left source.new ≡ self.old ++ S.left source.old }
        ensures ended { S.tells → result ≡ Ok ReadStep.End → S.left source.new ≡ [] }
        ensures grows { Grows self.old self.new result }
        ensures counted { S.gave source.new ≡ gave_by (S.gave source.old) result }
        ensures never_falls { S.faults source.old ≤ S.faults source.new }
        ensures failed { result ≡ Ok ReadStep.Failed → Rose (S.faults source.old) (S.faults source.new) }
        ensures reliable { S.is_reliable source.old → S.is_reliable source.new × (S.faults source.new ≡ S.faults source.old) }
    {
        drop_front(&mut self.bytes, self.start);
        self.start = 0;
        make_room(&mut self.bytes)?;
        make_chunk(self.alloc, &mut self.chunk)?;
        Ok(read_chunk(&mut self.bytes, &mut self.chunk, source))
    }
}
