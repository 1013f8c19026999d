//! What is sent.
ghost use Rattle.std.specs.Prelude.{◌≡◌, ℕ, ◌≤◌, ◌++◌, false, List as Listed, IfOk, OnErr};
ghost use Rattle.esb_wire.specs.Spelling.{IsPacket};
ghost use Rattle.esb_wire.specs.Written.{written_frame};
ghost use Rattle.esb_core.specs.History.{replay};
ghost use Rattle.esb_sound.specs.Ready.{IsReady};
ghost use Rattle.esb_top.specs.Output.{FailedSince, Wrote, packet_in};

use crate::history::History;
use esb_base::{List, Memory, Sink};
use esb_core::{Body, Out};
use esb_reply::packet_of;
use esb_wire::{Packet, encode};
use std::alloc::Global;

/// Writes the bytes, unless a write failed before. It tells whether no write has failed.
pub(crate) fn put<K: Sink>(sink: &mut K, bytes: &[u8], whole: bool) -> bool
    ensures wrote { (before so_far : Listed ℕ) → Wrote K.tells before (K.holds sink.old) so_far whole → Wrote K.tells before (K.holds sink.new) (so_far ++ bytes.now) result }
    ensures failed { (start : ℕ) → start ≤ K.faults sink.old → FailedSince start (K.faults sink.old) whole → FailedSince start (K.faults sink.new) result }
    ensures never_falls { K.faults sink.old ≤ K.faults sink.new }
{
    whole && sink.write(bytes).is_ok()
}

/// The packet of what is owed.
fn packet_for(alloc: Global, history: &History, out: &Out) -> Result<Packet, Memory>
    requires { IsReady (replay history.now.events).builds out.now }
    ensures packet { IfOk result (λ packet. packet ≡ packet_in (replay history.now.events).builds out.now) }
    ensures spelled { IfOk result IsPacket }
{
    let Out::Reply { id: _, body } = out;
    match body {
        Body::Result { build } => {
            let view = history.view(*build)?;
            packet_of(alloc, out, Some(&view))
        }
        Body::Empty => packet_of(alloc, out, None),
        Body::Error(_) => packet_of(alloc, out, None),
        Body::Closed { build: _ } => packet_of(alloc, out, None),
    }
}

/// Sends what is owed, unless a write failed before. It tells whether no write has failed.
pub(crate) fn send<K: Sink>(
    alloc: Global,
    history: &History,
    out: &Out,
    sink: &mut K,
    whole: bool,
) -> Result<bool, Memory>
    requires { IsReady (replay history.now.events).builds out.now }
    ensures wrote { IfOk result (λ now. (before so_far : Listed ℕ) → Wrote K.tells before (K.holds sink.old) so_far whole
        → Wrote K.tells before (K.holds sink.new) (so_far ++ written_frame (packet_in (replay history.now.events).builds out.now)) now) }
    ensures err { OnErr result (sink.new ≡ sink.old) }
    ensures failed { IfOk result (λ now. (start : ℕ) → start ≤ K.faults sink.old → FailedSince start (K.faults sink.old) whole → FailedSince start (K.faults sink.new) now) }
    ensures never_falls { K.faults sink.old ≤ K.faults sink.new }
{
    let packet = packet_for(alloc, history, out)?;
    let mut bytes = List::new(alloc);
    encode(alloc, &packet, &mut bytes)?;
    Ok(put(sink, bytes.as_slice(), whole))
}
