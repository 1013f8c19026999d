//! A session on one thread.
ghost use Rattle.std.specs.Prelude.{◌≡◌, ℕ, ◌≤◌, ◌++◌, List as Listed, [], None, Some, false, IfOk, IfSome, OnErr};
ghost use Rattle.esb_base.specs.Faults.{Rose};
ghost use Rattle.esb_base.specs.World.{Folder};
ghost use Rattle.esb_core.specs.Allowed.{first_job};
ghost use Rattle.esb_core.specs.History.{replay};
ghost use Rattle.esb_sound.specs.Sound.{Sound};
ghost use Rattle.esb_sound.specs.Sent.{arrivals, sent};
ghost use Rattle.esb_top.specs.Output.{FailedSince, PopsOne, Wrote};
ghost use Rattle.esb_top.specs.Input.{ArrivesOne, EndsBy, HasRead, IsAt, IsRead, arrived_bytes};
ghost use Rattle.esb_top.specs.Puts.{Puts};
ghost use Rattle.esb_top.specs.Serving.{Ends, Refused};
ghost use Rattle.esb_top.specs.Turn.{IsAtRest, IsFree, TurnsOne};
ghost use Rattle.esb_top.specs.Work.{Goes, Worked};

use crate::history::History;
use crate::output::send;
use crate::work::do_job;
use esb_base::{Host, Memory, Sink, Source};
use esb_sound::replies_are_ready;
use esb_wire::{Next, Reader};
use std::alloc::Global;

/// Takes off the first that is owed, and sends it. It tells whether something was owed.
fn send_first<K: Sink>(
    alloc: Global,
    history: &mut History,
    sink: &mut K,
    whole: &mut bool,
) -> Result<bool, Memory>
    requires free { IsFree history.old.events }
    ensures pops { PopsOne history.old.events history.new.events }
    ensures in_turn { (world : Listed Folder) → TurnsOne world history.old.events history.new.events }
    ensures free { IsFree history.new.events }
    ensures none_owed { IfOk result (λ some. some ≡ false → (replay history.new.events).owed ≡ []) }
    ensures room { history.old.promised ≤ history.new.promised }
    ensures wrote { IfOk result (λ some. (before front : Listed ℕ) → Wrote K.tells before (K.holds sink.old) (front ++ sent history.old.events) whole.old
        → Wrote K.tells before (K.holds sink.new) (front ++ sent history.new.events) whole.new) }
    ensures wrote_part { OnErr result ((before front : Listed ℕ) → Wrote K.tells before (K.holds sink.old) (front ++ sent history.old.events) whole.old
        → Wrote K.tells before (K.holds sink.new) (front ++ sent history.new.events) false) }
    ensures failed { (start : ℕ) → start ≤ K.faults sink.old → FailedSince start (K.faults sink.old) whole.old → FailedSince start (K.faults sink.new) whole.new }
    ensures never_falls { K.faults sink.old ≤ K.faults sink.new }
{
    replies_are_ready();
    history.is_legal();
    let Some(out) = history.pop()? else {
        return Ok(false);
    };
    *whole = send(alloc, history, &out, sink, *whole)?;
    Ok(true)
}

/// Does the worker's first open job. It tells whether there was one.
fn work_first<H: Host>(alloc: Global, history: &mut History, host: &mut H) -> Result<bool, Memory>
    requires sound { Sound history.old.events }
    requires free { IsFree history.old.events }
    requires none_owed { (replay history.old.events).owed ≡ [] }
    ensures worked { Worked H.tells (H.world host.old) (H.faults host.old) (H.faults host.new) history.old.events history.new.events }
    ensures room { history.old.promised ≤ history.new.promised }
    ensures world { H.tells → H.world host.new ≡ H.world host.old }
    ensures puts { Puts H.tells (H.put_at host.old) (H.put_at host.new) (H.put_faults host.old) (H.put_faults host.new) history.old.events history.new.events }
    ensures never_falls { H.faults host.old ≤ H.faults host.new }
    ensures free { IsFree history.new.events }
    ensures rests { IfOk result (λ some. some ≡ false → IsAtRest history.new.events) }
{
    let Some(job) = history.job()? else {
        return Ok(false);
    };
    do_job(alloc, history, host, &job)?;
    Ok(true)
}

/// Why no packet is read any more.
#[derive(Clone, Copy, Debug, PartialEq, Eq)]
pub(crate) enum Ending {
    Done,
    /// The number of the bytes before.
    Malformed(u64),
    ReadFault,
    Budget,
}

/// Reads the next packet, which arrives, or tells why there is none.
fn read_next<S: Source>(
    history: &mut History,
    reader: &mut Reader,
    source: &mut S,
) -> Result<Option<Ending>, Memory>
    requires going { reader.old.stopped ≡ None }
    requires open { (replay history.old.events).ended ≡ false }
    requires rests { IsAtRest history.old.events }
    ensures arrives { ArrivesOne history.old.events history.new.events }
    ensures going { IfOk result (λ ending. ending ≡ None → reader.new.stopped ≡ None) }
    ensures room { history.old.promised ≤ history.new.promised }
    ensures never_falls { S.faults source.old ≤ S.faults source.new }
    ensures stream { IfOk result (λ ending. (whole : Listed ℕ) → IsRead S.tells whole history.old.events (reader.old.held ++ S.left source.old)
        → IsRead S.tells whole history.new.events (reader.new.held ++ S.left source.new)) }
    ensures part { OnErr result (history.new.events ≡ history.old.events) }
    ensures in_turn { (world : Listed Folder) → TurnsOne world history.old.events history.new.events }
    ensures free { IsFree history.new.events }
    ensures rests { IfOk result (λ ending. IfSome ending (λ e. IsAtRest history.new.events)) }
    ensures read { HasRead (S.gave source.old) (S.gave source.new) reader.old.reads reader.new.reads }
    ensures placed { IfOk result (λ ending. reader.old.place ≡ arrived_bytes history.old.events → reader.new.place ≡ arrived_bytes history.new.events) }
    ensures at { IfOk result (λ ending. IfSome ending (IsAt reader.new.place)) }
    ensures ends { IfOk result (λ ending. IfSome ending (λ e. EndsBy S.tells (Rose (S.faults source.old) (S.faults source.new)) (reader.new.held ++ S.left source.new) reader.new.held reader.new.reads e)) }
{
    history.is_legal();
    match reader.next_packet(source) {
        Next::Packet(packet) => {
            history.arrive(packet)?;
            Ok(None)
        }
        Next::End => Ok(Some(Ending::Done)),
        Next::Malformed(place) => Ok(Some(Ending::Malformed(place))),
        Next::ReadFault => Ok(Some(Ending::ReadFault)),
        Next::Budget => Ok(Some(Ending::Budget)),
        Next::Memory => Err(Memory),
    }
}

/// One turn of a session: it sends the first that is owed, or else does the first open job, or else reads one packet. It tells
/// the ending where no packet is read any more.
fn turn<S: Source, K: Sink, H: Host>(
    alloc: Global,
    history: &mut History,
    reader: &mut Reader,
    source: &mut S,
    sink: &mut K,
    host: &mut H,
    whole: &mut bool,
) -> Result<Option<Ending>, Memory>
    requires going { reader.old.stopped ≡ None }
    requires unended { (replay history.old.events).ended ≡ false }
    requires sound { Sound history.old.events }
    requires free { IsFree history.old.events }
    ensures goes { Goes H.tells (H.world host.old) (H.faults host.old) (H.faults host.new) history.old.events history.new.events }
    ensures going { IfOk result (λ ending. ending ≡ None → reader.new.stopped ≡ None) }
    ensures room { history.old.promised ≤ history.new.promised }
    ensures world { H.tells → H.world host.new ≡ H.world host.old }
    ensures puts { Puts H.tells (H.put_at host.old) (H.put_at host.new) (H.put_faults host.old) (H.put_faults host.new) history.old.events history.new.events }
    ensures wrote { IfOk result (λ ending. (before front : Listed ℕ) → Wrote K.tells before (K.holds sink.old) (front ++ sent history.old.events) whole.old
        → Wrote K.tells before (K.holds sink.new) (front ++ sent history.new.events) whole.new) }
    ensures wrote_part { OnErr result ((before front : Listed ℕ) → Wrote K.tells before (K.holds sink.old) (front ++ sent history.old.events) whole.old
        → Wrote K.tells before (K.holds sink.new) (front ++ sent history.new.events) false) }
    ensures failed { (start : ℕ) → start ≤ K.faults sink.old → FailedSince start (K.faults sink.old) whole.old → FailedSince start (K.faults sink.new) whole.new }
    ensures sink_never_falls { K.faults sink.old ≤ K.faults sink.new }
    ensures source_never_falls { S.faults source.old ≤ S.faults source.new }
    ensures free { IsFree history.new.events }
    ensures rests { IfOk result (λ ending. IfSome ending (λ e. IsAtRest history.new.events)) }
    ensures read { HasRead (S.gave source.old) (S.gave source.new) reader.old.reads reader.new.reads }
    ensures placed { IfOk result (λ ending. reader.old.place ≡ arrived_bytes history.old.events → reader.new.place ≡ arrived_bytes history.new.events) }
    ensures at { IfOk result (λ ending. IfSome ending (IsAt reader.new.place)) }
    ensures arrived { OnErr result (arrivals history.new.events ≡ arrivals history.old.events) }
    ensures stream { IfOk result (λ ending. (all : Listed ℕ) → IsRead S.tells all history.old.events (reader.old.held ++ S.left source.old)
        → IsRead S.tells all history.new.events (reader.new.held ++ S.left source.new)) }
    ensures ends { IfOk result (λ ending. IfSome ending (λ e. EndsBy S.tells (Rose (S.faults source.old) (S.faults source.new)) (reader.new.held ++ S.left source.new) reader.new.held reader.new.reads e)) }
{
    if send_first(alloc, history, sink, whole)? {
        return Ok(None);
    }
    if work_first(alloc, history, host)? {
        return Ok(None);
    }
    read_next(history, reader, source)
}

/// Takes turns until no packet is read any more, and tells why. It answers `Memory` where memory was refused before a claim.
pub(crate) fn serve<S: Source, K: Sink, H: Host>(
    alloc: Global,
    history: &mut History,
    source: &mut S,
    sink: &mut K,
    host: &mut H,
    whole: &mut bool,
) -> Result<Ending, Memory>
    requires unended { (replay history.old.events).ended ≡ false }
    requires sound { Sound history.old.events }
    requires free { IsFree history.old.events }
    requires fresh { arrived_bytes history.old.events ≡ 0 }
    ensures ok { IfOk result (λ ending. Ends H.tells K.tells S.tells
        (record { world = H.world host.old; host_faults = H.faults host.old; puts = H.put_at host.old; put_faults = H.put_faults host.old; holds = K.holds sink.old; sink_faults = K.faults sink.old; whole = whole.old; unread = S.left source.old; source_faults = S.faults source.old; gave = S.gave source.old })
        (record { world = H.world host.new; host_faults = H.faults host.new; puts = H.put_at host.new; put_faults = H.put_faults host.new; holds = K.holds sink.new; sink_faults = K.faults sink.new; whole = whole.new; unread = S.left source.new; source_faults = S.faults source.new; gave = S.gave source.new })
        history.old history.new ending) }
    ensures err { OnErr result (Refused H.tells K.tells S.tells
        (record { world = H.world host.old; host_faults = H.faults host.old; puts = H.put_at host.old; put_faults = H.put_faults host.old; holds = K.holds sink.old; sink_faults = K.faults sink.old; whole = whole.old; unread = S.left source.old; source_faults = S.faults source.old; gave = S.gave source.old })
        (record { world = H.world host.new; host_faults = H.faults host.new; puts = H.put_at host.new; put_faults = H.put_faults host.new; holds = K.holds sink.new; sink_faults = K.faults sink.new; whole = whole.new; unread = S.left source.new; source_faults = S.faults source.new; gave = S.gave source.new })
        history.old history.new) }
{
    let mut reader = Reader::new(alloc);
    // No session takes so many turns.
    for _ in 0..u64::MAX {
        let ended = turn(alloc, history, &mut reader, source, sink, host, whole)?;
        if let Some(ending) = ended {
            return Ok(ending);
        }
    }
    Err(Memory)
}
