//! The top call of a session on one thread.
ghost use Rattle.std.specs.Prelude.{◌≡◌, ℕ, ◌<◌, ◌≤◌, ◌^◌, length, [], None, Some, true};
ghost use Rattle.esb_wire.specs.Spelling.{counted};
ghost use Rattle.esb_top.specs.Words.{bad_place, bad_word_line, greeting};
ghost use Rattle.esb_top.specs.Output.{FailedSince, IsPut, Wrote};
ghost use Rattle.esb_top.specs.Session.{IsSession, place_of, status_of};

use crate::history::History;
use crate::output::put;
use crate::session::{Ending, serve};
use crate::words::{BadWord, first_text, read_words};
use esb_base::{Host, List, Memory, Sink, Source, Text};
use esb_core::Journal;
use std::alloc::Global;

/// How a session went.
#[derive(Drop)]
pub struct Session {
    /// 0 where the input ended behind a packet and all that was owed was written; 1 for a bad word, 2 for malformed input, 3 for
    /// a failed read, 4 for a failed write, 5 for want of memory, 6 where too many reads were made.
    pub status: u8,
    /// Where malformed input begins: the number of the bytes of the packets before. It is 0 at any other status than 2.
    pub place: u64,
    /// The events of the session, in order.
    pub journal: Journal,
    /// How many files each worker has parsed. No file is parsed so far.
    pub parses: List<u64>,
}

fn end_with(alloc: Global, status: u8, place: u64, journal: Journal) -> Session
    ensures status { result.status ≡ status }
    ensures place { result.place ≡ place }
    ensures journal { result.journal ≡ journal }
{
    Session {
        status,
        place,
        journal,
        parses: List::new(alloc),
    }
}

fn no_events(alloc: Global) -> Journal
    ensures { result.events ≡ [] }
{
    Journal {
        events: List::new(alloc),
    }
}

fn status_of(ending: Result<Ending, Memory>, whole: bool, refused: bool) -> u8
    ensures { result ≡ status_of ending whole refused }
{
    match ending {
        Err(Memory) => 5,
        Ok(ending) => {
            if !whole {
                return 4;
            }
            match ending {
                Ending::ReadFault => 3,
                Ending::Malformed(_) => 2,
                Ending::Budget => 6,
                Ending::Done => { if refused { 5 } else { 0 } }
            }
        }
    }
}

fn place_of(ending: Result<Ending, Memory>, whole: bool) -> u64
    ensures { result ≡ place_of ending whole }
{
    match ending {
        Ok(Ending::Malformed(place)) if whole => place,
        _ => 0,
    }
}

/// The line that tells a bad word.
fn bad_word_line(place: u32) -> [u8; 16]
    requires { place < 4 }
    ensures { result ≡ bad_word_line place }
{
    match place {
        0 => *b"esb: bad word 0\n",
        1 => *b"esb: bad word 1\n",
        2 => *b"esb: bad word 2\n",
        _ => *b"esb: bad word 3\n",
    }
}

/// Tells a bad word on the sink.
fn put_line<K: Sink>(sink: &mut K, place: u32)
    requires { place < 4 }
    ensures { IsPut K.tells (K.holds sink.old) (K.holds sink.new) (K.faults sink.old) (K.faults sink.new) (bad_word_line place) }
{
    let _ = put(sink, &bad_word_line(place), true);
}

/// Writes the length of a text, and the text. It tells whether no write has failed.
fn greet<K: Sink>(sink: &mut K, text: &[u8]) -> bool
    requires { length text.now ≤ 2 ^ 28 }
    ensures wrote { Wrote K.tells (K.holds sink.old) (K.holds sink.new) (counted text.now) result }
    ensures failed { FailedSince (K.faults sink.old) (K.faults sink.new) result }
    ensures never_falls { K.faults sink.old ≤ K.faults sink.new }
{
    let length = (text.len() as u32).to_le_bytes();
    let whole = put(sink, &length, true);
    put(sink, text, whole)
}

/// Serves a client until its input ends. The text is sent first.
fn converse<S: Source, K: Sink, H: Host>(
    alloc: Global,
    text: &[u8],
    source: &mut S,
    sink: &mut K,
    host: &mut H,
) -> Session
    requires { length text.now ≤ 2 ^ 28 }
    ensures { IsSession H.tells K.tells S.tells (counted text.now)
        (record { world = H.world host.old; host_faults = H.faults host.old; puts = H.put_at host.old; put_faults = H.put_faults host.old; holds = K.holds sink.old; sink_faults = K.faults sink.old; whole = true; unread = S.left source.old; source_faults = S.faults source.old; gave = S.gave source.old })
        (record { world = H.world host.new; host_faults = H.faults host.new; puts = H.put_at host.new; put_faults = H.put_faults host.new; holds = K.holds sink.new; sink_faults = K.faults sink.new; whole = true; unread = S.left source.new; source_faults = S.faults source.new; gave = S.gave source.new })
        result.status result.place result.journal.events }
{
    let Ok(mut history) = History::new(alloc) else {
        return end_with(alloc, 5, 0, no_events(alloc));
    };
    let mut whole = greet(sink, text);
    let ending = serve(alloc, &mut history, source, sink, host, &mut whole);
    history.end_of_input();
    history.is_legal();
    let status = status_of(ending, whole, history.has_refusal());
    let place = place_of(ending, whole);
    end_with(alloc, status, place, history.into_journal())
}

/// Runs the words: `service --serial` serves a client on one thread. The client is sent first the length of a text, and the text:
/// that of the word `--handshake=TEXT`, or else the version text.
///
/// A word that is wrong or missing is told on the sink, and ends the session with status 1.
pub fn run_serial<S: Source, K: Sink, H: Host>(
    alloc: Global,
    words: &[Text],
    source: &mut S,
    sink: &mut K,
    host: &mut H,
) -> Session
    ensures bad_status { (place : ℕ) → bad_place words.now ≡ Some place → result.status ≡ 1 }
    ensures bad_place { (place : ℕ) → bad_place words.now ≡ Some place → result.place ≡ 0 }
    ensures bad_journal { (place : ℕ) → bad_place words.now ≡ Some place → result.journal.events ≡ [] }
    ensures bad_line { (place : ℕ) → bad_place words.now ≡ Some place → IsPut K.tells (K.holds sink.old) (K.holds sink.new) (K.faults sink.old) (K.faults sink.new) (bad_word_line place) }
    ensures bad_rest { (place : ℕ) → bad_place words.now ≡ Some place → (source.new ≡ source.old) × (host.new ≡ host.old) }
    ensures session { bad_place words.now ≡ None → IsSession H.tells K.tells S.tells (greeting words.now)
        (record { world = H.world host.old; host_faults = H.faults host.old; puts = H.put_at host.old; put_faults = H.put_faults host.old; holds = K.holds sink.old; sink_faults = K.faults sink.old; whole = true; unread = S.left source.old; source_faults = S.faults source.old; gave = S.gave source.old })
        (record { world = H.world host.new; host_faults = H.faults host.new; puts = H.put_at host.new; put_faults = H.put_faults host.new; holds = K.holds sink.new; sink_faults = K.faults sink.new; whole = true; unread = S.left source.new; source_faults = S.faults source.new; gave = S.gave source.new })
        result.status result.place result.journal.events }
{
    match read_words(words) {
        Ok(_) => converse(alloc, first_text(words), source, sink, host),
        Err(BadWord { place }) => {
            put_line(sink, place);
            end_with(alloc, 1, 0, no_events(alloc))
        }
    }
}
