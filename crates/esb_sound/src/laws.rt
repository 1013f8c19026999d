//! Laws over every list of events. Each function's contract is the law, and its body does nothing.

ghost use Rattle.std.specs.Prelude.{◌≡◌, ◌<◌, ◌^◌, ℕ, List, true, Some, None, IsSome, length, map, slice_get};
ghost use Rattle.esb_base.specs.World.{Folder};
ghost use Rattle.esb_wire.specs.declared.value.Packet.{Packet};
ghost use Rattle.esb_core.specs.declared.event.Event.{Event};
ghost use Rattle.esb_core.specs.declared.event.Job.TheVariants as jobs;
ghost use Rattle.esb_core.specs.declared.event.Role.TheVariants as roles;
ghost use Rattle.esb_core.specs.declared.out.Out.{Out};
ghost use Rattle.esb_core.specs.Allowed.{first_job, job_of};
ghost use Rattle.esb_core.specs.History.{builds, closed, is_legal, outcome, replay};
ghost use Rattle.esb_core.specs.State.{build_at};
ghost use Rattle.esb_scan.specs.Complete.{IsComplete};
ghost use Rattle.esb_ask.specs.declared.outcome.Outcome.{Outcome};
ghost use Rattle.esb_core.specs.Sizes.{too_large};
ghost use Rattle.esb_sound.specs.Each.{Each};
ghost use Rattle.esb_sound.specs.Ends.{EndsRight, IsOvergrown};
ghost use Rattle.esb_sound.specs.Files.{fate};
ghost use Rattle.esb_sound.specs.Likeness.{normal_event};
ghost use Rattle.esb_sound.specs.Serial.{doing, Handles, IsSerial};
ghost use Rattle.esb_sound.specs.Sound.{Sound};
ghost use Rattle.esb_sound.specs.Ready.{IsReady};

/// Where a build's link is open, its answers are complete.
pub fn links_are_ready()
    ensures { (events : List Event) (n : ℕ) → is_legal events ≡ true → Sound events
        → job_of n (build_at (replay events).builds n) ≡ Some (jobs.Link n)
        → IsComplete (build_at (replay events).builds n).options (build_at (replay events).builds n).table }
{}

/// What is owed answers a request's id, and a result is of a build that is settled.
pub fn replies_are_ready()
    ensures { (events : List Event) (out : Out) → is_legal events ≡ true
        → slice_get (replay events).owed 0 ≡ Some out → IsReady (replay events).builds out }
{}

/// A world and the packets of an input have one history on one thread, but for the places of syntax errors. So what is sent is a
/// function of the packets and the folders but for those, and the files are without exception.
pub fn serial_histories_are_one()
    ensures history { (world : List Folder) (packets : List Packet) (one other : List Event) → IsSerial world packets one
        → IsSerial world packets other → map normal_event one ≡ map normal_event other }
    ensures files { (one other : List Event) (path : List ℕ) → map normal_event one ≡ map normal_event other → fate path one ≡ fate path other }
{}

/// With one worker, which takes one job at a time, each build is settled and closed where no job is in hand and none is open.
pub fn builds_are_done()
    ensures settled { (events : List Event) → is_legal events ≡ true → Each Handles events → doing events ≡ None
        → first_job (replay events) (roles.Worker 0) ≡ None → (n : ℕ) → n < length (builds events) → IsSome (outcome events n) }
    ensures closed { (events : List Event) → is_legal events ≡ true → Each Handles events → doing events ≡ None
        → first_job (replay events) (roles.Worker 0) ≡ None → (n : ℕ) → n < length (builds events) → closed events n ≡ true }
{}

/// A build whose work is right ends with the files or the messages of the link of its own answers, or was refused memory, or was
/// canceled, or ends with the one message `Build is too large`: exactly where an answer or a product came to it with which it
/// would be larger than a build may be, while it wasn't settled.
pub fn outcomes_are_right()
    ensures right { (events : List Event) (n : ℕ) (o : Outcome) → is_legal events ≡ true → Sound events → outcome events n ≡ Some o → EndsRight events n o }
    ensures too_large { (events : List Event) (n : ℕ) → IsOvergrown events n → outcome events n ≡ Some too_large }
{}
