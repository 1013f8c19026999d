//! Laws of replies. Each function's contract is the law, and its body does nothing.

ghost use Rattle.std.specs.Prelude.{◌≡◌, ◌≤◌, ℕ, Bool, true, List, Option, length};
ghost use Rattle.esb_ask.specs.declared.outcome.Failures.{Failures};
ghost use Rattle.esb_ask.specs.declared.outcome.Outcome.{Outcome};
ghost use Rattle.esb_core.specs.declared.out.Body.TheVariants as bodies;
ghost use Rattle.esb_core.specs.declared.out.Out.TheVariants as outs;
ghost use Rattle.esb_reply.specs.Reply.{error_value, reply_packet, fits_frame, too_large, packet_for};

/// What is sent in place of a reply that is too large has a frame itself.
pub fn replacement_fits()
    ensures { (id : ℕ) → fits_frame (too_large id) ≡ true }
{}

/// An error whose text has at most 1,000 bytes is sent as it is.
pub fn short_errors_are_sent()
    ensures { (id : ℕ) (text : List ℕ) (write : Bool) (outcome : Option Outcome) (failed : Option Failures) → length text ≤ 1000
        → packet_for (outs.Reply id (bodies.Error text)) write outcome failed ≡ reply_packet id (error_value text) }
{}
