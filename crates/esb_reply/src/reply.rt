ghost use Rattle.std.specs.Prelude.{◌≡◌, ◌<◌, ◌^◌, [], ◌∷◌, IfOk, IfSome, IsSome};
ghost use Rattle.std.specs.Option.{option_copied};
ghost use Rattle.esb_reply.specs.Reply.{placeless, result_value, outcome_value, failed_messages, shown_files, reply_value, reply_packet, sent_packet, packet_for, id_of, write_of, outcome_of, failed_of, BodyHasView, HasView};
ghost use Rattle.esb_wire.specs.Spelling.{IsPacket};
ghost use Rattle.esb_wire.specs.Size.{IsShaped};

use crate::failed::{failed_messages, placeless};
use crate::shown::{error_value, file_values, message_values, result_value};
use esb_ask::{Failures, OutFile, Outcome};
use esb_base::{List, Memory, Text};
use esb_core::{Body, Out, View};
use esb_wire::{Packet, Value};
use std::alloc::Global;

/// The bytes that stand behind the length word of a frame, at most.
const MAX_FRAME: u64 = 1 << 28;

/// A result with one message that has no place, and no file.
fn lone_message(alloc: Global, text: &str) -> Result<Value, Memory>
    ensures value { IfOk result (λ value. value ≡ result_value (placeless text.now ∷ []) []) }
    ensures shaped { IfOk result (IsShaped 4) }
{
    let message = placeless(alloc, text)?;
    let errors = message_values(alloc, &[message])?;
    result_value(alloc, errors, List::new(alloc))
}

/// A result with files, and with what is said of those that were not put.
fn files_value(
    alloc: Global,
    files: &[OutFile],
    failed: Option<&Failures>,
    write: bool,
) -> Result<Value, Memory>
    ensures value { IfOk result (λ value. value ≡ result_value (failed_messages files.now (option_copied failed.entry)) (shown_files write files.now)) }
    ensures shaped { IfOk result (IsShaped 4) }
{
    let messages = failed_messages(alloc, files, failed)?;
    let errors = message_values(alloc, messages.as_slice())?;
    let shown = file_values(alloc, files, write)?;
    result_value(alloc, errors, shown)
}

fn outcome_value(
    alloc: Global,
    outcome: &Outcome,
    failed: Option<&Failures>,
    write: bool,
) -> Result<Value, Memory>
    ensures value { IfOk result (λ value. value ≡ outcome_value write (option_copied failed.entry) outcome.now) }
    ensures shaped { IfOk result (IsShaped 4) }
{
    match outcome {
        Outcome::Files(files) => files_value(alloc, files.get().as_slice(), failed, write),
        Outcome::Errors(messages) => {
            let errors = message_values(alloc, messages.get().as_slice())?;
            result_value(alloc, errors, List::new(alloc))
        }
        Outcome::Canceled => lone_message(alloc, "The build was canceled"),
        Outcome::Memory => lone_message(alloc, "Out of memory"),
    }
}

fn view_value(alloc: Global, view: Option<&View>) -> Result<Value, Memory>
    requires { IsSome (outcome_of (option_copied view)) }
    ensures value { IfOk result (λ value. IfSome (outcome_of (option_copied view.entry)) (λ outcome. value ≡ outcome_value (write_of (option_copied view.entry)) (failed_of (option_copied view.entry)) outcome)) }
    ensures shaped { IfOk result (IsShaped 4) }
{
    match view {
        Some(
            View {
                options,
                outcome: Some(outcome),
                failed,
                ..
            },
        ) => outcome_value(alloc, outcome, failed.as_ref(), options.get().write),
        _ => unreachable!(),
    }
}

fn body_value(alloc: Global, body: &Body, view: Option<&View>) -> Result<Value, Memory>
    requires { BodyHasView body.now (option_copied view) }
    ensures value { IfOk result (λ value. value ≡ reply_value body.now (write_of (option_copied view.entry)) (outcome_of (option_copied view.entry)) (failed_of (option_copied view.entry))) }
    ensures shaped { IfOk result (IsShaped 4) }
{
    match body {
        Body::Empty | Body::Closed { .. } => Ok(Value::Map(List::new(alloc))),
        Body::Error(text) => error_value(alloc, text),
        Body::Result { .. } => view_value(alloc, view),
    }
}

fn response(id: u32, value: Value) -> Packet
    ensures { result ≡ reply_packet id value }
{
    Packet {
        id,
        request: false,
        value,
    }
}

/// The response with this value, or the one that says that it is too large.
fn framed(alloc: Global, id: u32, value: Value) -> Result<Packet, Memory>
    requires id { id < 2 ^ 31 }
    requires shaped { IsShaped 4 value }
    ensures packet { IfOk result (λ packet. packet ≡ sent_packet (reply_packet id value)) }
    ensures spelled { IfOk result IsPacket }
{
    // The word with the id has 4 bytes.
    if value.spelled_length() + 4 <= MAX_FRAME {
        return Ok(response(id, value));
    }
    let text = Text::of(alloc, "Reply is too large")?;
    let value = error_value(alloc, &text)?;
    Ok(response(id, value))
}

/// The packet of what is owed: a response to the request. A reply that no frame holds is replaced by an error with
/// the text `Reply is too large`. Texts and contents are shared with the outcome.
pub fn packet_of(alloc: Global, out: &Out, view: Option<&View>) -> Result<Packet, Memory>
    requires id { id_of out.now < 2 ^ 31 }
    requires view { HasView out.now (option_copied view) }
    ensures packet { IfOk result (λ packet. packet
        ≡ packet_for out.now (write_of (option_copied view.entry)) (outcome_of (option_copied view.entry)) (failed_of (option_copied view.entry))) }
    ensures spelled { IfOk result IsPacket }
{
    let Out::Reply { id, body } = out;
    let value = body_value(alloc, body, view)?;
    framed(alloc, *id, value)
}
