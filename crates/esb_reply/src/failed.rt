//! What is said of files that were not put.
ghost use Rattle.std.specs.Prelude.{◌≡◌, IfOk, map};
ghost use Rattle.std.specs.Option.{option_copied};
ghost use Rattle.esb_reply.specs.Reply.{placeless, fault_message, failure_message, refused_message, failed_messages};

use esb_ask::{Failures, Message, OutFile};
use esb_base::{List, Memory, PutFault, Text};
use std::alloc::Global;

/// A message that has no place.
pub fn placeless(alloc: Global, text: &str) -> Result<Message, Memory>
    ensures { IfOk result (λ message. message ≡ placeless text.now) }
{
    let text = Text::of(alloc, text)?;
    let file = Text::of(alloc, "")?;
    Ok(Message {
        text,
        file,
        line: 0,
        column: 0,
        length: 0,
    })
}

fn failed_message(alloc: Global, path: &Text) -> Result<Message, Memory>
    ensures { IfOk result (λ message. message ≡ fault_message path.now PutFault.Failed) }
{
    let path = path.as_str();
    let text = format!(in alloc; "Failed to write {path}")?;
    placeless(alloc, text.as_str())
}

fn refused_message(alloc: Global, path: &Text) -> Result<Message, Memory>
    ensures { IfOk result (λ message. message ≡ fault_message path.now PutFault.Memory) }
{
    let path = path.as_str();
    let text = format!(in alloc; "No memory to write {path}")?;
    placeless(alloc, text.as_str())
}

fn fault_message(alloc: Global, path: &Text, fault: &PutFault) -> Result<Message, Memory>
    ensures { IfOk result (λ message. message ≡ fault_message path.now fault.now) }
{
    match fault {
        PutFault::Failed => failed_message(alloc, path),
        PutFault::Memory => refused_message(alloc, path),
    }
}

fn of_failures(alloc: Global, failures: &[(Text, PutFault)]) -> Result<List<Message>, Memory>
    ensures { IfOk result (λ messages. messages ≡ map failure_message failures.now) }
{
    let mut messages = Vec::with_capacity(alloc, failures.len())?;
    for failure in failures {
        messages.push(fault_message(alloc, &failure.0, &failure.1)?)?;
    }
    Ok(List::from_vec(messages))
}

fn of_files(alloc: Global, files: &[OutFile]) -> Result<List<Message>, Memory>
    ensures { IfOk result (λ messages. messages ≡ map refused_message files.now) }
{
    let mut messages = Vec::with_capacity(alloc, files.len())?;
    for file in files {
        messages.push(refused_message(alloc, &file.path)?)?;
    }
    Ok(List::from_vec(messages))
}

/// What is said of those of these files that were not put, in their order.
pub fn failed_messages(
    alloc: Global,
    files: &[OutFile],
    failed: Option<&Failures>,
) -> Result<List<Message>, Memory>
    ensures { IfOk result (λ messages. messages ≡ failed_messages files.now (option_copied failed.entry)) }
{
    match failed {
        None => Ok(List::new(alloc)),
        Some(Failures::Paths(paths)) => of_failures(alloc, paths.get().as_slice()),
        Some(Failures::All) => of_files(alloc, files),
    }
}
