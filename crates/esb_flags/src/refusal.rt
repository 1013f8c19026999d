//! Refusals and their texts.

ghost use Rattle.std.specs.Prelude.{◌≡◌, ◌++◌, IfOk};
ghost use Rattle.esb_flags.specs.Answers.{IsRefusal, IsFlagRefusal};
ghost use Rattle.esb_flags.specs.Flags.{word_at};

use crate::command::CommandFault;
use crate::fault::FlagFault;
use esb_base::{Memory, Text};
use std::alloc::Global;

/// The refusal with this text.
pub(crate) fn refused(alloc: Global, text: &str) -> CommandFault
    ensures { IsRefusal text.now result }
{
    match Text::of(alloc, text) {
        Ok(text) => CommandFault::Refused(text),
        Err(Memory) => CommandFault::Memory,
    }
}

fn joined(alloc: Global, reason: &str, subject: &str) -> Result<Text, Memory>
    ensures { IfOk result (λ text. text ≡ reason.now ++ subject.now) }
{
    let mut text = String::from_str(alloc, reason)?;
    text.push_str(subject)?;
    Text::of(alloc, text.as_str())
}

/// The refusal with the reason and what it is about.
pub(crate) fn refused_for(alloc: Global, reason: &str, subject: &str) -> CommandFault
    ensures { IsRefusal (reason.now ++ subject.now) result }
{
    match joined(alloc, reason, subject) {
        Ok(text) => CommandFault::Refused(text),
        Err(Memory) => CommandFault::Memory,
    }
}

fn word_at(words: &[Text], place: u32) -> &str
    ensures { result.now ≡ word_at words.now place }
{
    match words.get(place as usize) {
        Some(word) => word.as_str(),
        None => "",
    }
}

/// The refusal of a build whose flags have this fault. Its text names the word at the fault's place.
pub fn refusal_of(alloc: Global, fault: FlagFault, flags: &[Text]) -> CommandFault
    ensures { IsFlagRefusal flags.now fault result }
{
    match fault {
        FlagFault::BadFlag(place) => refused_for(alloc, "Bad flag: ", word_at(flags, place)),
        FlagFault::Repeated(place) => refused_for(alloc, "Repeated flag: ", word_at(flags, place)),
        FlagFault::NeedsOutdir => refused(alloc, "Must use outdir"),
        FlagFault::SplittingNeedsEsm => refused(alloc, "Splitting needs esm"),
        FlagFault::Memory => CommandFault::Memory,
    }
}
