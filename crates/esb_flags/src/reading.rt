ghost use Rattle.std.specs.Prelude.{◌≡◌, ◌≤◌, ℕ, List, Ok, Err, IfOk, length};
ghost use Rattle.esb_flags.specs.Answers.{Answers, IsUnfit};
ghost use Rattle.esb_flags.specs.Command.{asked, build_of, build_flags, command_of, is_absolute, most_entries, serve_of};
ghost use Rattle.esb_flags.specs.Fields.{needed, allowed, fields_of};

use crate::command::{Command, CommandFault};
use crate::fields::Fields;
use crate::flags::read_flags;
use crate::options::Options;
use crate::refusal::{refusal_of, refused, refused_for};
use crate::shapes::{Misfit, Shaped, optional, required};
use crate::unbuilt::is_built;
use esb_base::{Flags, List, Text};
use esb_wire::Value;
use std::alloc::Global;

/// The most entries of a build.
const MOST_ENTRIES: usize = 1_024;

fn unfit(alloc: Global, name: &str, misfit: Misfit) -> CommandFault
    ensures { IsUnfit name.now misfit result }
{
    match misfit {
        Misfit::Shape => refused_for(alloc, "Missing field: ", name),
        Misfit::Memory => CommandFault::Memory,
    }
}

fn needed<T: Shaped + Drop>(alloc: Global, request: &Value, name: &str) -> Result<T, CommandFault>
    ensures { Answers result (needed name.now T.shape request.now) }
{
    match required(alloc, request, name) {
        Ok(found) => Ok(found),
        Err(misfit) => Err(unfit(alloc, name, misfit)),
    }
}

/// A field that may be absent, and is `absent` then.
fn allowed<T: Shaped + Drop>(
    alloc: Global,
    request: &Value,
    name: &str,
    absent: T,
) -> Result<T, CommandFault>
    ensures { Answers result (allowed name.now absent T.shape request.now) }
{
    match optional(alloc, request, name, absent) {
        Ok(found) => Ok(found),
        Err(misfit) => Err(unfit(alloc, name, misfit)),
    }
}

#[tactic(auto, unfolding(crate::specs::Fields::fields_of))]
fn fields_of(alloc: Global, request: &Value) -> Result<Fields, CommandFault>
    ensures { Answers result (fields_of request.now) }
{
    let key = needed(alloc, request, "key")?;
    let entries = needed(alloc, request, "entries")?;
    let flags = needed(alloc, request, "flags")?;
    let cwd = needed(alloc, request, "absWorkingDir")?;
    let write = needed(alloc, request, "write")?;
    let context = needed(alloc, request, "context")?;
    let plugins = allowed(alloc, request, "plugins", List::new(alloc))?;
    Ok(Fields {
        key,
        entries,
        flags,
        cwd,
        write,
        context,
        plugins,
    })
}

fn is_absolute(path: &str) -> bool
    ensures { result ≡ is_absolute path.now }
{
    path.as_bytes().starts_with(b"/")
}

/// What the flags of a build ask for. It has at most so many entries as a build may have.
fn build_flags(alloc: Global, fields: &Fields) -> Result<Flags, CommandFault>
    requires { length fields.now.entries ≤ most_entries }
    ensures { Answers result (build_flags fields.now) }
{
    let words = fields.flags.as_slice();
    match read_flags(alloc, words, fields.entries.len() as u32) {
        Ok(flags) => Ok(flags),
        Err(fault) => Err(refusal_of(alloc, fault, words)),
    }
}

#[tactic(auto, unfolding(crate::specs::Command::build_of))]
fn build_of(alloc: Global, request: &Value) -> Result<Command, CommandFault>
    ensures { Answers result (build_of request.now) }
{
    let fields = fields_of(alloc, request)?;
    if !is_built(alloc, &fields)? {
        return Err(refused(alloc, "Not built yet"));
    }
    if !is_absolute(fields.cwd.as_str()) {
        return Err(refused(alloc, "Bad working folder"));
    }
    if fields.entries.len() > MOST_ENTRIES {
        return Err(refused(alloc, "Too many entries"));
    }
    let flags = build_flags(alloc, &fields)?;
    Ok(Command::Build {
        key: fields.key,
        options: Options {
            cwd: fields.cwd,
            entries: fields.entries,
            write: fields.write,
            context: fields.context,
            plugins: fields.plugins,
            flags,
        },
    })
}

#[tactic(auto, unfolding(crate::specs::Command::serve_of))]
fn serve_of(alloc: Global, request: &Value) -> Result<Command, CommandFault>
    ensures { Answers result (serve_of request.now) }
{
    let key = needed(alloc, request, "key")?;
    let port = needed(alloc, request, "port")?;
    Ok(Command::Serve { key, port })
}

#[tactic(auto, unfolding(crate::specs::Command::command_of))]
fn command_of(alloc: Global, name: &str, request: &Value) -> Result<Command, CommandFault>
    ensures { Answers result (command_of name.now request.now) }
{
    match name {
        "build" => build_of(alloc, request),
        "rebuild" => Ok(Command::Rebuild(needed(alloc, request, "key")?)),
        "cancel" => Ok(Command::Cancel(needed(alloc, request, "key")?)),
        "dispose" => Ok(Command::Dispose(needed(alloc, request, "key")?)),
        "watch" => Ok(Command::Watch(needed(alloc, request, "key")?)),
        "serve" => serve_of(alloc, request),
        "ping" => Ok(Command::Ping),
        _ => Err(refused_for(alloc, "Unknown command: ", name)),
    }
}

#[tactic(auto, unfolding(crate::specs::Command::asked))]
fn answer_of(alloc: Global, request: &Value) -> Result<Command, CommandFault>
    ensures { Answers result (asked request.now) }
{
    let Value::Map(_) = request else {
        return Err(refused(alloc, "Request is not a map"));
    };
    let name: Text = needed(alloc, request, "command")?;
    command_of(alloc, name.as_str(), request)
}

/// What the value of a client's request asks for.
///
/// `Refused` has the text of the first refusal. Keys that no rule names are ignored.
pub fn read_command(alloc: Global, value: &Value) -> Result<Command, CommandFault>
    ensures command { IfOk result (λ command. asked value.now ≡ Ok command) }
    ensures refused { (text : List ℕ) → result ≡ Err (CommandFault.Refused text) → asked value.now ≡ Err text }
{
    answer_of(alloc, value)
}
