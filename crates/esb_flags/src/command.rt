ghost use Rattle.std.specs.Prelude.{◌≡◌};
ghost use Rattle.esb_flags.specs.declared.command.CommandFault.TheVariants.{Memory as refused};

use crate::options::Options;
use esb_base::{Memory, Text};

/// What a client's request asks for.
#[derive(Drop)]
pub enum Command {
    /// A context is made under the key. Where the options say no context, a build begins at once.
    Build { key: u32, options: Options },
    /// The context with this key is built again.
    Rebuild(u32),
    /// The active build of the context with this key is given up.
    Cancel(u32),
    /// The context with this key is given up.
    Dispose(u32),
    /// The context with this key is built again where its files change.
    Watch(u32),
    /// The files of the context with this key are served at a port. It may be greater than a port of TCP.
    Serve { key: u32, port: u32 },
    /// Nothing. It is answered.
    Ping,
}

/// Why a request is no command.
#[derive(Drop)]
pub enum CommandFault {
    /// The request is refused, with the text of the reply.
    Refused(Text),
    /// Memory was refused.
    Memory,
}

impl From<Memory> for CommandFault {
    ghost from_gives = { λ _ fault. fault ≡ refused };

    fn from(_refused: Memory) -> CommandFault {
        CommandFault::Memory
    }
}
