ghost use Rattle.std.specs.Prelude.{◌≡◌, IfOk};

use crate::message::Message;
use esb_base::{Blob, List, Memory, PutFault, Shared, Text};

/// A file that a build makes.
#[derive(Drop)]
pub struct OutFile {
    /// A clean absolute path.
    pub path: Text,
    pub contents: Blob,
}

/// How a build ended.
#[derive(Drop)]
pub enum Outcome {
    /// With files, in the order of their paths.
    Files(Shared<List<OutFile>>),
    /// With what is wrong. The list is never empty.
    Errors(Shared<List<Message>>),
    /// A cancel or a dispose met the build before it was settled.
    Canceled,
    /// Memory was refused.
    Memory,
}

impl Outcome {
    /// The same outcome once more.
    pub fn share(&self) -> Result<Outcome, Memory>
        ensures { IfOk result (λ outcome. outcome ≡ self.now) }
    {
        match self {
            Outcome::Files(files) => Ok(Outcome::Files(files.share()?)),
            Outcome::Errors(messages) => Ok(Outcome::Errors(messages.share()?)),
            Outcome::Canceled => Ok(Outcome::Canceled),
            Outcome::Memory => Ok(Outcome::Memory),
        }
    }
}

/// Which files of a build were not put.
#[derive(Drop)]
pub enum Failures {
    /// The path and the fault of each, in the order of their paths.
    Paths(Shared<List<(Text, PutFault)>>),
    /// Memory was refused for the list, and each file counts as refused memory.
    All,
}

impl Failures {
    /// The same once more.
    pub fn share(&self) -> Result<Failures, Memory>
        ensures { IfOk result (λ failures. failures ≡ self.now) }
    {
        match self {
            Failures::Paths(paths) => Ok(Failures::Paths(paths.share()?)),
            Failures::All => Ok(Failures::All),
        }
    }
}
