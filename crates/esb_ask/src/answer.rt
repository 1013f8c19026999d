ghost use Rattle.std.specs.Prelude.{◌≡◌, IfOk};

use esb_base::{Blob, Memory};

/// What a question got.
#[derive(Drop)]
pub enum Answer {
    File,
    Folder,
    Missing,
    /// The file has more than 16,777,216 bytes.
    TooBig,
    Fault,
    Bytes(Blob),
}

impl Answer {
    /// The same answer once more.
    pub fn share(&self) -> Result<Answer, Memory>
        ensures { IfOk result (λ answer. answer ≡ self.now) }
    {
        match self {
            Answer::File => Ok(Answer::File),
            Answer::Folder => Ok(Answer::Folder),
            Answer::Missing => Ok(Answer::Missing),
            Answer::TooBig => Ok(Answer::TooBig),
            Answer::Fault => Ok(Answer::Fault),
            Answer::Bytes(bytes) => Ok(Answer::Bytes(bytes.share()?)),
        }
    }
}
