ghost use Rattle.std.specs.Prelude.{◌≡◌, IfOk};

use esb_base::{Memory, Text};

/// What is wrong, and where.
#[derive(Drop)]
pub struct Message {
    pub text: Text,
    /// The file, relative to the working folder. It is empty where the message has no place.
    pub file: Text,
    /// The line, from 1, or 0 without a file.
    pub line: u32,
    /// The bytes before the place in its line.
    pub column: u32,
    /// The bytes of what is wrong.
    pub length: u32,
}

impl Message {
    /// The same message once more.
    pub fn share(&self) -> Result<Message, Memory>
        ensures { IfOk result (λ message. message ≡ self.now) }
    {
        let text = self.text.share()?;
        let file = self.file.share()?;
        Ok(Message {
            text,
            file,
            line: self.line,
            column: self.column,
            length: self.length,
        })
    }
}
