ghost use Rattle.std.specs.Prelude.{◌≡◌, IfOk};

use esb_base::{Memory, Text};

/// What is told of one fault of the input. It is empty and 0 where it tells no place.
#[derive(PartialEq, Eq, Drop)]
pub struct Message {
    /// What is wrong.
    pub text: Text,
    /// The file, relative to the working folder, or its namespace and path. Empty for no place.
    pub file: Text,
    /// The line, counted from 1.
    pub line: u32,
    /// How many bytes of the line stand before the place.
    pub column: u32,
    /// How many bytes the message is about.
    pub length: u32,
}

impl Message {
    /// One more holder of the same texts.
    pub fn share(&self) -> Result<Message, Memory>
        ensures { IfOk result (λ message. message ≡ self.now) }
    {
        let text = self.text.share()?;
        let file = self.file.share()?;
        Ok(Message {
            text,
            file,
            line: self.line,
            column: self.column,
            length: self.length,
        })
    }
}
