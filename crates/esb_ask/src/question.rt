ghost use Rattle.std.specs.Prelude.{◌≡◌, IfOk};
ghost use Rattle.std.specs.Cmp;
ghost use Rattle.esb_ask.specs.Table.{same_question, fits};
ghost use Rattle.esb_ask.specs.SameQuestion.{same_question-equivalence};

use crate::answer::Answer;
use esb_base::{Memory, Text};

/// The most bytes of a file that is read.
const MOST_BYTES: usize = 16_777_216;

/// What the work on a build asks the outside.
#[derive(Drop, Hash)]
pub enum Question {
    /// What lies at the path.
    Kind(Text),
    /// What the file at the path has.
    Read(Text),
}

impl Question {
    /// The same question once more.
    pub fn share(&self) -> Result<Question, Memory>
        ensures { IfOk result (λ question. question ≡ self.now) }
    {
        match self {
            Question::Kind(path) => Ok(Question::Kind(path.share()?)),
            Question::Read(path) => Ok(Question::Read(path.share()?)),
        }
    }

    /// Whether the answer is one that this question can get: for a kind a file, a folder, nothing or a fault, and for contents
    /// at most 16,777,216 bytes, nothing, too many bytes or a fault.
    pub fn fits(&self, answer: &Answer) -> bool
        ensures { result ≡ fits self.now answer.now }
    {
        match self {
            Question::Kind(_) => matches!(
                answer,
                Answer::File | Answer::Folder | Answer::Missing | Answer::Fault
            ),
            Question::Read(_) => match answer {
                Answer::Bytes(contents) => contents.len() <= MOST_BYTES,
                Answer::Missing | Answer::TooBig | Answer::Fault => true,
                Answer::File | Answer::Folder => false,
            },
        }
    }
}

impl PartialEq for Question {
    ghost eq = { same_question };

    ghost laws = { Cmp.partial_equiv_from_equiv same_question-equivalence };

    fn eq(&self, other: &Question) -> bool {
        match (self, other) {
            (Question::Kind(path), Question::Kind(other)) => path == other,
            (Question::Read(path), Question::Read(other)) => path == other,
            _ => false,
        }
    }
}

impl Eq for Question {
    ghost laws = { same_question-equivalence };
}
