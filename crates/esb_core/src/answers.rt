//! The answers that a build keeps.
ghost use Rattle.std.specs.Prelude.{◌≡◌, [], true, false, IfOk, OnOk, OnErr};
ghost use Rattle.esb_ask.specs.Table.{fits, kept, kept_answer};
ghost use Rattle.esb_core.specs.Sizes.{bytes_of, is_overfull};

use esb_ask::{Answer, Question, Table};
use esb_base::Memory;
use std::alloc::Global;
use std::marker::Model;

/// The most answers that a build keeps.
const MOST_ANSWERS: usize = 1_048_576;

/// The most bytes of all files together that it keeps.
const MOST_CONTENTS: usize = 268_435_456;

/// The first answers to the questions of a build, and the bytes that they have of all files.
#[derive(Drop)]
pub(crate) struct Answers {
    table: Table,
    bytes: usize,
}

impl Model for Answers {
    ghost use Rattle.std.specs.Prelude.{List};
    ghost use Rattle.esb_ask.specs.declared.question.Question.{Question};
    ghost use Rattle.esb_ask.specs.declared.answer.Answer.{Answer};
    ghost use Rattle.esb_core.specs.Kept.{AreCounted};

    ghost Value = { List (Question × Answer) };

    ghost view = { λ answers. answers.table };

    ghost invariant = { λ answers. AreCounted answers.table answers.bytes };
}

/// The bytes that an answer has of a file.
fn bytes_of(answer: &Answer) -> usize
    ensures { result ≡ bytes_of answer.now }
{
    match answer {
        Answer::Bytes(contents) => contents.len(),
        _ => 0,
    }
}

impl Answers {
    /// No answers.
    pub(crate) fn new(alloc: Global) -> Answers
        ensures { result ≡ [] }
    {
        Answers {
            table: Table::new(alloc),
            bytes: 0,
        }
    }

    pub(crate) fn table(&self) -> &Table
        ensures { result.now ≡ self.now }
    {
        &self.table
    }

    /// Whether there would be too many answers, or too many bytes of files, with this answer too.
    pub(crate) fn overfill(&self, question: &Question, answer: &Answer) -> bool
        ensures { result ≡ is_overfull (kept self.now question.now answer.now) }
    {
        if self.table.get(question).is_some() {
            return false;
        }
        self.table.len() >= MOST_ANSWERS || bytes_of(answer) > MOST_CONTENTS - self.bytes
    }

    /// Keeps the answer if the question has none yet, and tells the one that is kept.
    pub(crate) fn put(&mut self, question: Question, answer: Answer) -> Result<Answer, Memory>
        requires fitting { fits question answer ≡ true }
        requires room { is_overfull (kept self.old question answer) ≡ false }
        ensures ok { OnOk result (self.new ≡ kept self.old question answer) }
        ensures told { IfOk result (λ told. told ≡ kept_answer self.old question answer) }
        ensures err { OnErr result (self.new ≡ self.old) }
    {
        let more = if self.table.get(&question).is_some() {
            0
        } else {
            bytes_of(&answer)
        };
        let told = self.table.put(question, answer)?;
        self.bytes += more;
        Ok(told)
    }
}
