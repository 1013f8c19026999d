ghost use Rattle.std.specs.Prelude.{◌≡◌, [], true, length, IsTrue, ◌↔◌, IfOk, OnOk, OnErr, IfSome};
ghost use Rattle.std.specs.Option.{option_copied};
ghost use Rattle.esb_ask.specs.Table.{answer_to, kept, kept_answer, fits};

use crate::answer::Answer;
use crate::question::Question;
use esb_base::Memory;
use indexmap::IndexMap;
use std::alloc::Global;
use std::marker::Model;

/// The first answers to questions. Contracts see the list of its pairs, in the order in which they were kept.
#[derive(Drop)]
pub struct Table {
    answers: IndexMap<Question, Answer>,
}

impl Model for Table {
    ghost use Rattle.std.specs.Prelude.{◌≡◌, true, List};
    ghost use Rattle.esb_ask.specs.declared.question.Question.{Question};
    ghost use Rattle.esb_ask.specs.declared.answer.Answer.{Answer};

    ghost Value = { List (Question × Answer) };

    ghost use Rattle.esb_ask.specs.Table.{all_fit};

    ghost view = { λ table. table.answers.entries };

    ghost invariant = { λ table. all_fit table.answers.entries ≡ true };
}

impl Table {
    /// A table without answers.
    pub fn new(alloc: Global) -> Table
        ensures { result ≡ [] }
    {
        Table {
            answers: IndexMap::new(alloc),
        }
    }

    pub fn len(&self) -> usize
        ensures { result ≡ length self.now }
    {
        self.answers.len()
    }

    pub fn is_empty(&self) -> bool
        ensures { IsTrue result ↔ (self.now ≡ []) }
    {
        self.answers.is_empty()
    }

    /// The answer that was kept for the question. It takes no memory.
    pub fn get(&self, question: &Question) -> Option<&Answer>
        ensures value { option_copied result ≡ answer_to self.now question.now }
        ensures fitting { IfSome result (λ first. fits question.now first.now ≡ true) }
    {
        self.answers.get(question)
    }

    /// Keeps the answer if the question has none yet, and tells the one that is kept.
    pub fn put(&mut self, question: Question, answer: Answer) -> Result<Answer, Memory>
        requires { fits question answer ≡ true }
        ensures ok { OnOk result (self.new ≡ kept self.old question answer) }
        ensures told { IfOk result (λ told. told ≡ kept_answer self.old question answer) }
        ensures err { OnErr result (self.new ≡ self.old) }
    {
        if let Some(first) = self.answers.get(&question) {
            return first.share();
        }
        let told = answer.share()?;
        self.answers.insert(question, answer)?;
        Ok(told)
    }
}
