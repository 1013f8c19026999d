//! What is owed, and room for what is promised.
ghost use Rattle.std.specs.Prelude.{◌≡◌, ◌+◌, ◌-◌, ◌<◌, ◌≤◌, ◌++◌, ◌==◌, [], ◌∷◌, length, slice_get, drop, IfOk, OnOk, OnErr};
ghost use Rattle.esb_core.specs.Queue.{Queue};
ghost use Rattle.esb_core.specs.Steps.{results};

use crate::out::{Body, Out};
use esb_base::Memory;
use std::alloc::Global;
use std::collections::VecDeque;
use std::marker::Model;

/// What is owed, in the order in which it came to be owed. What was promised is later owed with no memory.
#[derive(Drop)]
pub(crate) struct Replies {
    owed: VecDeque<Out>,
    promised: usize,
}

impl Model for Replies {
    ghost use Rattle.std.specs.Prelude.{◌+◌, ◌≤◌};
    ghost use Rattle.std.specs.VecDeque.{deque_len, deque_capacity};
    ghost use Rattle.esb_core.specs.Queue.{Queue};

    ghost Value = { Queue };

    ghost view = { λ r. record { owed = r.owed.items; promised = r.promised } };

    ghost invariant = { λ r. deque_len r.owed + r.promised ≤ deque_capacity r.owed };
}

impl Replies {
    /// Nothing is owed yet. There is room for the first reply, which nothing is promised of.
    pub(crate) fn new(alloc: Global) -> Result<Replies, Memory>
        ensures { IfOk result (λ r. r ≡ record { owed = []; promised = 0 }) }
    {
        Ok(Replies {
            owed: VecDeque::with_capacity(alloc, 1)?,
            promised: 0,
        })
    }

    /// Makes room for one more.
    pub(crate) fn promise(&mut self) -> Result<(), Memory>
        ensures ok { OnOk result (self.new ≡ record self.old { promised = self.old.promised + 1 }) }
        ensures err { OnErr result (self.new ≡ self.old) }
    {
        let promised = self.promised.checked_add(1).ok_or(Memory)?;
        self.owed.reserve(promised)?;
        self.promised = promised;
        Ok(())
    }

    /// Owes what was promised.
    pub(crate) fn owe(&mut self, out: Out)
        requires { 0 < self.old.promised }
        ensures { self.new ≡ record { owed = self.old.owed ++ out ∷ []; promised = self.old.promised - 1 } }
    {
        self.owed.push_back_reserved(out);
        self.promised -= 1;
    }

    /// Owes what was promised to the requests that waited for a build: its result, or that it is closed.
    pub(crate) fn owe_results(&mut self, build: u32, waiting: &[(u32, bool)])
        requires { length waiting.now ≤ self.old.promised }
        ensures { self.new ≡ record { owed = self.old.owed ++ results build waiting.now; promised = self.old.promised - length waiting.now } }
    {
        for number in 0..waiting.len() {
            let (id, result_wanted) = waiting[number];
            let body = if result_wanted {
                Body::Result { build }
            } else {
                Body::Closed { build }
            };
            self.owe(Out::Reply { id, body });
        }
    }

    /// Takes the first that is owed.
    pub(crate) fn pop(&mut self) -> Option<Out>
        ensures first { result ≡ slice_get self.old.owed 0 }
        ensures rest { self.new.owed ≡ drop 1 self.old.owed }
        ensures promised { self.new.promised ≡ self.old.promised }
    {
        self.owed.pop_front()
    }

    pub(crate) fn is_empty(&self) -> bool
        ensures { result ≡ length self.now.owed == 0 }
    {
        self.owed.is_empty()
    }
}
