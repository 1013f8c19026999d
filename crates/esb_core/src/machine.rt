//! The machine.
ghost use Rattle.std.specs.Prelude.{◌≡◌, true, List, ◌++◌, [], ◌∷◌, IfOk, OnOk, OnErr, IsOk, length, ◌<◌, ◌↔◌, IsTrue};
ghost use Rattle.std.specs.Option.{option_copied};
ghost use Rattle.esb_ask.specs.Table.{answer_to};
ghost use Rattle.esb_core.specs.declared.event.Event.{Event};
ghost use Rattle.esb_core.specs.Allowed.{allowed, is_closing, job_told, takes_none};
ghost use Rattle.esb_core.specs.History.{next, StandsFor};
ghost use Rattle.esb_core.specs.State.{build_at, start};
ghost use Rattle.esb_core.specs.Steps.{after, told_of};

use crate::event::{Claimed, Event, Role, Told};
use crate::tables::Tables;
use crate::view::View;
use esb_ask::{Answer, Question, Table};
use esb_base::Memory;
use esb_wire::Packet;
use std::alloc::Global;
use std::marker::Model;

/// The machine of a session. Contracts see its contexts, which of its builds are active, all its builds, what is owed and
/// whether the input has ended, and the lists of events that it stands for.
#[derive(Drop)]
pub struct Machine {
    tables: Tables,
}

impl Model for Machine {
    ghost use Rattle.esb_core.specs.State.{State};

    ghost Value = { State };

    ghost use Rattle.esb_core.specs.Kept.{state_of, IsKept};

    ghost view = { λ m. state_of m.tables };

    ghost invariant = { λ m. IsKept m.tables };
}

impl Machine {
    /// A machine before any event, with room for its first reply, or `Memory`.
    ///
    /// `serial` says that the session has no threads, and `doors` how many doors serve. They decide which requests are available,
    /// once a session can watch and serve. A build is available in each session, so they have no effect yet.
    pub fn new(alloc: Global, _serial: bool, _doors: u32) -> Result<Machine, Memory>
        ensures state { IfOk result (λ m. m ≡ start) }
        ensures stands { IfOk result (λ m. StandsFor m []) }
    {
        Ok(Machine {
            tables: Tables::new(alloc)?,
        })
    }

    /// Whether an event may come now. It takes no memory.
    pub fn allowed(&self, event: &Event) -> bool
        ensures { result ≡ allowed self.now event.now }
    {
        self.tables.allows(event)
    }

    /// Makes the step of an event. Where memory is refused, the machine is as before.
    pub fn step(&mut self, event: Event) -> Result<Told, Memory>
        requires { allowed self.old event ≡ true }
        ensures told { IfOk result (λ t. t ≡ told_of self.old event) }
        ensures ok { OnOk result (self.new ≡ after self.old event) }
        ensures err { OnErr result (self.new ≡ self.old) }
        ensures no_memory { takes_none event ≡ true → IsOk result }

        // The same of any events that the machine stands for.
        ensures next { IfOk result (λ t. (events : List Event) → StandsFor self.old events → t ≡ next events event) }
        ensures stands { OnOk result ((events : List Event) → StandsFor self.old events → StandsFor self.new (events ++ event ∷ [])) }
    {
        self.tables.step(event)
    }

    /// The step of a packet that arrives, which stays with the caller.
    pub fn arrive(&mut self, packet: &Packet) -> Result<(), Memory>
        requires { allowed self.old (Event.Arrive packet.now) ≡ true }
        ensures ok { OnOk result (self.new ≡ after self.old (Event.Arrive packet.now)) }
        ensures err { OnErr result (self.new ≡ self.old) }
        ensures stands { OnOk result ((events : List Event) → StandsFor self.old events → StandsFor self.new (events ++ Event.Arrive packet.now ∷ [])) }
    {
        self.tables.arrive(packet)
    }

    /// The next work of a role.
    pub fn job(&self, role: Role) -> Result<Claimed, Memory>
        ensures { IfOk result (λ claimed. claimed ≡ job_told self.now role) }
    {
        self.tables.job(role)
    }

    /// Whether the input has ended and each build is closed. It takes no memory.
    pub fn closing(&self) -> bool
        ensures { result ≡ is_closing self.now }
    {
        self.tables.is_closing()
    }

    /// Whether something is owed. It takes no memory.
    pub fn owes(&self) -> bool
        ensures { IsTrue result ↔ (0 < length self.now.owed) }
    {
        !self.tables.replies.is_empty()
    }

    /// The kept answer to a question of a build. It takes no memory.
    pub fn look(&self, build: u32, question: &Question) -> Option<&Answer>
        requires { build < length self.now.builds }
        ensures { option_copied result ≡ answer_to (build_at self.now.builds build).table question.now }
    {
        self.tables.builds[build as usize].table().get(question)
    }

    /// The answers of a build. It takes no memory.
    pub fn table(&self, build: u32) -> &Table
        requires { build < length self.now.builds }
        ensures { result.now ≡ (build_at self.now.builds build).table }
    {
        self.tables.builds[build as usize].table()
    }

    /// What can be seen of a build.
    pub fn view(&self, build: u32) -> Result<View, Memory>
        requires { build < length self.now.builds }
        ensures key { IfOk result (λ view. view.key ≡ (build_at self.now.builds build).key) }
        ensures options { IfOk result (λ view. view.options ≡ (build_at self.now.builds build).options) }
        ensures outcome { IfOk result (λ view. view.outcome ≡ (build_at self.now.builds build).outcome) }
        ensures failed { IfOk result (λ view. view.failed ≡ (build_at self.now.builds build).failed) }
    {
        self.tables.view(build)
    }
}
