//! The contexts of a session, and their builds that aren't closed.
ghost use Rattle.std.specs.Prelude.{◌≡◌, ◌++◌, ◌-◌, [], ◌∷◌, length, filter, nat_eq, not, take, None, OnOk, OnErr};
ghost use Rattle.std.specs.List.{list_any};
ghost use Rattle.std.specs.Map.{lookup};
ghost use Rattle.std.specs.Option.{option_copied};
ghost use Rattle.esb_core.specs.Known.{Known};
ghost use Rattle.esb_core.specs.Steps.{without};

use esb_base::{Memory, Shared};
use esb_flags::Options;
use indexmap::IndexMap;
use std::alloc::Global;
use std::marker::Model;

/// The options of each context, the number of its active build, by the context's key, and the keys of those that are disposed.
#[derive(Drop)]
pub(crate) struct Contexts {
    options: IndexMap<u32, Shared<Options>>,
    retired: Vec<u32>,
    active: IndexMap<u32, u32>,
}

impl Model for Contexts {
    ghost use Rattle.esb_core.specs.Known.{Known};

    ghost Value = { Known };

    ghost view = { λ c. record { contexts = c.options.entries; retired = c.retired.items; active = c.active.entries } };
}

/// Leaves out a key.
fn forget(keys: &mut Vec<u32>, key: u32)
    ensures { keys.new.items ≡ filter (λ other. not (nat_eq key other)) keys.old.items }
{
    keys.retain(|other| key != *other);
}

impl Contexts {
    pub(crate) fn new(alloc: Global) -> Contexts
        ensures { result ≡ record { contexts = []; retired = []; active = [] } }
    {
        Contexts {
            options: IndexMap::new(alloc),
            retired: Vec::new(alloc),
            active: IndexMap::new(alloc),
        }
    }

    pub(crate) fn len(&self) -> usize
        ensures { result ≡ length self.now.contexts }
    {
        self.options.len()
    }

    /// The options of the context with this key.
    pub(crate) fn options(&self, key: u32) -> Option<&Shared<Options>>
        ensures { option_copied result ≡ lookup (nat_eq key) self.now.contexts }
    {
        self.options.get(&key)
    }

    /// The active build of the context with this key.
    pub(crate) fn active(&self, key: u32) -> Option<u32>
        ensures { result ≡ lookup (nat_eq key) self.now.active }
    {
        self.active.get(&key).copied()
    }

    /// Whether the context is disposed.
    pub(crate) fn is_retired(&self, key: u32) -> bool
        ensures { result ≡ list_any (nat_eq key) self.now.retired }
    {
        self.retired.iter().any(|other| key == *other)
    }

    /// The context is disposed, and not yet removed.
    pub(crate) fn retire(&mut self, key: u32) -> Result<(), Memory>
        ensures ok { OnOk result (self.new ≡ record self.old { retired = self.old.retired ++ key ∷ [] }) }
        ensures err { OnErr result (self.new ≡ self.old) }
    {
        self.retired.push(key)?;
        Ok(())
    }

    /// The context that was disposed last is disposed no more. It takes no memory.
    pub(crate) fn restore(&mut self)
        ensures { self.new ≡ record self.old { retired = take (length self.old.retired - 1) self.old.retired } }
    {
        let _ = self.retired.pop();
    }

    /// Adds a context.
    pub(crate) fn make(&mut self, key: u32, options: Shared<Options>) -> Result<(), Memory>
        requires { lookup (nat_eq key) self.old.contexts ≡ None }
        ensures ok { OnOk result (self.new ≡ record self.old { contexts = self.old.contexts ++ (key, options) ∷ [] }) }
        ensures err { OnErr result (self.new ≡ self.old) }
    {
        self.options.insert(key, options)?;
        Ok(())
    }

    /// Adds the active build of a context.
    pub(crate) fn begin(&mut self, key: u32, build: u32) -> Result<(), Memory>
        requires { lookup (nat_eq key) self.old.active ≡ None }
        ensures ok { OnOk result (self.new ≡ record self.old { active = self.old.active ++ (key, build) ∷ [] }) }
        ensures err { OnErr result (self.new ≡ self.old) }
    {
        self.active.insert(key, build)?;
        Ok(())
    }

    /// Adds a context with its active build.
    pub(crate) fn make_and_begin(
        &mut self,
        key: u32,
        options: Shared<Options>,
        build: u32,
    ) -> Result<(), Memory>
        requires context { lookup (nat_eq key) self.old.contexts ≡ None }
        requires active { lookup (nat_eq key) self.old.active ≡ None }
        ensures ok { OnOk result (self.new ≡ record self.old { contexts = self.old.contexts ++ (key, options) ∷ []; active = self.old.active ++ (key, build) ∷ [] }) }
        ensures err { OnErr result (self.new ≡ self.old) }
    {
        self.active.reserve(1)?;
        self.options.insert(key, options)?;
        let _ = self.active.insert(key, build).unwrap();
        Ok(())
    }

    /// The context has no active build any more. It takes no memory.
    pub(crate) fn close(&mut self, key: u32)
        ensures { self.new ≡ record self.old { active = without key self.old.active } }
    {
        // `len` says that the keys differ, which the proof cites.
        let _ = self.active.len();
        let _ = self.active.shift_remove(&key);
    }

    /// Removes a context. It takes no memory.
    pub(crate) fn remove(&mut self, key: u32)
        ensures { self.new ≡ record self.old { contexts = without key self.old.contexts; retired = filter (λ other. not (nat_eq key other)) self.old.retired } }
    {
        // `len` says that the keys differ, which the proof cites.
        let _ = self.options.len();
        let _ = self.options.shift_remove(&key);
        forget(&mut self.retired, key);
    }
}
