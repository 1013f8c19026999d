//! The commands of a client.
ghost use Rattle.std.specs.Prelude.{◌≡◌, ◌++◌, [], ◌∷◌, ◌+◌, ◌<◌, ◌≤◌, ◌^◌, ℕ, true, false, length, None, Some, is_none, is_some, nat_eq, nat_le, IsSome, IfOk, OnOk, OnErr};
ghost use Rattle.std.specs.Map.{lookup};
ghost use Rattle.std.specs.Option.{option_copied};
ghost use Rattle.esb_flags.specs.declared.options.Options.{Options};
ghost use Rattle.std.specs.Vec.{vec_capacity};
ghost use Rattle.esb_core.specs.Kept.{loads, state_of, IsKept};
ghost use Rattle.esb_core.specs.Moves.{begun, canceled, commanded, disposed, done, effect, join, key_of, make, most_builds, options_of, owe, refusal, unknown};
ghost use Rattle.esb_core.specs.State.{build_at};
ghost use Rattle.esb_core.specs.Steps.{active_of, all_moved, fresh, joined, met, moved};
ghost use Rattle.esb_core.specs.declared.out.Out.TheVariants as outs;
ghost use Rattle.esb_core.specs.declared.out.Body.TheVariants as bodies;

use crate::build::Build;
use crate::out::{Body, Out};
use crate::tables::{MOST_BUILDS, MOST_CONTEXTS, MOST_WAITING, Tables};
use esb_ask::Outcome;
use esb_base::{Memory, Shared, Text};
use esb_flags::{Command, Options};

/// Why a request is refused that names no context.
const UNKNOWN: &str = "Unknown key";

/// Why no more requests can wait for a build.
const CROWDED: &str = "Too many waiters";

impl Tables {
    /// Whether no build can begin any more.
    fn is_full(&self) -> bool
        ensures { result ≡ nat_le most_builds (length self.now.builds.items) }
    {
        self.builds.len() >= MOST_BUILDS
    }

    /// How many requests wait for the active build of a context.
    fn waiting(&self, key: u32) -> usize
        requires { IsKept self.now }
        ensures { result ≡ (met (state_of self.now) key).waiting }
    {
        match self.contexts.active(key) {
            None => 0,
            Some(build) => self.builds[build as usize].waiting().len(),
        }
    }

    fn refuse_build(&self, key: u32, context: bool) -> Option<&'static str>
        requires { IsKept self.now }
        ensures { (options : Options) → options.context ≡ context → option_copied result ≡ refusal (met (state_of self.now) key) (Command.Build key options) }
    {
        if self.contexts.options(key).is_some() {
            Some("Key in use")
        } else if self.contexts.len() >= MOST_CONTEXTS {
            Some("Too many contexts")
        } else if !context && self.is_full() {
            Some("Too many builds")
        } else {
            None
        }
    }

    fn refuse_rebuild(&self, key: u32) -> Option<&'static str>
        requires { IsKept self.now }
        ensures { option_copied result ≡ refusal (met (state_of self.now) key) (Command.Rebuild key) }
    {
        if self.is_unknown(key) {
            Some(UNKNOWN)
        } else if self.waiting(key) >= MOST_WAITING {
            Some(CROWDED)
        } else if self.contexts.active(key).is_none() && self.is_full() {
            Some("Too many builds")
        } else {
            None
        }
    }

    /// Whether the active build of a context is settled: a cancel or a dispose waits for its close.
    fn is_settled(&self, key: u32) -> bool
        requires { IsKept self.now }
        ensures { result ≡ (met (state_of self.now) key).settled }
    {
        match self.contexts.active(key) {
            None => false,
            Some(build) => self.builds[build as usize].is_settled(),
        }
    }

    /// Whether there is no context with this key, or a disposed one.
    fn is_unknown(&self, key: u32) -> bool
        ensures { result ≡ (unknown (met (state_of self.now) key)).0 }
    {
        self.contexts.options(key).is_none() || self.contexts.is_retired(key)
    }

    fn refuse_stop(&self, key: u32) -> Option<&'static str>
        requires { IsKept self.now }
        ensures { option_copied result ≡ refusal (met (state_of self.now) key) (Command.Cancel key) }
    {
        if self.is_unknown(key) {
            Some(UNKNOWN)
        } else if self.is_settled(key) && self.waiting(key) >= MOST_WAITING {
            Some(CROWDED)
        } else {
            None
        }
    }

    /// Watching and serving need a context that stays. Neither is available so far.
    fn refuse_service(&self, key: u32) -> Option<&'static str>
        ensures { option_copied result ≡ refusal (met (state_of self.now) key) (Command.Watch key) }
    {
        if self.contexts.is_retired(key) {
            return Some(UNKNOWN);
        }
        match self.contexts.options(key) {
            None => Some(UNKNOWN),
            Some(options) if !options.get().context => Some("Not a context"),
            Some(_) => Some("Not available"),
        }
    }

    /// Why a command is refused, if it is. It takes no memory.
    fn refuse(&self, command: &Command) -> Option<&'static str>
        requires { IsKept self.now }
        ensures { option_copied result ≡ refusal (met (state_of self.now) (key_of command.now)) command.now }
    {
        match command {
            Command::Build { key, options } => self.refuse_build(*key, options.context),
            Command::Rebuild(key) => self.refuse_rebuild(*key),
            Command::Cancel(key) => self.refuse_stop(*key),
            Command::Dispose(key) => self.refuse_stop(*key),
            Command::Watch(key) => self.refuse_service(*key),
            Command::Serve { key, port: _ } => self.refuse_service(*key),
            Command::Ping => None,
        }
    }

    /// One more reply is owed.
    pub(crate) fn reply(&mut self, id: u32, body: Body) -> Result<(), Memory>
        requires { IsKept self.old }
        ensures ok { OnOk result (state_of self.new ≡ moved (state_of self.old) (owe (outs.Reply id body))) }
        ensures err { OnErr result (state_of self.new ≡ state_of self.old) }
        ensures kept { IsKept self.new }
    {
        self.replies.promise()?;
        self.replies.owe(Out::Reply { id, body });
        Ok(())
    }

    /// A context is made.
    fn make(&mut self, id: u32, key: u32, options: Options) -> Result<(), Memory>
        requires kept { IsKept self.old }
        requires new { lookup (nat_eq key) self.old.contexts.contexts ≡ None }
        ensures ok { OnOk result (state_of self.new ≡ all_moved (state_of self.old) (make key options ∷ done id)) }
        ensures err { OnErr result (state_of self.new ≡ state_of self.old) }
        ensures kept { IsKept self.new }
    {
        let options = Shared::new(self.alloc, options)?;
        self.replies.promise()?;
        self.contexts.make(key, options)?;
        self.replies.owe(Out::Reply {
            id,
            body: Body::Empty,
        });
        Ok(())
    }

    /// A build for which one request waits, with room for it and for its reply.
    fn build(&mut self, id: u32, key: u32, options: Shared<Options>) -> Result<Build, Memory>
        requires kept { IsKept self.old }
        ensures build { IfOk result (λ build. build ≡ joined (fresh key options) id true) }
        ensures same { state_of self.new ≡ state_of self.old }
        ensures kept { IsKept self.new }
        ensures room { OnOk result (length self.new.builds.items + 1 ≤ vec_capacity self.new.builds) }
        ensures promised { OnOk result (loads self.new.builds.items + 1 ≤ self.new.replies.promised) }
    {
        let mut build = Build::new(self.alloc, key, options)?;
        build.join(id, true)?;
        self.builds.reserve(1)?;
        self.replies.promise()?;
        Ok(build)
    }

    /// The number of the build that would begin next.
    fn next_build(&self) -> u32
        requires { length self.now.builds.items < most_builds }
        ensures { result ≡ length self.now.builds.items }
    {
        self.builds.len() as u32
    }

    /// A context is made, and its one build begins.
    fn make_and_begin(&mut self, id: u32, key: u32, options: Options) -> Result<(), Memory>
        requires kept { IsKept self.old }
        requires new { lookup (nat_eq key) self.old.contexts.contexts ≡ None }
        requires idle { active_of (state_of self.old) key ≡ None }
        requires room { length self.old.builds.items < most_builds }
        ensures ok { OnOk result (state_of self.new ≡ all_moved (state_of self.old) (make key options ∷ begun (met (state_of self.old) key) id key options)) }
        ensures err { OnErr result (state_of self.new ≡ state_of self.old) }
        ensures kept { IsKept self.new }
    {
        let options = Shared::new(self.alloc, options)?;
        let build = self.build(id, key, options.share()?)?;
        let number = self.next_build();
        self.contexts.make_and_begin(key, options, number)?;
        self.builds.push_reserved(build);
        Ok(())
    }

    /// A build begins in a context that has none.
    fn begin(&mut self, id: u32, key: u32, options: Shared<Options>) -> Result<(), Memory>
        requires kept { IsKept self.old }
        requires inside { IsSome (lookup (nat_eq key) self.old.contexts.contexts) }
        requires idle { active_of (state_of self.old) key ≡ None }
        requires room { length self.old.builds.items < most_builds }
        ensures ok { OnOk result (state_of self.new ≡ all_moved (state_of self.old) (begun (met (state_of self.old) key) id key options)) }
        ensures err { OnErr result (state_of self.new ≡ state_of self.old) }
        ensures kept { IsKept self.new }
    {
        let build = self.build(id, key, options)?;
        let number = self.next_build();
        self.contexts.begin(key, number)?;
        self.builds.push_reserved(build);
        Ok(())
    }

    /// A request waits for an active build, for its result or for its close alone.
    fn join(&mut self, id: u32, build: u32, result_wanted: bool) -> Result<(), Memory>
        requires kept { IsKept self.old }
        requires begun { build < length self.old.builds.items }
        requires open { (build_at self.old.builds.items build).closed ≡ false }
        ensures ok { OnOk result (state_of self.new ≡ moved (state_of self.old) (join build id result_wanted)) }
        ensures err { OnErr result (state_of self.new ≡ state_of self.old) }
        ensures kept { IsKept self.new }
    {
        self.replies.promise()?;
        self.builds[build as usize].join(id, result_wanted)
    }

    /// A request joins the active build of a context, or begins one.
    fn rebuild(&mut self, id: u32, key: u32) -> Result<(), Memory>
        requires kept { IsKept self.old }
        requires accepted { refusal (met (state_of self.old) key) (Command.Rebuild key) ≡ None }
        ensures ok { OnOk result (state_of self.new ≡ all_moved (state_of self.old) (effect (met (state_of self.old) key) id (Command.Rebuild key))) }
        ensures err { OnErr result (state_of self.new ≡ state_of self.old) }
        ensures kept { IsKept self.new }
    {
        if let Some(build) = self.contexts.active(key) {
            return self.join(id, build, true);
        }
        let Some(options) = self.contexts.options(key) else {
            unreachable!();
        };
        let options = options.share()?;
        self.begin(id, key, options)
    }

    /// The active build of a context, which isn't settled, is canceled, if there is one, and the context is removed unless it
    /// stays. It takes no memory.
    fn cancel_active(&mut self, key: u32, stays: bool)
        requires kept { IsKept self.old }
        requires unsettled { (met (state_of self.old) key).settled ≡ false }
        ensures state { state_of self.new ≡ all_moved (state_of self.old) (canceled (met (state_of self.old) key) 0 key stays (active_of (state_of self.old) key) []) }
        ensures kept { IsKept self.new }
        ensures spare { (more : ℕ) → loads self.old.builds.items + more ≤ self.old.replies.promised → loads self.new.builds.items + more ≤ self.new.replies.promised }
    {
        if let Some(build) = self.contexts.active(key) {
            self.end_build(key, stays, build, Outcome::Canceled);
        }
    }

    /// A request waits for the close of the active build of a context, which is settled.
    fn wait(&mut self, id: u32, key: u32) -> Result<(), Memory>
        requires kept { IsKept self.old }
        requires settled { (met (state_of self.old) key).settled ≡ true }
        ensures ok { OnOk result (state_of self.new ≡ all_moved (state_of self.old) (canceled (met (state_of self.old) key) id key true (active_of (state_of self.old) key) [])) }
        ensures err { OnErr result (state_of self.new ≡ state_of self.old) }
        ensures kept { IsKept self.new }
    {
        match self.contexts.active(key) {
            None => Ok(()),
            Some(build) => self.join(id, build, false),
        }
    }

    /// Whether the context with this key stays once its build is closed.
    fn stays(&self, key: u32) -> bool
        ensures { result ≡ (options_of (lookup (nat_eq key) self.now.contexts.contexts)).context }
    {
        match self.contexts.options(key) {
            None => false,
            Some(options) => options.get().context,
        }
    }

    /// The active build of a context is canceled, and a context that only it had is removed.
    fn cancel(&mut self, id: u32, key: u32) -> Result<(), Memory>
        requires kept { IsKept self.old }
        ensures ok { OnOk result (state_of self.new ≡ all_moved (state_of self.old) (effect (met (state_of self.old) key) id (Command.Cancel key))) }
        ensures err { OnErr result (state_of self.new ≡ state_of self.old) }
        ensures kept { IsKept self.new }
    {
        if self.is_settled(key) {
            return self.wait(id, key);
        }
        let stays = self.stays(key);
        self.replies.promise()?;
        self.cancel_active(key, stays);
        self.replies.owe(Out::Reply {
            id,
            body: Body::Empty,
        });
        Ok(())
    }

    /// A context whose build is settled is disposed, and the request waits for the close.
    fn retire(&mut self, id: u32, key: u32) -> Result<(), Memory>
        requires kept { IsKept self.old }
        requires settled { (met (state_of self.old) key).settled ≡ true }
        ensures ok { OnOk result (state_of self.new ≡ all_moved (state_of self.old) (disposed (met (state_of self.old) key) id key)) }
        ensures err { OnErr result (state_of self.new ≡ state_of self.old) }
        ensures kept { IsKept self.new }
    {
        self.contexts.retire(key)?;
        let waits = self.wait(id, key);
        if waits.is_err() {
            self.contexts.restore();
        }
        waits
    }

    /// The active build of a context is canceled, and the context is removed. One whose build is settled is removed at its close.
    fn dispose(&mut self, id: u32, key: u32) -> Result<(), Memory>
        requires kept { IsKept self.old }
        ensures ok { OnOk result (state_of self.new ≡ all_moved (state_of self.old) (effect (met (state_of self.old) key) id (Command.Dispose key))) }
        ensures err { OnErr result (state_of self.new ≡ state_of self.old) }
        ensures kept { IsKept self.new }
    {
        if self.is_settled(key) {
            return self.retire(id, key);
        }
        self.replies.promise()?;
        self.cancel_active(key, true);
        self.contexts.remove(key);
        self.replies.owe(Out::Reply {
            id,
            body: Body::Empty,
        });
        Ok(())
    }

    /// Does what an accepted command asks for.
    fn accept(&mut self, id: u32, command: Command) -> Result<(), Memory>
        requires kept { IsKept self.old }
        requires accepted { refusal (met (state_of self.old) (key_of command)) command ≡ None }
        ensures ok { OnOk result (state_of self.new ≡ all_moved (state_of self.old) (effect (met (state_of self.old) (key_of command)) id command)) }
        ensures err { OnErr result (state_of self.new ≡ state_of self.old) }
        ensures kept { IsKept self.new }
    {
        match command {
            Command::Build { key, options } if options.context => self.make(id, key, options),
            Command::Build { key, options } => self.make_and_begin(id, key, options),
            Command::Rebuild(key) => self.rebuild(id, key),
            Command::Cancel(key) => self.cancel(id, key),
            Command::Dispose(key) => self.dispose(id, key),
            Command::Watch(_) => unreachable!(),
            Command::Serve { key: _, port: _ } => unreachable!(),
            Command::Ping => self.reply(id, Body::Empty),
        }
    }

    /// A command is refused or done.
    pub(crate) fn command(&mut self, id: u32, command: Command) -> Result<(), Memory>
        requires kept { IsKept self.old }
        ensures ok { OnOk result (state_of self.new ≡ all_moved (state_of self.old) (commanded (met (state_of self.old) (key_of command)) id command)) }
        ensures err { OnErr result (state_of self.new ≡ state_of self.old) }
        ensures kept { IsKept self.new }
    {
        match self.refuse(&command) {
            Some(reason) => {
                let text = Text::of(self.alloc, reason)?;
                self.reply(id, Body::Error(text))
            }
            None => self.accept(id, command),
        }
    }
}
