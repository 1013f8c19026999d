//! What the machine keeps.
ghost use Rattle.std.specs.Prelude.{◌≡◌, IfOk};
ghost use Rattle.esb_core.specs.Kept.{state_of, IsKept};
ghost use Rattle.esb_core.specs.State.{start};

mod arrive;
mod commands;
mod jobs;
mod step;
mod work;

use crate::build::Build;
use crate::contexts::Contexts;
use crate::replies::Replies;
use esb_base::Memory;
use std::alloc::Global;

/// The most builds of a session.
pub(crate) const MOST_BUILDS: usize = 1_048_576;

/// The most contexts at a time.
pub(crate) const MOST_CONTEXTS: usize = 64;

/// The most requests that wait for a build.
pub(crate) const MOST_WAITING: usize = 4_096;

/// The contexts, the builds by number, of which the first ones are settled, and what is owed.
#[derive(Drop)]
pub(crate) struct Tables {
    pub(crate) alloc: Global,
    pub(crate) contexts: Contexts,
    pub(crate) builds: Vec<Build>,
    pub(crate) passed: usize,
    pub(crate) replies: Replies,
    pub(crate) ended: bool,
}

impl Tables {
    /// No builds yet, and room for the first reply.
    pub(crate) fn new(alloc: Global) -> Result<Tables, Memory>
        ensures state { IfOk result (λ t. state_of t ≡ start) }
        ensures kept { IfOk result (λ t. IsKept t) }
    {
        Ok(Tables {
            alloc,
            contexts: Contexts::new(alloc),
            builds: Vec::new(alloc),
            passed: 0,
            replies: Replies::new(alloc)?,
            ended: false,
        })
    }
}
