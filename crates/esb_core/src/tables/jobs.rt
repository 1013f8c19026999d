//! The jobs that are open.
ghost use Rattle.std.specs.Prelude.{◌≡◌, IfOk};
ghost use Rattle.std.specs.List.{list_all};
ghost use Rattle.esb_core.specs.Allowed.{first_from, first_job, is_closed, is_closing, job_told, names_job};
ghost use Rattle.esb_core.specs.Kept.{state_of, IsKept};

use crate::build::Build;
use crate::event::{Claimed, Job, Role};
use crate::tables::Tables;
use esb_base::Memory;

/// Whether each of these builds is closed.
fn are_closed(builds: &[Build]) -> bool
    ensures { result ≡ list_all is_closed builds.now }
{
    builds.iter().all(|build| build.is_closed())
}

impl Tables {
    /// Whether the input has ended and no build is active.
    pub(crate) fn is_closing(&self) -> bool
        requires { IsKept self.now }
        ensures { result ≡ is_closing (state_of self.now) }
    {
        self.ended && are_closed(&self.builds[self.passed..])
    }

    /// The first open job of a worker.
    fn first(&self) -> Result<Option<Job>, Memory>
        requires { IsKept self.now }
        ensures { IfOk result (λ job. job ≡ first_from 0 self.now.builds.items) }
    {
        for number in self.passed..self.builds.len() {
            if let Some(job) = self.builds[number].job(number as u32)? {
                return Ok(Some(job));
            }
        }
        Ok(None)
    }

    /// Whether a job is the first open one of a worker. It takes no memory.
    pub(crate) fn is_first(&self, job: &Job) -> bool
        requires { IsKept self.now }
        ensures { result ≡ names_job (first_from 0 self.now.builds.items) job.now }
    {
        for number in self.passed..self.builds.len() {
            if self.builds[number].has_job() {
                return self.builds[number].is_job(number as u32, job);
            }
        }
        false
    }

    /// The first open job of a role.
    fn first_job(&self, role: Role) -> Result<Option<Job>, Memory>
        requires { IsKept self.now }
        ensures { IfOk result (λ job. job ≡ first_job (state_of self.now) role) }
    {
        match role {
            Role::Worker(_) => self.first(),
            Role::Door(_) => Ok(None),
        }
    }

    /// The next work of a role.
    pub(crate) fn job(&self, role: Role) -> Result<Claimed, Memory>
        requires { IsKept self.now }
        ensures { IfOk result (λ claimed. claimed ≡ job_told (state_of self.now) role) }
    {
        match self.first_job(role)? {
            Some(job) => Ok(Claimed::Job(job)),
            None if self.is_closing() => Ok(Claimed::Closing),
            None => Ok(Claimed::Idle),
        }
    }
}
