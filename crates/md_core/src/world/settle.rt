//! Worlds that begin again with their directories.
ghost use Rattle.std.specs.Prelude.{◌≡◌, ◌<◌, Some, None, IfOk, IfErr, IfSome, OnOk, length, position};
ghost use Rattle.md_core.specs.Interleaving.{Interleaves};
ghost use Rattle.md_core.specs.Machine.{is_working};
ghost use Rattle.md_core.specs.Settling.{first_unanswered, settled};
ghost use Rattle.md_core.specs.Tracing.{trace_of};

use crate::jobs::job::Job;
use crate::world::World;
use crate::world::log::Log;
use crate::world::looking::names::kept_at_settle;
use md_dirs::Dirs;
use md_jobs::{JobId, Snapshot};
use md_used::Used;
use thiserror::Error;

/// Why a world does not settle: this job has no answer, and each job before it has one.
#[derive(Clone, Copy, Debug, PartialEq, Eq, Error)]
#[error("job {0} has no answer")]
pub struct Unanswered(pub JobId);

/// A world that did not settle, as it was, and why.
#[derive(Drop)]
pub struct SettleRefused<D: Dirs> {
    pub error: Unanswered,
    pub world: World<D>,
}

// The place of the first of these jobs that has no answer.
fn first_working(jobs: &[Job]) -> Option<usize>
    ensures value { result ≡ position (λ job. is_working job.standing) jobs.now }
    ensures within { IfSome result (λ at. at < length jobs.now) }
{
    jobs.iter().position(|job| job.is_working())
}

impl<D: Dirs> World<D> {
    /// The world with its directories, its mailbox and its clock as they are, with no job and an empty log. It may take 10,000 calls again,
    /// and of the names of earlier deliveries and copies only those are used that the directories hold now.
    ///
    /// It is refused with the first job that has no answer, if there is one, and the world then comes back as it was. It takes no memory,
    /// looks at no name, and makes no directory call.
    pub fn settle(self) -> Result<World<D>, SettleRefused<D>>
        ensures ok { IfOk result (λ w. w ≡ settled self) }
        ensures answered { OnOk result (first_unanswered self ≡ None) }
        ensures theorem { IfOk result (λ w. Interleaves (trace_of w)) }
        ensures refused { IfErr result (λ r. first_unanswered self ≡ Some r.error.0) }
        ensures world { IfErr result (λ r. r.world ≡ self) }
    {
        if let Some(job) = self.first_unanswered() {
            return Err(SettleRefused {
                error: Unanswered(job),
                world: self,
            });
        }
        let World {
            alloc,
            dirs,
            clock,
            used,
            ..
        } = self;
        let were = kept_at_settle(&dirs, used);
        let used = Used::beginning(alloc, dirs.hash_seed(), were);
        Ok(World {
            alloc,
            image: Snapshot::of(&dirs),
            dirs,
            began: clock,
            clock,
            jobs: Vec::new(alloc),
            used,
            log: Log::new(alloc),
        })
    }

    // The number of the first job that has no answer.
    fn first_unanswered(&self) -> Option<JobId>
        ensures { result ≡ first_unanswered self.now }
    {
        match first_working(&self.jobs) {
            Some(at) => Some(at as u64 + 1),
            None => None,
        }
    }
}
