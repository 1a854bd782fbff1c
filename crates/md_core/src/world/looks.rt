//! What a world shows. These take no memory, but for `names_from`.
ghost use Rattle.std.specs.Prelude.{◌≡◌, IfOk, length, slice_get, option_map};
ghost use Rattle.md_dirs.specs.Rows.{rows_of};
ghost use Rattle.md_dirs.specs.Lent.{AreNext};
ghost use Rattle.std.specs.FinMap as finmap;
ghost use Rattle.md_dirs.specs.State.{IsSound};
ghost use Rattle.md_core.specs.Mailbox.{Entry, mailbox_of};
ghost use Rattle.md_core.specs.Machine.{job_at};
ghost use Rattle.md_core.specs.Runs.{dirs_of, jobs_of, effects_of, log_of, answer_of};

use crate::world::World;
use crate::world::reading::message_bytes;
use md_dirs::{Dirs, Place, RowRef};
use md_jobs::{Answer, Effect, Event, JobId};
use std::alloc::{AllocError, Global};

impl<D: Dirs> World<D> {
    /// The jobs and moments that the steps so far were given.
    pub fn log(&self) -> &[Event]
        ensures { result.now ≡ log_of self.now }
    {
        self.log.events.as_slice()
    }

    /// The effects so far, in their order.
    pub fn effects(&self) -> &[Effect]
        ensures { result.now ≡ effects_of self.now }
    {
        self.log.effects.as_slice()
    }

    /// The row at a position of the ordered names of a directory, from 0. None past the last, and if the folder is not there. In hashed
    /// directories whose order is not made (`arrange_directory`) it costs a look at each name for each position up to this one.
    pub fn names(&self, folder: u32, place: Place, at: usize) -> Option<RowRef<'_>>
        ensures { result ≡ slice_get (rows_of (dirs_of self.now) folder place) at }
    {
        self.dirs.row_at(folder, place, at)
    }

    /// Rows of the ordered names of a directory from a position on, one after another: at least one, if there is one. It takes memory for
    /// them, and is refused only when out of it. In hashed directories whose order is not made it sorts all names each time.
    pub fn names_from(
        &self,
        alloc: Global,
        folder: u32,
        place: Place,
        from: usize,
    ) -> Result<Vec<RowRef<'_>>, AllocError>
        ensures { IfOk result (λ rows. AreNext (rows_of (dirs_of self.now) folder place) from rows.items) }
    {
        self.dirs.rows_from(alloc, folder, place, from)
    }

    /// The answer of a job, if it has one. None also where there is no such job.
    pub fn answer(&self, job: JobId) -> Option<Answer>
        ensures { result ≡ answer_of (job_at (jobs_of self.now) job) }
    {
        if job == 0 || job > self.jobs.len() as u64 {
            return None;
        }
        self.jobs[(job - 1) as usize].answer()
    }

    /// How many jobs there are.
    pub fn jobs(&self) -> u64
        ensures { result ≡ length self.now.calls }
    {
        self.jobs.len() as u64
    }

    /// The bytes of the message of a unique name, in new or cur of any folder. None if there is no such message. It looks once in new and once
    /// in cur of each folder, up to that of the message.
    pub fn read(&self, unique: &[u8]) -> Option<&[u8]>
        ensures { option_map (λ b. b.now) result ≡ option_map (λ (e : Entry). e.bytes) (finmap.get (mailbox_of (dirs_of self.now)) unique.now) }
    {
        self.interleaves();
        message_bytes(&self.dirs, unique)
    }

    /// How many folders there are.
    pub fn folders(&self) -> u32
        ensures count { result ≡ (dirs_of self.now).folders }
        ensures sound { IsSound (dirs_of self.now) }
    {
        self.dirs.folders()
    }
}
