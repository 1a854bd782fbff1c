//! Maildirs on a disk.
use crate::calls::Calls;
use crate::error::CallError;
use crate::reading::{all_names, last_names};
use md_dirs::{Bytes, Place};
use md_jobs::DirReply;
use md_system::{Hint, Logged, ReadAhead, Shown};
use std::alloc::{AllocError, Global};
use std::fs::Files;
use std::time::Clock;

/// Maildirs on a disk. A call on a name that is not UTF-8 is a fault, and is not made.
pub type Disk<'r, R> = Logged<Calls<'r, R>>;

impl<'r, R: Files + Clock> Calls<'r, R> {
    /// Reads new and cur of a folder for errands that were asked for before, and keeps their names in the place of all that were read
    /// before. Each is read until it rests, as often as for one errand. Where both have rested, these errands are told what the readings
    /// showed, whatever they answer by it, until `outdate`. Where not, an errand is told a name on which it acts. The reply is that of a
    /// reading that was not done, and then nothing has changed. Refused only when out of memory.
    pub fn read_ahead(&mut self, alloc: Global, folder: u32) -> Result<DirReply, AllocError> {
        let made = self.keep_names(alloc, folder);
        let (reply, _) = self.reply(made)?;
        Ok(reply)
    }

    fn keep_names(&mut self, alloc: Global, folder: u32) -> Result<(), CallError> {
        let (news, has_new_rested) = self.names_now(alloc, folder, Place::New)?;
        let (curs, has_cur_rested) = self.names_now(alloc, folder, Place::Cur)?;
        self.hints.ahead = ReadAhead {
            folder,
            news: Shown::of(alloc, news)?,
            curs: Shown::of(alloc, curs)?,
            counts: has_new_rested && has_cur_rested,
        };
        Ok(())
    }

    // All names of a directory, and whether it rested.
    fn names_now(
        &self,
        alloc: Global,
        folder: u32,
        place: Place,
    ) -> Result<(Vec<Bytes>, bool), CallError> {
        let path = self.folders.dir(alloc, folder, place)?;
        last_names(alloc, self.files, path.as_str())
    }

    /// The names that were read ahead are hints from now on: other errands may be run than those that were asked for before the readings.
    pub fn outdate(&mut self) {
        self.hints.ahead.counts = false;
    }

    /// Keeps a name that the caller knows of a directory as a hint for an errand on its message, in the place of the one before, and of
    /// what was read ahead of the message.
    pub fn hint(&mut self, folder: u32, place: Place, name: Bytes) {
        self.hints.give(Hint {
            folder,
            place,
            name,
        });
    }

    /// Whether a look is a fault that no hint answers, and no directory is read. So an errand of one try ends without a reading.
    pub fn only_hints(&mut self, only: bool) {
        self.only_hints = only;
    }

    /// All names of a directory but `.` and `..`, in no order, of a reading in which it rested. Refused where it never does.
    pub(crate) fn rested_names(
        &self,
        alloc: Global,
        folder: u32,
        place: Place,
    ) -> Result<Vec<Bytes>, CallError> {
        let path = self.folders.dir(alloc, folder, place)?;
        all_names(alloc, self.files, path.as_str())
    }
}
