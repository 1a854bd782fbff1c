//! A system whose calls are logged.
ghost use Rattle.std.specs.Prelude.{◌≡◌, ◌++◌, ◌∷◌, [], IfOk, OnErr};
ghost use Rattle.std.specs.Option.{option_to_list};
ghost use Rattle.md_dirs.specs.Rows.{row_named};
ghost use Rattle.md_jobs.specs.Requests.{request_view};
ghost use Rattle.md_system.specs.Exchanges.{exchange, ReadsOld};

use crate::entry::Entry;
use crate::log::Log;
use crate::rows::{of_message, old_names};
use crate::system::System;
use md_dirs::{FileName, Place, Row};
use md_jobs::{DirReply, Moment, Purpose, Request};
use std::alloc::{AllocError, Global};
use std::collections::VecDeque;

/// A system on which jobs are run. Each call that is made of it is logged, for contracts alone, at the second that its clock gave last.
/// What is proved of a job is proved of the log. That each logged call is made once, and its reply passed on, is read and tested: a system
/// has no contract.
#[derive(Drop)]
pub struct Logged<S> {
    /// What makes the calls.
    pub system: S,
    // The second that was read last.
    second: u64,
    log: Log,
}

impl<S: System> Logged<S> {
    /// A system of which no call was made.
    pub fn over(system: S) -> Self
        ensures log { result.log.entries ≡ [] }
        ensures system { result.system ≡ system }
    {
        Logged {
            system,
            second: 0,
            log: Log::new(),
        }
    }

    /// Reads the clock, for the calls that follow.
    pub(crate) fn read_clock(&mut self) -> Moment
        ensures read { result ≡ record { clock = self.new.second; own = self.new.second } }
        ensures kept { self.new.log ≡ self.old.log }
    {
        self.second = self.system.second();
        Moment {
            clock: self.second,
            own: self.second,
        }
    }

    /// Makes a call that is no reading.
    pub(crate) fn make(
        &mut self,
        alloc: Global,
        request: &Request<'_>,
    ) -> Result<DirReply, AllocError>
        ensures made { IfOk result (λ reply.
            self.new.log.entries ≡ self.old.log.entries ++ exchange (request_view request.now) self.old.second reply [] ∷ []) }
        ensures kept { OnErr result (self.new.log ≡ self.old.log) }
    {
        let reply = self.system.make(alloc, request)?;
        self.log.push(&Entry::new(request, self.second, reply, &[]));
        Ok(reply)
    }

    /// Reads a directory for a message, for an errand of this purpose, and keeps its row.
    pub(crate) fn find(
        &mut self,
        alloc: Global,
        folder: u32,
        place: Place,
        unique: &[u8],
        purpose: &Purpose,
    ) -> Result<(DirReply, Option<Row>), AllocError>
        ensures made { IfOk result (λ found. self.new.log.entries ≡ self.old.log.entries
            ++ exchange (request_view (Request.List folder place)) self.old.second found.0 (option_to_list found.1) ∷ []) }
        ensures row { IfOk result (λ found. found.1 ≡ row_named unique.now (option_to_list found.1)) }
        ensures kept { OnErr result (self.new.log ≡ self.old.log) }
    {
        let (reply, row) = self.system.look(alloc, folder, place, unique, purpose)?;
        let row = of_message(row, unique);
        let request = Request::List { folder, place };
        self.log
            .push(&Entry::new(&request, self.second, reply, row.as_slice()));
        Ok((reply, row))
    }

    /// Reads tmp, and keeps the names of files that were not used for so many seconds.
    pub(crate) fn find_old(
        &mut self,
        alloc: Global,
        folder: u32,
        seconds: u64,
    ) -> Result<(DirReply, VecDeque<FileName>), AllocError>
        ensures made { IfOk result (λ found.
            ReadsOld folder seconds self.old.second self.old.log.entries self.new.log.entries found.0 found.1.items) }
        ensures kept { OnErr result (self.new.log ≡ self.old.log) }
    {
        let (reply, rows) = self.system.used_files(alloc, folder)?;
        let old = old_names(alloc, rows.as_slice(), self.second, seconds)?;
        let place = Place::Tmp;
        let request = Request::List { folder, place };
        self.log
            .push(&Entry::new(&request, self.second, reply, rows.as_slice()));
        Ok((reply, old))
    }
}
