//! A script that is run while it is read: nothing of it is kept but the line that hasn't ended.
ghost use Rattle.std.specs.Prelude.{◌≡◌, ◌+◌, ◌≤◌, take, vec_len, OnOk};
ghost use Rattle.md_script.specs.Sources.{Source as State};
ghost use Rattle.md_script.specs.Reading.{most_bytes, most_reads};
ghost use Rattle.md_script.specs.Incoming.{KeepsLimits, IsEmpty, TakesIn, Underway, Reaches, RunsSource};

use crate::chunk::{MOST_BYTES, make_room, move_to_front, read_behind};
use crate::error::PlayKind;
use crate::run::Progress;
use crate::session::Session;
use crate::source::{Got, Source};
use memchr::memrchr;
use std::alloc::{AllocError, Global};

const LF: u8 = b'\n';

/// The most reads that a script may take, of which the last gives nothing. A read that is tried again counts each time.
const MOST_READS: u32 = 1_048_576;

/// Runs the lines of a script while it is read, in at most 1,048,576 reads, up to the first that is refused; the rest is read on to its
/// end. Refused `ReadFault`, `TooLong`, `TooManyReads` or `NoMemory`.
pub(crate) fn run_source<R: Source, S: Session>(
    alloc: Global,
    source: &mut R,
    session: &mut S,
) -> Result<Progress, PlayKind>
    ensures runs { RunsSource S.step session.old (R.state source.old) (R.state source.new) session.new result }
    ensures counted { (R.state source.new).reads ≤ (R.state source.old).reads + most_reads }
{
    let mut incoming = Incoming::new(alloc);
    for _ in 0..MOST_READS {
        if incoming.read_on(source, session)? {
            return Ok(incoming.progress);
        }
    }
    Err(PlayKind::TooManyReads)
}

/// What has come of a script.
#[derive(Drop)]
pub(crate) struct Incoming {
    room: Vec<u8>,
    // How many bytes at the front of the room are those of the line that hasn't ended.
    filled: usize,
    given: usize,
    progress: Progress,
}

impl Incoming {
    fn new(alloc: Global) -> Self
        ensures { IsEmpty result }
    {
        Incoming {
            room: Vec::new(alloc),
            filled: 0,
            given: 0,
            progress: Progress::new(alloc),
        }
    }

    // Reads once, and runs the lines that are whole then. It is true where the script has ended, and its last line was run too.
    fn read_on<R: Source, S: Session>(
        &mut self,
        source: &mut R,
        session: &mut S,
    ) -> Result<bool, PlayKind>
        requires { KeepsLimits self.old }
        ensures fits { OnOk result (KeepsLimits self.new) }
        ensures counted { (R.state source.new).reads ≤ (R.state source.old).reads + 1 }
        ensures on { (s : S) → (start : State) → Underway S.step s start (R.state source.old) self.old session.old
            → Reaches S.step s start (R.state source.old) (R.state source.new) self.new session.new result }
    {
        make_room(&mut self.room, self.filled)?;
        match read_behind(source, &mut self.room, self.filled) {
            Got::Bytes(count) => {
                if count == 0 {
                    self.progress.run_lines(session, &self.room[..self.filled])?;
                    self.filled = 0;
                    return Ok(true);
                }
                self.given += count;
                if self.given > MOST_BYTES {
                    return Err(PlayKind::TooLong);
                }
                self.take_in(session, count)?;
                Ok(false)
            }
            Got::Interrupted => Ok(false),
            Got::Failed => Err(PlayKind::ReadFault),
        }
    }

    // Takes in so many bytes that were read behind the line that hasn't ended: runs the lines that are whole with them, and moves the
    // rest to the front. Where a line was refused, nothing is kept.
    fn take_in<S: Session>(&mut self, session: &mut S, count: usize) -> Result<(), AllocError>
        requires there { self.old.filled + count ≤ vec_len self.old.room }
        requires few { self.old.progress.passed + (self.old.filled + count) ≤ most_bytes }
        ensures taken { OnOk result (TakesIn S.step self.old.progress session.old (take (self.old.filled + count) self.old.room.items) self.new session.new) }
        ensures given { self.new.given ≡ self.old.given }
    {
        let seen = self.filled;
        let filled = seen + count;
        if self.progress.is_refused() {
            self.filled = 0;
            return Ok(());
        }
        let Some(at) = memrchr(LF, &self.room[seen..filled]) else {
            self.filled = filled;
            return Ok(());
        };
        let end = seen + at + 1;
        self.progress.run_lines(session, &self.room[..end])?;
        move_to_front(&mut self.room, end, filled);
        self.filled = filled - end;
        Ok(())
    }
}
