//! What a script is read from.
ghost use Rattle.std.specs.Prelude.{◌≡◌, ◌+◌, ◌≤◌, length};
ghost use Rattle.md_script.specs.Sources.{Reads, least_room};

use md_dirs::Count;
use std::io::{ErrorKind, Read};

/// The least room that a read is offered, in bytes.
pub(crate) const LEAST_ROOM: usize = 4_096;

/// What one read gave.
#[derive(Clone, Copy, Debug, PartialEq, Eq)]
pub enum Got {
    /// So many bytes, at the front of the room; none where the source has ended.
    Bytes(usize),
    /// A signal came in between, as POSIX read() allows: nothing was read, and the read may be tried again.
    Interrupted,
    /// The source failed.
    Failed,
}

/// Bytes that come in reads, as from std's `Read`, of which contracts see how many reads there were, how many of them found the end and how
/// many failed. A read that was interrupted counts, and so does the one that finds the end; a failed one may. `Reader` makes one of any
/// `Read`.
pub trait Source {
    ghost use Rattle.md_script.specs.Sources.{Source as State};

    ghost state: { Self → State };

    /// Reads into the front of the room, which has 4,096 bytes or more.
    fn read(&mut self, room: &mut [u8]) -> Got
        requires { least_room ≤ length room.old }
        ensures read { Reads (state self.old) (state self.new) room.new result }
        ensures counted { (state self.new).reads ≤ (state self.old).reads + 1 };
}

/// A source over any `Read`. After so many reads that a `u64` can't count one more it fails.
#[derive(Drop)]
pub struct Reader<R> {
    inner: R,
    reads: u64,
    ends: Count,
    failures: Count,
}

impl<R: Read> Reader<R> {
    /// A source that was not read from yet.
    pub fn new(inner: R) -> Self
        ensures inner { result.inner ≡ inner }
        ensures reads { result.reads ≡ 0 }
        ensures ends { result.ends.value ≡ 0 }
        ensures failures { result.failures.value ≡ 0 }
    {
        Reader {
            inner,
            reads: 0,
            ends: Count::zero(),
            failures: Count::zero(),
        }
    }

    /// What it reads.
    pub fn into_inner(self) -> R
        ensures { result ≡ self.inner }
    {
        self.inner
    }
}

impl<R: Read> Source for Reader<R> {
    ghost state = { λ s. record { remaining = R.remaining s.inner; reads = s.reads; ends = s.ends.value; failures = s.failures.value } };

    fn read(&mut self, room: &mut [u8]) -> Got {
        let Some(reads) = self.reads.checked_add(1) else {
            self.failures.raise();
            return Got::Failed;
        };
        self.reads = reads;
        match self.inner.read(room) {
            Ok(0) => {
                self.ends.raise();
                Got::Bytes(0)
            }
            Ok(count) => Got::Bytes(count),
            Err(error) if error.kind() == ErrorKind::Interrupted => Got::Interrupted,
            Err(_) => {
                self.failures.raise();
                Got::Failed
            }
        }
    }
}
