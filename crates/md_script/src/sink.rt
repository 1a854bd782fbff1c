//! What a transcript is written to.
ghost use Rattle.std.specs.Prelude.{◌≡◌, Some, []};
ghost use Rattle.md_script.specs.Sinks.{Puts};

use md_dirs::Count;
use std::alloc::Global;
use std::io::Write;

/// What writing a text came to.
#[derive(Clone, Copy, Debug, PartialEq, Eq)]
pub enum Put {
    Done,
    /// The sink failed, and nothing is known of how much was written.
    Failed,
    /// Memory was refused, and nothing was written.
    NoMemory,
}

/// Bytes that are written, as to std's `Write`, of which contracts see how many writes failed and to how many memory was refused. `Writer`
/// makes one of any `Write`, and `InMemory` holds what is written.
pub trait Sink {
    ghost use Rattle.md_script.specs.Sinks.{Sink as State};

    ghost state: { Self → State };

    /// Writes all of a text, and passes it on.
    fn put(&mut self, text: &[u8]) -> Put
        ensures { Puts (state self.old) (state self.new) text.now result };
}

/// A sink in memory, which never fails.
#[derive(Drop)]
pub struct InMemory {
    text: Vec<u8>,
    refusals: Count,
}

impl InMemory {
    /// A sink that holds nothing yet.
    pub fn new(alloc: Global) -> Self
        ensures text { result.text.items ≡ [] }
        ensures refusals { result.refusals.value ≡ 0 }
    {
        InMemory {
            text: Vec::new(alloc),
            refusals: Count::zero(),
        }
    }

    /// What was written to it.
    pub fn into_text(self) -> Vec<u8>
        ensures { result ≡ self.text }
    {
        self.text
    }
}

impl Sink for InMemory {
    ghost state = { λ s. record { contents = Some s.text.items; failures = 0; refusals = s.refusals.value } };

    fn put(&mut self, text: &[u8]) -> Put {
        match self.text.extend_from_slice(text) {
            Ok(()) => Put::Done,
            Err(_) => {
                self.refusals.raise();
                Put::NoMemory
            }
        }
    }
}

/// A sink over any `Write`.
#[derive(Drop)]
pub struct Writer<W> {
    inner: W,
    failures: Count,
}

impl<W: Write> Writer<W> {
    /// A sink that was not written to yet.
    pub fn new(inner: W) -> Self
        ensures inner { result.inner ≡ inner }
        ensures failures { result.failures.value ≡ 0 }
    {
        Writer {
            inner,
            failures: Count::zero(),
        }
    }

    /// What it writes to.
    pub fn into_inner(self) -> W
        ensures { result ≡ self.inner }
    {
        self.inner
    }
}

impl<W: Write> Sink for Writer<W> {
    ghost state = { λ s. record { contents = W.contents s.inner; failures = s.failures.value; refusals = 0 } };

    fn put(&mut self, text: &[u8]) -> Put {
        if self.inner.write_all(text).is_err() || self.inner.flush().is_err() {
            self.failures.raise();
            return Put::Failed;
        }
        Put::Done
    }
}
