//! The directory calls that were made, for contracts alone.
ghost use Rattle.std.specs.Prelude.{◌≡◌, ◌++◌, ◌∷◌, [], List};
ghost use base.Fml.{ftrue};
ghost use Rattle.md_system.specs.Exchanges.{Exchange};

use crate::entry::Entry;
use std::marker::Model;

/// The calls that were made, the oldest first, for contracts alone: it takes no bytes.
#[derive(Drop)]
pub(crate) struct Log {
    pub(crate) ghost entries: { List Exchange },
}

impl Model for Log {
    ghost also_owns = { λ _. ftrue };
}

unsafe impl Send for Log {}

unsafe impl Sync for Log {}

impl Log {
    /// No call.
    pub(crate) fn new() -> Log
        ensures { result.entries ≡ [] }
    {
        Log {}
    }

    // One call more.
    fn with(&self, entry: &Entry<'_>) -> Log
        ensures { result.entries ≡ self.now.entries ++ entry.now ∷ [] }
    {
        Log {}
    }

    /// Adds a call.
    pub(crate) fn push(&mut self, entry: &Entry<'_>)
        ensures { self.new.entries ≡ self.old.entries ++ entry.now ∷ [] }
    {
        *self = self.with(entry);
    }
}
