//! A message, and its entry in an index.
ghost use Rattle.std.specs.Prelude.{◌≡◌, IfOk};

use crate::gate::Gate;
use md_head::{HeadError, Summary, summary};
use md_name::Bytes;
use std::alloc::{AllocError, Global};

/// A message that is lent: its unique name (maildir(5)), and its bytes, whole (RFC 5322).
#[derive(Clone, Copy, Debug)]
pub struct Message<'a> {
    pub unique: &'a [u8],
    pub bytes: &'a [u8],
}

/// A message's unique name, and the summary of its header.
#[derive(Debug, Drop)]
pub struct Indexed {
    pub unique: Bytes,
    pub summary: Summary,
}

impl<'a> Message<'a> {
    ghost use Rattle.md_index.specs.Index.{indexed_of};

    /// The message's entry, made between the two calls of the gate.
    pub(crate) fn indexed<G: Gate>(
        &self,
        alloc: Global,
        item: usize,
        gate: &G,
    ) -> Result<Indexed, AllocError>
        ensures { IfOk result (λ made. made ≡ indexed_of self.now) }
    {
        gate.before(item);
        let made = self.entry(alloc);
        gate.after(item);
        made
    }

    fn entry(&self, alloc: Global) -> Result<Indexed, AllocError>
        ensures { IfOk result (λ made. made ≡ indexed_of self.now) }
    {
        let unique = Bytes::copied(alloc, self.unique)?;
        let summary = summary(alloc, self.bytes).map_err(|HeadError::NoMemory| AllocError)?;
        Ok(Indexed { unique, summary })
    }
}
