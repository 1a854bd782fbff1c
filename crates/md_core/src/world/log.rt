//! The log of steps: events, which of them faulted, and effects; and the room that each step and each job takes.
ghost use Rattle.std.specs.Prelude.{◌≡◌, ◌<◌, ◌++◌, ◌∷◌, [], OnOk, vec_len, vec_capacity};
ghost use Rattle.md_core.specs.Worlds.{HasRoom};

use md_jobs::{Effect, Event};
use std::alloc::{AllocError, Global};

/// The least room that a growth makes.
const LEAST_ROOM: usize = 64;

/// The most that a growth makes in place of doubling what there is.
const MOST_ROOM: usize = 65_536;

/// Makes room for one more. Since each growth moves what is there, few are made: one makes room for seven times as many, and for as many
/// again where they are more than `MOST_ROOM`.
pub(crate) fn make_room<T>(items: &mut Vec<T>) -> Result<(), AllocError>
    ensures items { items.new.items ≡ items.old.items }
    ensures room { OnOk result (vec_len items.new < vec_capacity items.new) }
{
    if items.len() < items.capacity() {
        return Ok(());
    }
    let more = items.len().saturating_mul(7).clamp(LEAST_ROOM, MOST_ROOM);
    items.reserve(more)
}

/// The steps so far, and the effects among them.
#[derive(Drop)]
pub(crate) struct Log {
    pub(crate) events: Vec<Event>,
    pub(crate) marks: Vec<bool>,
    pub(crate) effects: Vec<Effect>,
}

impl Log {
    pub(crate) fn new(alloc: Global) -> Log
        ensures { (result.events.items ≡ []) × (result.marks.items ≡ []) × (result.effects.items ≡ []) }
    {
        Log {
            events: Vec::new(alloc),
            marks: Vec::new(alloc),
            effects: Vec::new(alloc),
        }
    }

    /// Makes room for one more step.
    pub(crate) fn reserve(&mut self) -> Result<(), AllocError>
        ensures same { (self.new.events.items ≡ self.old.events.items) × (self.new.marks.items ≡ self.old.marks.items)
            × (self.new.effects.items ≡ self.old.effects.items) }
        ensures room { OnOk result (HasRoom self.new) }
    {
        make_room(&mut self.events)?;
        make_room(&mut self.marks)?;
        make_room(&mut self.effects)
    }

    /// Adds a step, for which there is room. Its effect, where it is one, was added by its turn.
    pub(crate) fn push(&mut self, event: Event, faulted: bool)
        requires events { vec_len self.old.events < vec_capacity self.old.events }
        requires marks { vec_len self.old.marks < vec_capacity self.old.marks }
        ensures events { self.new.events.items ≡ self.old.events.items ++ event ∷ [] }
        ensures marks { self.new.marks.items ≡ self.old.marks.items ++ faulted ∷ [] }
        ensures effects { self.new.effects.items ≡ self.old.effects.items }
    {
        self.events.push_reserved(event);
        self.marks.push_reserved(faulted);
    }
}
