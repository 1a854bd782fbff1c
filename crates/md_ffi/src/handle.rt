//! The handle that C keeps of a world.
ghost use Rattle.std.specs.Prelude.{◌≡◌, Option, Some, None, is_some, option_map};

use crate::held::Held;
use crate::loose::Loose;
use crate::slot::Slot;
use std::alloc::Global;
use std::mem;

/// A handle: open with a world, or closed. One whose bytes are all zero is closed.
#[repr(C)]
#[derive(Drop)]
pub struct Handle {
    is_open: bool,
    slot: Slot,
    ghost agrees: { is_some slot.held ≡ is_open },
}

impl Handle {
    /// Takes out what it holds, if it is open, and closes it.
    pub(crate) fn take(&mut self, alloc: Global) -> Option<Box<Held>>
        ensures taken { option_map (λ held. held.value) result ≡ self.old.slot.held }
        ensures closed { self.new.slot.held ≡ None }
    {
        let closed = Handle {
            is_open: false,
            slot: Slot::empty(alloc),
        };
        let Handle { is_open, slot } = mem::replace(self, closed);
        if !is_open {
            return None;
        }
        Some(slot.into_loose().into_box())
    }

    /// Holds this from now on.
    pub(crate) fn hold(&mut self, held: Box<Held>)
        requires { self.old.slot.held ≡ None }
        ensures { self.new.slot.held ≡ Some held.value }
    {
        *self = Handle {
            is_open: true,
            slot: Slot::holding(Loose::of(held)),
        };
    }
}
