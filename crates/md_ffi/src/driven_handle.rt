//! The handle that C keeps of a driven job.
ghost use Rattle.std.specs.Prelude.{◌≡◌, Option, Some, None, is_some, option_map};

use crate::driven_slot::DrivenSlot;
use crate::loose::Loose;
use md_driven::Driven;
use std::alloc::Global;
use std::mem;

/// A handle: open with a job, or closed. One whose bytes are all zero is closed.
#[repr(C)]
#[derive(Drop)]
pub struct DrivenHandle {
    is_open: bool,
    slot: DrivenSlot,
    ghost agrees: { is_some slot.held ≡ is_open },
}

impl DrivenHandle {
    /// Takes out what it holds, if it is open, and closes it.
    pub(crate) fn take(&mut self, alloc: Global) -> Option<Box<Driven>>
        ensures taken { option_map (λ held. held.value) result ≡ self.old.slot.held }
        ensures closed { self.new.slot.held ≡ None }
    {
        let closed = DrivenHandle {
            is_open: false,
            slot: DrivenSlot::empty(alloc),
        };
        let DrivenHandle { is_open, slot } = mem::replace(self, closed);
        if !is_open {
            return None;
        }
        Some(slot.into_loose().into_box())
    }

    /// Holds this from now on.
    pub(crate) fn hold(&mut self, held: Box<Driven>)
        requires { self.old.slot.held ≡ None }
        ensures { self.new.slot.held ≡ Some held.value }
    {
        *self = DrivenHandle {
            is_open: true,
            slot: DrivenSlot::holding(Loose::of(held)),
        };
    }
}
