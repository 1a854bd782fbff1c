//! The pointer of a handle, and what it owns behind it.
ghost use Rattle.std.specs.Prelude.{◌≡◌, Option, Some, None, is_some, IsTrue};
ghost use Rattle.std.specs.Coded.{codes};
ghost use Rattle.std.specs.contracts.impls.GlobalAllocator.TheImpl.{ghosts};
ghost use Rattle.md_dirs.specs.State.{state_code};
ghost use Rattle.md_name.specs.contracts.flags.Flags as flags;
ghost use Rattle.md_ffi.specs.declared.held.Held.{Held as HeldValue};
ghost use Rattle.md_ffi.specs.contracts.held.Held.{the_row};
ghost use Rattle.md_ffi.specs.Slots.{slot_owns};

use crate::held::Held;
use crate::loose::Loose;
use std::alloc::Global;
use std::marker::Model;
use std::ptr::null_mut;

/// A pointer to what a handle holds, which it owns where it holds anything. It names no type, since what is behind it is none of C's.
///
/// Letting a slot go frees nothing: only one that holds nothing is ever let go.
#[repr(C)]
#[derive(Drop)]
pub struct Slot {
    at: *mut u8,
    alloc: Global,
    pub ghost held: { Option HeldValue } by { Prim.hlevel (codes, state_code, flags.the_row.coded) },
}

impl Model for Slot {
    ghost also_owns = { λ s. slot_owns (ghosts.dealloc_token s.alloc) the_row s.at s.held };
}

impl Slot {
    /// Nothing.
    pub(crate) fn empty(alloc: Global) -> Slot
        ensures { result.held ≡ None }
    {
        let nowhere: *mut u8 = null_mut();
        Slot::at(nowhere, alloc)
    }

    fn at(at: *mut u8, alloc: Global) -> Slot
        ensures { result.held ≡ None }
    {
        Slot { at, alloc }
    }

    /// What a box owned.
    pub(crate) fn holding(loose: Loose<Held, Global>) -> Slot
        ensures { result.held ≡ Some loose.value }
    {
        let Loose { at, alloc } = loose;
        Slot {
            at: at as *mut u8,
            alloc,
        }
    }

    /// What it owns, as a box again.
    pub(crate) fn into_loose(self) -> Loose<Held, Global>
        requires { IsTrue (is_some self.held) }
        ensures { self.held ≡ Some result.value }
    {
        let Slot { at, alloc } = self;
        Loose {
            at: at as *mut Held,
            alloc,
        }
    }
}
