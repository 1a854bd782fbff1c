//! The pointer of a driven job's handle, and what it owns behind it. `Slot` is no type with a parameter, since none crosses to C.
ghost use Rattle.std.specs.Prelude.{◌≡◌, Option, Some, None, is_some, IsTrue};
ghost use Rattle.std.specs.Coded.{codes};
ghost use Rattle.std.specs.contracts.impls.GlobalAllocator.TheImpl.{ghosts};
ghost use Rattle.md_name.specs.contracts.flags.Flags as flags;
ghost use Rattle.md_driven.specs.Driving.{Driving};
ghost use Rattle.md_driven.specs.contracts.driven.Driven.{the_row};
ghost use Rattle.md_ffi.specs.Slots.{slot_owns};

use crate::loose::Loose;
use md_driven::Driven;
use std::alloc::Global;
use std::marker::Model;
use std::ptr::null_mut;

/// A pointer to what a handle holds, which it owns where it holds anything. It names no type, since what is behind it is none of C's.
///
/// Letting a slot go frees nothing: only one that holds nothing is ever let go.
#[repr(C)]
#[derive(Drop)]
pub struct DrivenSlot {
    at: *mut u8,
    alloc: Global,
    pub ghost held: { Option Driving } by { Prim.hlevel (codes, flags.the_row.coded) },
}

impl Model for DrivenSlot {
    ghost also_owns = { λ s. slot_owns (ghosts.dealloc_token s.alloc) the_row s.at s.held };
}

impl DrivenSlot {
    /// Nothing.
    pub(crate) fn empty(alloc: Global) -> DrivenSlot
        ensures { result.held ≡ None }
    {
        let nowhere: *mut u8 = null_mut();
        DrivenSlot::at(nowhere, alloc)
    }

    fn at(at: *mut u8, alloc: Global) -> DrivenSlot
        ensures { result.held ≡ None }
    {
        DrivenSlot { at, alloc }
    }

    /// What a box owned.
    pub(crate) fn holding(loose: Loose<Driven, Global>) -> DrivenSlot
        ensures { result.held ≡ Some loose.value }
    {
        let Loose { at, alloc } = loose;
        DrivenSlot {
            at: at as *mut u8,
            alloc,
        }
    }

    /// What it owns, as a box again.
    pub(crate) fn into_loose(self) -> Loose<Driven, Global>
        requires { IsTrue (is_some self.held) }
        ensures { self.held ≡ Some result.value }
    {
        let DrivenSlot { at, alloc } = self;
        Loose {
            at: at as *mut Driven,
            alloc,
        }
    }
}
