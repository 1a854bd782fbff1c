//! A world that begins again behind its handle.
ghost use Rattle.std.specs.Prelude.{◌≡◌, Some, None, IfErr, IfOk, OnOk};
ghost use Rattle.md_core.specs.Settling.{first_unanswered, settled};
ghost use Rattle.md_ffi.specs.Doing.{OnHeld, Settles};

use crate::handle::Handle;
use core::mem::replace_with;
use md_core::{SettleRefused, World};
use md_dirs::IndexDirs;
use md_driven::Refusal;
use md_jobs::JobId;
use std::alloc::Global;

// A world that begins again; or the same one, and why it does not.
fn begun(world: World<IndexDirs>, _nothing: ()) -> (World<IndexDirs>, Result<(), JobId>)
    ensures ok { IfOk result.1 (λ _. result.0 ≡ settled world) }
    ensures answered { OnOk result.1 (first_unanswered world ≡ None) }
    ensures unchanged { IfErr result.1 (λ _. result.0 ≡ world) }
    ensures refused { IfErr result.1 (λ first. first_unanswered world ≡ Some first) }
{
    match world.settle() {
        Ok(begun) => (begun, Ok(())),
        Err(SettleRefused { error, world }) => (world, Err(error.0)),
    }
}

/// Settles the world of a handle: its directories and its clock stay, and it has no job and an empty log. `job` is set to 0.
///
/// Refused `Closed`; and `Unanswered`, with `job` the first job without an answer. The world is as it was then. It takes no memory, looks at no
/// name, and makes no directory call.
#[unsafe(no_mangle)]
#[tactic(auto, unfolding(crate::specs::Doing::Settles))]
pub extern "C" fn md_ffi_settle(alloc: Global, handle: &mut Handle, job: &mut u64) -> u32
    ensures { OnHeld handle.old.slot.held handle.new.slot.held result (job.new ≡ 0)
        (λ old new. Settles old new (first_unanswered old) result job.new) }
{
    *job = 0;
    let Some(mut held) = handle.take(alloc) else {
        return Refusal::Closed.number();
    };
    let outcome = replace_with(&mut held.world, (), begun);
    handle.hold(held);
    match outcome {
        Ok(()) => 0,
        Err(first) => {
            *job = first;
            Refusal::Unanswered.number()
        }
    }
}
