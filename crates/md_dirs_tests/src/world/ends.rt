//! Directories whose world ends, and which go on in another: a settled one keeps its clock, and a loaded one begins with their stamps. That 10,000
//! calls may be made again, which job is named that has no answer, and to which second the clock is kept, is tested by tools/tests/ffi.
use super::loads::directories;
use super::scene::{Failing, Scene, plays};
use super::{NOW, called, has_names, letter, load};
use md_core::Answer::{Cleaned, Delivered, Fault};
use md_core::{Call, CoreError, SettleRefused};
use md_dirs::{FailAt, Place, PlainDirs};
use std::alloc::Global;

/// How directories go on.
#[derive(Clone, Copy)]
pub(super) enum Next {
    Settled,
    Loaded,
}

// Delivers m at 0, cleans up x late, and makes a delivery of u late whose append, the ninth call, fails. No file has that late stamp.
fn is_over(alloc: Global, world: &mut Failing) -> Result<bool, CoreError> {
    let is_delivered = called(world, letter(alloc, 0, "m")?, 0)? == Delivered;
    let is_clean = called(world, Call::Clean { folder: 0 }, NOW)? == Cleaned(1);
    let is_fault = called(world, letter(alloc, 0, "u")?, NOW)? == Fault;
    Ok(is_delivered && is_clean && is_fault)
}

// Why a world does not settle. One that lacks memory keeps its jobs and its log.
fn refusal(refused: &SettleRefused<FailAt<PlainDirs>>, steps: usize) -> CoreError {
    if refused.world.jobs() == 3 && refused.world.log().len() == steps {
        CoreError::NoMemory
    } else {
        CoreError::NoJob
    }
}

fn settled(world: Failing) -> Result<Failing, CoreError> {
    let steps = world.log().len();
    match world.settle() {
        Ok(world) => Ok(world),
        Err(refused) => Err(refusal(&refused, steps)),
    }
}

// The stamp of the second file of new.
fn stamp(world: &Failing) -> Option<u64> {
    match world.names(0, Place::New, 1) {
        Some(row) => Some(row.stamp()),
        None => None,
    }
}

// Whether both names that have gone are free, and what is delivered at 0 has the clock for its stamp.
fn goes_on(
    alloc: Global,
    world: &mut Failing,
    clock: u64,
    is_over: Result<bool, CoreError>,
) -> Result<bool, CoreError> {
    let is_begun = is_over?
        && has_names(world, Place::Tmp, "")
        && has_names(world, Place::New, "m");
    let is_again = called(world, letter(alloc, 0, "u")?, 0)? == Delivered;
    let is_free = called(world, letter(alloc, 0, "x")?, 0)? == Delivered;
    Ok(
        is_begun
            && is_again
            && is_free
            && has_names(world, Place::New, "m u x")
            && world.jobs() == 2
            && stamp(world) == Some(clock),
    )
}

fn next_of(alloc: Global, world: Failing, next: Next) -> Result<Failing, CoreError> {
    match next {
        Next::Settled => settled(world),
        Next::Loaded => load(alloc, world.into_dirs()),
    }
}

/// Whether a world that is over goes on so, and with this clock.
pub(super) fn begins_again(alloc: Global, next: Next, clock: u64) -> Result<bool, CoreError> {
    let dirs = directories(alloc, Place::Tmp, "x")?;
    let mut world = load(alloc, FailAt::new(dirs, 9))?;
    let is_over = is_over(alloc, &mut world);
    let mut world = next_of(alloc, world, next)?;
    goes_on(alloc, &mut world, clock, is_over)
}

#[test]
fn a_settled_world_keeps_its_clock(rt: HostRuntime) {
    plays(&rt, rt.alloc(), Scene::End(Next::Settled, NOW));
}

#[test]
fn directories_outlive_their_world(rt: HostRuntime) {
    plays(&rt, rt.alloc(), Scene::End(Next::Loaded, 0));
}
