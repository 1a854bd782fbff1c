//! Makes a world for a scene, and lends it. So it is let go in one place alone.
use super::ends::{Next, begins_again};
use super::faults::{Act, acts};
use super::loads::{Faulty, directories, is_first, is_refused};
use super::runs::{gives_back, stops};
use super::texts::{are_told, refusals_are_told};
use super::used::stay_used;
use super::{are_right, load};
use md_core::{CoreError, World};
use md_dirs::{FailAt, Place, PlainDirs};
use std::alloc::Global;
use std::process::Abort;

/// A world over directories of which one call may fail.
pub(super) type Failing = World<FailAt<PlainDirs>>;

/// What is played.
#[derive(Clone, Copy)]
pub(super) enum Scene {
    /// An act of which the call at a number fails, by its steps.
    Steps(Act, u64),
    /// The same in one call.
    Call(Act, u64),
    /// A run of so many steps.
    Run(usize),
    /// A call that is refused.
    Refused,
    /// A world that ends, and goes on so, with this clock.
    End(Next, u64),
    /// A name that is refused, in a place.
    BadName(Place),
    /// Files that are refused by a fault, before which none comes in order.
    Fault(Faulty),
    /// Deliveries under names that are used.
    Used,
    /// The texts of errors.
    Texts,
    /// Those of refused calls and settles.
    Refusals,
}

// Of an act the files at its beginning.
fn files_of(act: Act) -> (Place, &'static str) {
    match act {
        Act::Deliver => (Place::Tmp, ""),
        Act::Flag => (Place::Cur, "u:2,S"),
        Act::Clean => (Place::Tmp, "x y"),
    }
}

fn is_played_in(alloc: Global, world: &mut Failing, scene: Scene) -> Result<bool, CoreError> {
    match scene {
        Scene::Steps(act, at) => acts(alloc, world, act, at, false),
        Scene::Call(act, at) => acts(alloc, world, act, at, true),
        Scene::Run(count) => stops(alloc, world, count),
        _ => gives_back(alloc, world),
    }
}

// Plays a scene over the files of an act, where the call at a number fails.
fn is_played_over(alloc: Global, scene: Scene, act: Act, at: u64) -> Result<bool, CoreError> {
    let (place, names) = files_of(act);
    let dirs = directories(alloc, place, names)?;
    let mut world = load(alloc, FailAt::new(dirs, at))?;
    is_played_in(alloc, &mut world, scene)
}

fn is_played(alloc: Global, scene: Scene) -> Result<bool, CoreError> {
    match scene {
        Scene::Steps(act, at) | Scene::Call(act, at) => is_played_over(alloc, scene, act, at),
        Scene::Run(_) | Scene::Refused => is_played_over(alloc, scene, Act::Deliver, 0),
        Scene::End(next, clock) => begins_again(alloc, next, clock),
        Scene::BadName(place) => is_refused(alloc, place),
        Scene::Fault(faulty) => is_first(alloc, faulty),
        Scene::Used => stay_used(alloc),
        Scene::Texts => are_told(alloc),
        Scene::Refusals => refusals_are_told(alloc),
    }
}

/// Plays a scene twice.
pub(super) fn plays(rt: &impl Abort, alloc: Global, scene: Scene) {
    are_right(rt, is_played(alloc, scene), is_played(alloc, scene));
}
