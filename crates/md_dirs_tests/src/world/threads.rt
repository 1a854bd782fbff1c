//! A world that crosses threads, alone and inside a lock.
use super::{NOW, are_right, has_names, letter, load, submitted};
use md_core::{Call, CoreError, Effect, JobId, World};
use md_dirs::{FailAt, Place, PlainDirs};
use std::alloc::Global;
use std::sync::{Mutex, Wait};
use std::thread;
use std::thread::Threads;

// Directories of md_dirs in a wrapper, of which no call fails.
type Wrapped = World<FailAt<PlainDirs>>;

fn may_cross<T: Send>() {}

// Submits two deliveries, of five steps each.
fn submit_two(alloc: Global, world: &mut Wrapped) -> Result<(), CoreError> {
    submitted(world, letter(alloc, 0, "a")?)?;
    submitted(world, letter(alloc, 0, "b")?)
}

// Takes the first step of each job.
fn begun(mut world: Wrapped) -> Wrapped {
    let _one = world.step(1, NOW, None);
    let _two = world.step(2, NOW, None);
    world
}

fn step_behind(rt: &impl Wait, lock: &Mutex<Wrapped>, job: JobId) {
    let _step = lock.lock(rt).step(job, NOW, None);
}

// Takes the other steps of a job, of which one may lack memory.
fn finish_behind(rt: &impl Wait, lock: &Mutex<Wrapped>, job: JobId) {
    for _ in 0..6 {
        step_behind(rt, lock, job);
    }
}

fn are_delivered(world: &Wrapped) -> bool {
    has_names(world, Place::New, "a b") && has_names(world, Place::Tmp, "")
}

// Whether a world goes to a thread and back, and is then stepped on by two threads, inside a lock.
fn crosses<R: Threads + Wait + Sync>(rt: &R, alloc: Global) -> Result<bool, CoreError> {
    let mut world = load(alloc, FailAt::new(PlainDirs::new(alloc, 1), 0))?;
    let submitted = submit_two(alloc, &mut world);
    let ((), world) = thread::join(rt, || (), move || begun(world));
    let lock = Mutex::new(world);
    let ((), ()) = thread::join(
        rt,
        || finish_behind(rt, &lock, 1),
        || finish_behind(rt, &lock, 2),
    );
    let are_delivered = are_delivered(&lock.into_inner());
    submitted.and(Ok(are_delivered))
}

// Its calls and its effects may cross too.
#[test]
fn a_world_crosses_threads_alone_and_inside_a_lock(rt: HostRuntime) {
    may_cross::<Call>();
    may_cross::<Effect>();
    are_right(&rt, crosses(&rt, rt.alloc()), crosses(&rt, rt.alloc()));
}
