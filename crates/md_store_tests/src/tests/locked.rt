// A store that is submitted to, stepped and read under one lock.
use super::fixtures::call;
use super::gated::Gated;
use md_core::{Answer, JobId};
use md_store::{Locked, Naming, News, Pass, Store};
use std::alloc::Global;
use std::sync::{MutexGuard, Wait};

// Submits the delivery of `a`.
fn submitted<J: Naming>(alloc: Global, locked: &mut Locked<Gated, J>) -> Option<JobId> {
    locked.lags();
    match call(alloc, 0, "deliver a") {
        Ok(call) => locked.submit(call).ok(),
        Err(_) => None,
    }
}

// Whether four steps deliver, and the pass is told of one of them.
fn is_delivered<J: Naming, R: Wait>(
    rt: &R,
    locked: &mut Locked<Gated, J>,
    pass: &mut Pass<J>,
    job: JobId,
) -> bool {
    let mut told = 0u32;
    let mut answer = None;
    for _ in 0..4 {
        let Ok(step) = locked.step(rt, pass, job, 1000, None) else {
            return false;
        };
        told = told.wrapping_add(u32::from(step.news == News::Told));
        answer = step.out.answer;
    }
    told == 1 && answer == Some(Answer::Delivered)
}

// Whether the bytes of `a` are read, and all is published.
fn reads<J: Naming, R: Wait>(
    rt: &R,
    alloc: Global,
    locked: &mut Locked<Gated, J>,
    pass: &mut Pass<J>,
) -> bool {
    match locked.read(alloc, b"a") {
        Ok(Some(bytes)) => {
            bytes.as_slice() == "x".as_bytes()
                && locked.catch_up(rt, pass).is_ok()
                && pass.len() == 1
        }
        _ => false,
    }
}

// Delivers and reads under one lock.
pub fn act_locked<J: Naming, R: Wait>(
    rt: &R,
    alloc: Global,
    store: &Store<Gated, J>,
    pass: &mut Pass<J>,
) -> bool {
    let mut guard = store.lock(rt);
    let made = match submitted(alloc, &mut guard) {
        Some(job) => {
            is_delivered(rt, &mut guard, pass, job) && reads(rt, alloc, &mut guard, pass)
        }
        None => false,
    };
    MutexGuard::unlock(guard);
    made
}
