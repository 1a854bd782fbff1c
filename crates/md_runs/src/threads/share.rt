//! A thread's share of the jobs.

use md_core::{CoreError, JobId};
use md_dirs::IndexDirs;
use md_store::{Naming, Pass, Store};
use std::sync::Wait;

/// A thread's number, from 0, and its pass.
#[derive(Drop)]
pub(super) struct Share<J: Naming> {
    pub number: u64,
    pub pass: Pass<J>,
}

impl<J: Naming> Share<J> {
    /// Runs those of the jobs 1 to `jobs` that are this thread's, one after another, and gives the pass back.
    pub(super) fn run<R: Wait>(
        self,
        rt: &R,
        store: &Store<IndexDirs, J>,
        jobs: u64,
        threads: u64,
    ) -> Result<Pass<J>, CoreError> {
        let Share { number, mut pass } = self;
        for round in 0..jobs {
            let before = round.saturating_mul(threads).saturating_add(number);
            if before >= jobs {
                break;
            }
            finish(rt, store, &mut pass, before + 1)?;
        }
        Ok(pass)
    }
}

/// Steps a job to its answer.
fn finish<J: Naming, R: Wait>(
    rt: &R,
    store: &Store<IndexDirs, J>,
    pass: &mut Pass<J>,
    job: JobId,
) -> Result<(), CoreError> {
    for _ in rt.forever() {
        let step = store.step(rt, pass, job, 0, None)?;
        if step.out.answer.is_some() {
            return Ok(());
        }
    }
    unreachable!()
}
