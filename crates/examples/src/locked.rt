//! A whole call under one lock of a store that threads share.
ghost use Rattle.std.specs.Prelude.{◌≡◌, IfOk, option_map};
ghost use Rattle.std.specs.FinMap as finmap;
ghost use Rattle.md_core.specs.Mailbox.{Entry, mailbox_of};
ghost use Rattle.md_core.specs.Runs.{dirs_of};

use crate::deliver::delivery;
use anyhow::{Result, bail};
use md_core::{Answer, Call};
use md_dirs::{Bytes, IndexDirs};
use md_store::{Locked, Naming, Pass, Store};
use std::alloc::Global;
use std::sync::{MutexGuard, Wait};

/// Delivers a message and reads it back. No other job takes a step between.
pub fn deliver_and_read<J: Naming, R: Wait>(
    rt: &R,
    alloc: Global,
    store: &Store<IndexDirs, J>,
    pass: &mut Pass<J>,
    unique: &[u8],
    body: &[u8],
) -> Result<Option<Bytes>> {
    let call = delivery(alloc, unique, body)?;
    let mut locked = store.lock(rt);
    let read = act(rt, alloc, &mut locked, pass, call, unique);
    MutexGuard::unlock(locked);
    read
}

// Delivers, and reads the message of a unique name: its bytes are those that the mailbox has then.
fn act<J: Naming, R: Wait>(
    rt: &R,
    alloc: Global,
    locked: &mut Locked<IndexDirs, J>,
    pass: &mut Pass<J>,
    delivery: Call,
    unique: &[u8],
) -> Result<Option<Bytes>>
    ensures { IfOk result (λ bytes. bytes ≡ option_map (λ (e : Entry). e.bytes) (finmap.get (mailbox_of (dirs_of locked.new.run)) unique.now)) }
{
    let job = locked.submit(delivery).map_err(|refused| refused.error)?;
    let mut answer = None;
    for _ in 0..u64::MAX {
        answer = locked.step(rt, pass, job, 1000, None)?.out.answer;
        if answer.is_some() {
            break;
        }
    }
    if answer != Some(Answer::Delivered) {
        bail!("not delivered");
    }
    Ok(locked.read(alloc, unique)?)
}
