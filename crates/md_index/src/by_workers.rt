//! The index of many messages.
ghost use Rattle.std.specs.Prelude.{◌≡◌, ◌<◌, ◌⊎◌, ◌↔◌, Err, IfOk, map};
ghost use Rattle.md_index.specs.Index.{indexed_of};
ghost use Rattle.md_index.specs.declared.error.IndexError.TheVariants.{BadWorkers};

use crate::deal::dealt;
use crate::error::IndexError;
use crate::gate::Gate;
use crate::gather::gathered;
use crate::item::{Indexed, Message};
use crate::worker::brought_by;
use std::alloc::Global;
use std::sync::Wait;
use std::thread::Threads;

const MOST_WORKERS: usize = 64;

/// The entry of each message, in the messages' order. So many threads make them, but no more than there are messages, and each takes
/// the next message as it becomes free. What they can't make when out of memory is tried once more, in the calling thread.
///
/// It is refused as `BadWorkers`, before anything else, where `workers` is 0 or over 64, and else only when out of memory.
pub fn index<G: Gate, R: Threads + Wait + Sync>(
    rt: &R,
    alloc: Global,
    messages: &[Message<'_>],
    workers: usize,
    gate: &G,
) -> Result<Vec<Indexed>, IndexError>
    ensures entries { IfOk result (λ all. all.items ≡ map indexed_of messages.now) }
    ensures bad_workers { (result ≡ Err BadWorkers) ↔ ((workers ≡ 0) ⊎ (64 < workers)) }
{
    if workers == 0 || workers > MOST_WORKERS {
        return Err(IndexError::BadWorkers);
    }
    let owner = dealt(alloc, messages.len())?;
    let thief = owner.stealer()?;
    let workers = workers.min(messages.len());
    let mut given = brought_by(rt, alloc, &thief, messages, workers, gate)?;
    Ok(gathered(alloc, messages, &mut given, gate)?)
}
