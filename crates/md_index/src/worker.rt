//! What each worker does.
ghost use Rattle.std.specs.Prelude.{◌≡◌, All, IfOk, IfSome};
ghost use Rattle.md_index.specs.Index.{IsBrought};

use crate::deal::{Thief, Took};
use crate::gate::Gate;
use crate::item::Message;
use crate::worker_entries::{Brought, WorkerEntries};
use crossbeam_deque::Steal;
use std::alloc::{AllocError, Global};
use std::sync::Wait;
use std::thread;
use std::thread::Threads;

// The entry of a number that was stolen. None when out of memory, or at a number past the messages, which the owner never pushes.
fn brought<G: Gate>(
    alloc: Global,
    messages: &[Message<'_>],
    item: usize,
    gate: &G,
) -> Option<Brought>
    ensures { IfSome result (IsBrought messages.now) }
{
    let message = messages.get(item)?;
    let made = message.indexed(alloc, item, gate).ok()?;
    Some((item, made))
}

// Steals until nothing is found, or a growth of memory is refused. It begins with room for `share` entries, so that it seldom grows.
fn work<G: Gate, R: Wait>(
    rt: &R,
    alloc: Global,
    thief: &Thief,
    messages: &[Message<'_>],
    share: usize,
    gate: &G,
) -> Vec<Brought>
    ensures { All (IsBrought messages.now) result.items }
{
    let mut all = Vec::new(alloc);
    let _ = all.reserve(share);
    let mut seat = thief.pass();
    for _ in rt.forever() {
        if all.reserve(1).is_err() {
            return all;
        }
        match thief.steal_as::<Took>(&mut seat) {
            Steal::Success(item) => match brought(alloc, messages, item, gate) {
                Some(done) => all.push_reserved(done),
                None => return all,
            },
            Steal::Empty => return all,
            Steal::Retry => {}
        }
    }
    unreachable!()
}

/// What the workers bring.
///
/// None of them is the calling thread, which waits: what a thread allocates stays in the thread's own part of the heap.
pub(crate) fn brought_by<'a, G: Gate, R: Threads + Wait + Sync>(
    rt: &R,
    alloc: Global,
    thief: &Thief,
    messages: &'a [Message<'a>],
    workers: usize,
    gate: &G,
) -> Result<Vec<WorkerEntries<'a>>, AllocError>
    ensures { IfOk result (λ given. All (λ whose. whose ≡ messages.now) given.items) }
{
    let share = messages.len() / workers.max(1);
    let working = || -> Result<Vec<WorkerEntries<'_>>, AllocError>
        ensures { IfOk result (λ given. All (λ whose. whose ≡ messages.entry.now) given.items) }
    {
        thread::map_indices(
            rt,
            alloc,
            workers,
            &|_| -> WorkerEntries<'_>
                ensures { result ≡ messages.entry.now }
            { WorkerEntries::of(messages, work(rt, alloc, thief, messages, share, gate)) },
        )
    };
    let (given, ()) = thread::join(rt, working, || ());
    given
}
