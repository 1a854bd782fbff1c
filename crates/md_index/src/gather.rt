//! Puts together what the workers brought.
ghost use Rattle.std.specs.Prelude.{◌≡◌, List, All, IfOk, IfSome, map};
ghost use Rattle.md_index.specs.Index.{IsBrought, indexed_of};
ghost use Rattle.md_index.specs.declared.item.Message.{Message};

use crate::gate::Gate;
use crate::item::{Indexed, Message};
use crate::worker_entries::WorkerEntries;
use std::alloc::{AllocError, Global};

/// The entries in the messages' order. One that is no worker's next at its turn is made here.
pub(crate) fn gathered<G: Gate>(
    alloc: Global,
    messages: &[Message<'_>],
    given: &mut [WorkerEntries<'_>],
    gate: &G,
) -> Result<Vec<Indexed>, AllocError>
    requires { All (λ whose. whose ≡ messages.now) given.old }
    ensures { IfOk result (λ all. all.items ≡ map indexed_of messages.now) }
{
    let mut all = Vec::with_capacity(alloc, messages.len())?;
    for item in 0..messages.len() {
        match taken(given, item) {
            Some(made) => all.push_reserved(made),
            None => {
                let made = messages[item].indexed(alloc, item, gate)?;
                all.push_reserved(made);
            }
        }
    }
    Ok(all)
}

// The entry of this number, if it is the next that some worker brought.
fn taken(given: &mut [WorkerEntries<'_>], item: usize) -> Option<Indexed>
    ensures same { given.new ≡ given.old }
    ensures entry { (messages : List Message) → All (λ whose. whose ≡ messages) given.old → IfSome result (λ made. IsBrought messages (item, made)) }
{
    for worker in 0..given.len() {
        if let Some(made) = given[worker].take(item) {
            return Some(made);
        }
    }
    None
}
