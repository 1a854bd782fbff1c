//! One delivery, from the call to the listing.
ghost use Rattle.std.specs.Prelude.{◌≡◌, [], IfOk};

use anyhow::{Result, bail};
use md_core::{Answer, Call, World};
use md_dirs::{Bytes, IndexDirs};
use md_view::{Entry, list};
use std::alloc::{AllocError, Global};

/// A world of one folder, without a message.
pub fn new_world(alloc: Global) -> Result<World<IndexDirs>>
    ensures { IfOk result (λ w. w.events ≡ []) }
{
    let dirs = IndexDirs::new(alloc, 1);
    Ok(World::load(alloc, dirs).map_err(|refused| refused.error)?)
}

/// The call that delivers a message to the first folder.
pub fn delivery(alloc: Global, unique: &[u8], body: &[u8]) -> Result<Call, AllocError> {
    Ok(Call::Deliver {
        folder: 0,
        unique: Bytes::copied(alloc, unique)?,
        body: Bytes::copied(alloc, body)?,
        chunk: 4096,
    })
}

/// Delivers a message to the first folder of a world, and lists the folder.
pub fn deliver(
    alloc: Global,
    world: &mut World<IndexDirs>,
    unique: &[u8],
    body: &[u8],
) -> Result<Vec<Entry>> {
    let call = delivery(alloc, unique, body)?;
    let job = world.submit(call).map_err(|refused| refused.error)?;
    for _ in 0..u64::MAX {
        if world.answer(job).is_some() {
            break;
        }
        world.step(job, 1000, None)?;
    }
    if world.answer(job) != Some(Answer::Delivered) {
        bail!("not delivered");
    }
    // A refusal only makes the listing slower.
    let _arranged = world.arrange(0);
    Ok(list(alloc, world, 0)?)
}
