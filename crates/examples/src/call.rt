//! Calls that are made at once, and a world that goes on after its last call.
ghost use Rattle.std.specs.Prelude.{◌≡◌, IfOk};
ghost use Rattle.md_core.specs.Settling.{settled};

use anyhow::Result;
use md_core::{Answer, Call, World};
use md_dirs::{Bytes, IndexDirs};

/// Delivers a message to a folder at one moment. Whether it was delivered.
pub fn deliver_now(
    world: &mut World<IndexDirs>,
    folder: u32,
    unique: Bytes,
    body: Bytes,
    now: u64,
) -> Result<bool> {
    let call = Call::Deliver {
        folder,
        unique,
        body,
        chunk: 4096,
    };
    Ok(world.call(call, now, None)? == Answer::Delivered)
}

/// The world as it is, with room for 10,000 calls again.
pub fn go_on(world: World<IndexDirs>) -> Result<World<IndexDirs>>
    ensures { IfOk result (λ w. w ≡ settled world) }
{
    Ok(world.settle().map_err(|refused| refused.error)?)
}
