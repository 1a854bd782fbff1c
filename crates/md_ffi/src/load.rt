//! Worlds that are loaded and let go.
ghost use Rattle.std.specs.Prelude.{◌≡◌, ◌⊎◌, None, Ok, Err, MatchResult};
ghost use Rattle.md_script.specs.Kinds.{at_no_line};
ghost use Rattle.md_script.specs.declared.error.PlayKind.TheVariants.{NoMemory};
ghost use Rattle.md_ffi.specs.Doing.{free_number};
ghost use Rattle.md_ffi.specs.Loads.{loaded, GivesWorld};

use crate::handle::Handle;
use crate::held::Held;
use crate::seed::seed_of;
use md_dirs::HashSeed;
use md_driven::Refusal;
use md_script::{PlayError, image, load};
use std::alloc::{AllocError, Global};

// The store that lines load, which hashes names by a seed.
#[tactic(auto, unfolding(crate::specs::Loads::loaded))]
fn held_of(alloc: Global, seed: HashSeed, lines: &[u8]) -> Result<Box<Held>, PlayError>
    ensures { MatchResult result
        (λ held. loaded lines.now ≡ Ok held.value.world)
        (λ e. (e ≡ at_no_line NoMemory) ⊎ (loaded lines.now ≡ Err e)) }
{
    let setup = image(alloc, lines, false)?;
    let files = setup.files;
    let world = load(alloc, seed, &setup.folders, files)?;
    Ok(Box::new(alloc, Held { world }).map_err(|_| AllocError)?)
}

/// Opens a handle over the folders and files of `folder` and `file` lines, and sets `line` to 0. What the handle held is let go first.
///
/// A refused line is named by its number, from 1; what no line is to blame for has the line 0. The handle is closed then. Names are hashed by
/// the first 16 random bytes, or the same way in each run where there are fewer.
#[unsafe(no_mangle)]
pub extern "C" fn md_ffi_load(
    alloc: Global,
    lines: &[u8],
    random: &[u8],
    handle: &mut Handle,
    line: &mut u64,
) -> u32
    ensures { GivesWorld lines.now handle.new.slot.held result line.new }
{
    let _old = handle.take(alloc);
    match held_of(alloc, seed_of(random), lines) {
        Ok(held) => {
            handle.hold(held);
            *line = 0;
            0
        }
        Err(refused) => {
            *line = refused.line;
            Refusal::Kind(refused.kind).number()
        }
    }
}

/// Closes a handle, and lets go what it held. Refused `Closed` where it is closed.
#[unsafe(no_mangle)]
pub extern "C" fn md_ffi_free(alloc: Global, handle: &mut Handle) -> u32
    ensures closed { handle.new.slot.held ≡ None }
    ensures status { result ≡ free_number handle.old.slot.held }
{
    match handle.take(alloc) {
        Some(_held) => 0,
        None => Refusal::Closed.number(),
    }
}
