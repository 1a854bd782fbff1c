//! What is read of a world so that another can be loaded like it: the stamps, the sizes and the bytes of all files, those of tmp too.
ghost use Rattle.std.specs.Prelude.{◌≡◌};
ghost use Rattle.md_ffi.specs.Doing.{OnHeld};
ghost use Rattle.md_ffi.specs.Keeping.{contents_at, row_at, ShowsRow};
ghost use Rattle.md_driven.specs.Laying.{LaysOrRefuses};
ghost use Rattle.md_driven.specs.Numbers.{status_number};

use crate::handle::Handle;
use crate::held::Held;
use md_dirs::Dirs;
use md_driven::{Refusal, lay, place_of, status};
use std::alloc::Global;

/// What is shown of a name in a directory: the stamp of its file in seconds, and its size in bytes.
#[repr(C)]
#[derive(Clone, Copy)]
pub struct RowShown {
    pub stamp: u64,
    pub size: u64,
}

#[tactic(auto, unfolding(crate::specs::Keeping::row_at))]
fn show_row(
    held: &mut Held,
    folder: u32,
    place: u32,
    at: u64,
    shown: &mut RowShown,
) -> Result<(), Refusal>
    ensures same { held.new.world ≡ held.old.world }
    ensures row { ShowsRow (row_at held.old.world folder place at) shown.old shown.new (status_number result) }
{
    let Some(place) = place_of(place) else {
        return Err(Refusal::NoPlace);
    };
    // Where memory is refused to this, the row is the same, later.
    let _arranged = held.world.arrange_directory(folder, place);
    match held.world.names(folder, place, at as usize) {
        Some(row) => {
            *shown = RowShown {
                stamp: row.stamp(),
                size: row.size(),
            };
            Ok(())
        }
        None => Err(Refusal::NotThere),
    }
}

#[tactic(auto, unfolding(crate::specs::Keeping::contents_at))]
fn read_file(
    held: &Held,
    folder: u32,
    place: u32,
    name: &[u8],
    out: &mut [u8],
    length: &mut usize,
) -> Result<(), Refusal>
    ensures { LaysOrRefuses (contents_at held.now.world folder place name.now) out.old out.new length.old length.new (status_number result) }
{
    let Some(place) = place_of(place) else {
        return Err(Refusal::NoPlace);
    };
    match held.world.dirs().read(folder, place, name) {
        Some(bytes) => lay(bytes, out, length),
        None => Err(Refusal::NotThere),
    }
}

/// Shows the stamp and the size of the file of the name at a position of a directory, from 0 in the order of the names. Refused `Closed`,
/// `NoPlace` and `NotThere`, with `row` as it was. The world stays as it is.
#[unsafe(no_mangle)]
pub extern "C" fn md_ffi_row(
    alloc: Global,
    handle: &mut Handle,
    folder: u32,
    place: u32,
    at: u64,
    row: &mut RowShown,
) -> u32
    ensures same { handle.new.slot.held ≡ handle.old.slot.held }
    ensures row { OnHeld handle.old.slot.held handle.new.slot.held result (row.new ≡ row.old)
        (λ run _. ShowsRow (row_at run folder place at) row.old row.new result) }
{
    let Some(mut held) = handle.take(alloc) else {
        return Refusal::Closed.number();
    };
    let shown = show_row(&mut held, folder, place, at, row);
    handle.hold(held);
    status(shown)
}

/// Lays the bytes of the file of a name of a directory into `out`, and sets `length` to how many they are. Refused `Closed`, `NoPlace`,
/// `NotThere`, with `length` as it was, and `Room`, with it set. The world stays as it is.
#[unsafe(no_mangle)]
pub extern "C" fn md_ffi_file(
    alloc: Global,
    handle: &mut Handle,
    folder: u32,
    place: u32,
    name: &[u8],
    out: &mut [u8],
    length: &mut usize,
) -> u32
    ensures same { handle.new.slot.held ≡ handle.old.slot.held }
    ensures file { OnHeld handle.old.slot.held handle.new.slot.held result ((out.new ≡ out.old) × (length.new ≡ length.old))
        (λ run _. LaysOrRefuses (contents_at run folder place name.now) out.old out.new length.old length.new result) }
{
    let Some(held) = handle.take(alloc) else {
        return Refusal::Closed.number();
    };
    let read = read_file(&held, folder, place, name, out, length);
    handle.hold(held);
    status(read)
}
