//! What a world shows: the messages of a folder, the bytes of one, and names.
ghost use Rattle.std.specs.Prelude.{◌≡◌, ◌≤◌, ◌+◌, ◌++◌, ◌⊎◌, Ok, Err, IfSome, IsSome, All, MatchResult, length, take, drop};
ghost use Rattle.md_script.specs.declared.error.PlayKind.TheVariants.{NoMemory};
ghost use Rattle.md_ffi.specs.Doing.{OnHeld};
ghost use Rattle.md_driven.specs.Laying.{Gives, LaysOrRefuses};
ghost use Rattle.md_driven.specs.Numbers.{status_number};
ghost use Rattle.md_ffi.specs.Reading.{four_bytes, eight_bytes, entry_bytes, entries_bytes, HasShortName, listed, message_at, name_at};
ghost use Rattle.md_driven.specs.declared.refusal.Refusal.TheVariants.{Kind};

use crate::handle::Handle;
use crate::held::Held;
use md_core::{CoreError, World};
use md_dirs::IndexDirs;
use md_driven::{NO_MEMORY, Refusal, lay, lay_at, place_number, place_of, status};
use md_script::PlayKind;
use md_view::{EntryRef, ViewError, list_lent};
use std::alloc::Global;

// What stands before the name of a message in a listing, in bytes.
const HEADER: usize = 16;

// What stands before the name of a message in a listing: its place, and the lengths of its name and of its bytes. It is copied in one piece,
// since each copy costs as much as a name.
#[tactic(auto, unfolding(crate::specs::Reading::four_bytes, crate::specs::Reading::eight_bytes))]
fn header(place: u32, length: u32, size: u64) -> [u8; 16]
    ensures { result ≡ four_bytes place ++ four_bytes length ++ eight_bytes size }
{
    let (p, l, s) = (
        place.to_le_bytes(),
        length.to_le_bytes(),
        size.to_le_bytes(),
    );
    [
        p[0], p[1], p[2], p[3], l[0], l[1], l[2], l[3], s[0], s[1], s[2], s[3], s[4], s[5], s[6],
        s[7],
    ]
}

// How many bytes messages take in a listing. None where a name is longer than 4 bytes can say or the sum is too great to be a length, which no
// memory comes to.
#[tactic(auto, using(crate::proofs::Listed::length_entry, crate::proofs::Listed::length_more, crate::proofs::Listed::short_more))]
fn listing_length(entries: &[EntryRef<'_>]) -> Option<usize>
    ensures length { IfSome result (λ n. n ≡ length (entries_bytes entries.now)) }
    ensures names { IsSome result → All HasShortName entries.now }
{
    let mut whole: usize = 0;
    for entry in entries {
        let Ok(name) = u32::try_from(entry.name().len()) else {
            return None;
        };
        whole = whole.checked_add(HEADER + name as usize)?;
    }
    Some(whole)
}

// Lays a message of a listing at a position of a buffer that has room for it there: its place, the lengths of its name and of its bytes, and
// its name. It gives the position after it.
#[tactic(auto, using(crate::proofs::Listed::length_entry, crate::proofs::Listed::length_header, md_driven::proofs::Laid::ends_alike_after))]
fn lay_entry(entry: &EntryRef<'_>, out: &mut [u8], at: usize) -> usize
    requires name { HasShortName entry.now }
    requires room { at + length (entry_bytes entry.now) ≤ length out.old }
    ensures after { result ≡ at + length (entry_bytes entry.now) }
    ensures front { take result out.new ≡ take at out.old ++ entry_bytes entry.now }
    ensures rest { drop result out.new ≡ drop result out.old }
{
    let name = entry.name();
    let before = header(place_number(entry.place()), name.len() as u32, entry.size());
    let named = lay_at(&before, out, at);
    lay_at(name, out, named)
}

// Lays messages at the front of a buffer, one after another.
#[tactic(auto, using(crate::proofs::Listed::one_more, crate::proofs::Listed::length_more, crate::proofs::Listed::has_room, md_driven::proofs::Laid::ends_alike_after))]
fn lay_entries(entries: &[EntryRef<'_>], out: &mut [u8])
    requires names { All HasShortName entries.now }
    requires room { length (entries_bytes entries.now) ≤ length out.old }
    ensures { out.new ≡ entries_bytes entries.now ++ drop (length (entries_bytes entries.now)) out.old }
{
    let mut at = 0;
    for entry in entries {
        at = lay_entry(entry, out, at);
    }
}

// The messages of a folder, lent by the world.
#[tactic(auto, unfolding(crate::specs::Reading::listed))]
fn listing<'a>(
    alloc: Global,
    world: &'a World<IndexDirs>,
    folder: u32,
) -> Result<Vec<EntryRef<'a>>, Refusal>
    ensures { MatchResult result
        (λ entries. listed world.now folder ≡ Ok (entries_bytes entries.items))
        (λ e. (e ≡ Kind NoMemory) ⊎ (listed world.now folder ≡ Err e)) }
{
    match list_lent(alloc, world, folder) {
        Ok(listing) => Ok(listing.into_vec(alloc)?),
        Err(ViewError::NoFolder) => Err(Refusal::Kind(PlayKind::Core(CoreError::NoFolder))),
        Err(ViewError::NoMemory) => Err(NO_MEMORY),
    }
}

// Lays the messages of a folder straight into a buffer, since a copy beside it would take as much memory again. The first look over them
// tells how long they are, so that a buffer without room for all of them stays as it was.
fn list(
    alloc: Global,
    held: &Held,
    folder: u32,
    out: &mut [u8],
    length: &mut usize,
) -> Result<(), Refusal>
    ensures { Gives (listed held.now.world folder) out.old out.new length.old length.new (status_number result) }
{
    let entries = listing(alloc, &held.world, folder)?;
    let Some(whole) = listing_length(&entries) else {
        return Err(NO_MEMORY);
    };
    *length = whole;
    if out.len() < whole {
        return Err(Refusal::Room);
    }
    lay_entries(&entries, out);
    Ok(())
}

#[tactic(auto, unfolding(crate::specs::Reading::message_at))]
fn read(held: &Held, unique: &[u8], out: &mut [u8], length: &mut usize) -> Result<(), Refusal>
    ensures { LaysOrRefuses (message_at held.now.world unique.now) out.old out.new length.old length.new (status_number result) }
{
    match held.world.read(unique) {
        Some(bytes) => lay(bytes, out, length),
        None => Err(Refusal::NotThere),
    }
}

#[tactic(auto, unfolding(crate::specs::Reading::name_at))]
fn name(
    held: &mut Held,
    folder: u32,
    place: u32,
    at: u64,
    out: &mut [u8],
    length: &mut usize,
) -> Result<(), Refusal>
    ensures same { held.new.world ≡ held.old.world }
    ensures name { LaysOrRefuses (name_at held.old.world folder place at) out.old out.new length.old length.new (status_number result) }
{
    let Some(place) = place_of(place) else {
        return Err(Refusal::NoPlace);
    };
    // Where memory is refused to this, the name is the same, later.
    let _arranged = held.world.arrange_directory(folder, place);
    match held.world.names(folder, place, at as usize) {
        Some(row) => lay(row.name(), out, length),
        None => Err(Refusal::NotThere),
    }
}

/// Lays the messages of a folder into `out`, in order of unique name: of each its place and the length of its name, in 4 bytes each, the
/// length of its bytes, in 8, all little-endian, and its name. `length` is set to the whole length.
///
/// Refused `Closed`, `NoFolder`, out of memory, with `length` as it was, and `Room`, with it set. The world stays as it is.
#[unsafe(no_mangle)]
pub extern "C" fn md_ffi_list(
    alloc: Global,
    handle: &mut Handle,
    folder: u32,
    out: &mut [u8],
    length: &mut usize,
) -> u32
    ensures same { handle.new.slot.held ≡ handle.old.slot.held }
    ensures listed { OnHeld handle.old.slot.held handle.new.slot.held result ((out.new ≡ out.old) × (length.new ≡ length.old))
        (λ run _. Gives (listed run folder) out.old out.new length.old length.new result) }
{
    let Some(mut held) = handle.take(alloc) else {
        return Refusal::Closed.number();
    };
    // Where memory is refused to this, the listing is the same, later.
    let _arranged = held.world.arrange(folder);
    let listed = list(alloc, &held, folder, out, length);
    handle.hold(held);
    status(listed)
}

/// Lays the bytes of a message into `out`, and sets `length` to how many they are. Refused `Closed`, `NotThere`, with `length` as it was,
/// and `Room`, with it set. The world stays as it is.
#[unsafe(no_mangle)]
pub extern "C" fn md_ffi_read(
    alloc: Global,
    handle: &mut Handle,
    unique: &[u8],
    out: &mut [u8],
    length: &mut usize,
) -> u32
    ensures same { handle.new.slot.held ≡ handle.old.slot.held }
    ensures read { OnHeld handle.old.slot.held handle.new.slot.held result ((out.new ≡ out.old) × (length.new ≡ length.old))
        (λ run _. LaysOrRefuses (message_at run unique.now) out.old out.new length.old length.new result) }
{
    let Some(held) = handle.take(alloc) else {
        return Refusal::Closed.number();
    };
    let read = read(&held, unique, out, length);
    handle.hold(held);
    status(read)
}

/// Lays the name at a position of a directory into `out`, from 0 in their order, and sets `length` to its length. Refused `Closed`,
/// `NoPlace`, `NotThere`, with `length` as it was, and `Room`, with it set. The world stays as it is.
#[unsafe(no_mangle)]
pub extern "C" fn md_ffi_names(
    alloc: Global,
    handle: &mut Handle,
    folder: u32,
    place: u32,
    at: u64,
    out: &mut [u8],
    length: &mut usize,
) -> u32
    ensures same { handle.new.slot.held ≡ handle.old.slot.held }
    ensures name { OnHeld handle.old.slot.held handle.new.slot.held result ((out.new ≡ out.old) × (length.new ≡ length.old))
        (λ run _. LaysOrRefuses (name_at run folder place at) out.old out.new length.old length.new result) }
{
    let Some(mut held) = handle.take(alloc) else {
        return Refusal::Closed.number();
    };
    let named = name(&mut held, folder, place, at, out, length);
    handle.hold(held);
    status(named)
}
