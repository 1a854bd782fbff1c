//! Files by their numbers, each with the number of its names.
ghost use Rattle.std.specs.Prelude.{◌≡◌, ◌<◌, false, Some, None, OnOk, OnErr, MatchOption, IsSome, IsTrue, is_some, length};
ghost use Rattle.md_name.specs.Names.{unique_of};
ghost use Rattle.md_dirs.specs.State.{file_by};
ghost use Rattle.md_dirs.specs.Calls.{is_one_file};
ghost use Rattle.md_dirs.specs.Rows.{row_by};
ghost use Rattle.md_dirs.specs.Files.{files_of, grown_slot, named_less, let_go};
ghost use Rattle.md_dirs.specs.Slots.{slots_of};

use crate::paths::File;
use crate::rows::RowRef;
use crate::slots::Slots;
use md_name::{Bytes, unique_part};
use std::alloc::AllocError;
use std::mem::swap;

/// A file, and how many names it has.
#[derive(Drop)]
pub(crate) struct Kept {
    pub(crate) file: File,
    pub(crate) names: usize,
}

// Whether a path names that file.
pub(crate) fn is_same(there: Option<usize>, file: usize) -> bool
    ensures { result ≡ is_one_file (Some file) there }
{
    match there {
        Some(other) => file == other,
        None => false,
    }
}

// Adds bytes at the end of a file.
pub(crate) fn grow_slot(slot: &mut Option<Kept>, bytes: &[u8], now: u64) -> Result<(), AllocError>
    ensures ok { OnOk result (slot.new ≡ grown_slot bytes.now now slot.old) }
    ensures err { OnErr result (slot.new ≡ slot.old) }
    ensures kept { is_some slot.new ≡ is_some slot.old }
{
    if let Some(kept) = slot {
        kept.file.bytes.extend(bytes)?;
        kept.file.stamp = now;
    }
    Ok(())
}

// Adds all bytes of a body at the end of a file. A file without bytes takes the body itself, and what it had is left in its place.
pub(crate) fn fill_slot(
    slot: &mut Option<Kept>,
    body: &mut Bytes,
    now: u64,
) -> Result<(), AllocError>
    ensures ok { OnOk result (slot.new ≡ grown_slot body.old now slot.old) }
    ensures err { OnErr result (slot.new ≡ slot.old) }
    ensures kept { is_some slot.new ≡ is_some slot.old }
    ensures body { OnErr result (body.new ≡ body.old) }
{
    if let Some(Kept { file, .. }) = slot {
        if file.bytes.is_empty() {
            swap(&mut file.bytes, body);
        } else {
            file.bytes.extend(body.as_slice())?;
        }
        file.stamp = now;
    }
    Ok(())
}

// Counts one name less of a file, and gives it back where that was its last: whether it was.
pub(crate) fn release_slot(slot: &mut Option<Kept>) -> bool
    ensures less { slot.new ≡ named_less slot.old }
    ensures gone { IsTrue result → IsSome slot.old × (slot.new ≡ None) }
    ensures kept { result ≡ false → is_some slot.new ≡ is_some slot.old }
{
    let Some(kept) = slot else {
        return false;
    };
    if kept.names > 1 {
        kept.names -= 1;
        return false;
    }
    *slot = None;
    true
}

// Takes a name from the file of a number.
pub(crate) fn release_one(slots: &mut Slots, file: Option<usize>)
    requires { MatchOption file (Unit {0}) (λ n. n < length (slots_of slots.old)) }
    ensures { slots_of slots.new ≡ let_go file (slots_of slots.old) }
{
    if let Some(file) = file {
        slots.release(file);
    }
}

// What a directory shows of a name and its file.
pub(crate) fn shown_row<'a>(slots: &'a Slots, name: &'a [u8], file: usize) -> RowRef<'a>
    requires { IsSome (file_by (files_of (slots_of slots.now)) file) }
    ensures { result ≡ row_by name.now (file_by (files_of (slots_of slots.now)) file) }
{
    known_row(slots, name, unique_part(name).len(), file)
}

// The same where it is known how many bytes the unique part of the name has.
#[inline(always)]
pub(crate) fn known_row<'a>(
    slots: &'a Slots,
    name: &'a [u8],
    unique: usize,
    file: usize,
) -> RowRef<'a>
    requires unique { unique ≡ length (unique_of name.now) }
    requires file { IsSome (file_by (files_of (slots_of slots.now)) file) }
    ensures { result ≡ row_by name.now (file_by (files_of (slots_of slots.now)) file) }
{
    let Some(kept) = slots.get(file) else {
        unreachable!();
    };
    RowRef::known(name, unique, kept.file.stamp, kept.file.bytes.len() as u64)
}
