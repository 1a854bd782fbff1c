//! The lines of listings.
ghost use Rattle.std.specs.Prelude.{◌≡◌, ◌≤◌, ◌++◌, IfOk, OnOk, take, length};
ghost use mathlib.Core.List.{IsPrefix};
ghost use Rattle.md_script.specs.Texts.{entry_line, entries_text};

use crate::digits::push_line;
use crate::entry_line::{LONGEST_USUAL, lay_line};
use crate::flags::push_flags;
use md_text::place_text;
use md_view::{Entry, EntryRef, Listing};
use std::alloc::AllocError;

/// How many bytes a line has at most for the names of usual deliverers.
const USUAL_LINE: usize = 64;

/// How many bytes the lines have at most that gather before they are appended at once.
const BUFFER: usize = 2048;

/// Appends the lines of a listing, `PLACE UNIQUE FLAGS SIZE` for each entry.
///
/// The flags are letters in ASCII order, `-` where there are none, and `?` where the info of the name is no list of flags. The size is in
/// bytes. Where memory runs out, some of the lines may have been appended.
#[tactic(auto, using(md_text::proofs::Growing::grown, md_text::proofs::Growing::grown_if, md_text::proofs::Growing::grown_on))]
pub fn push_entries(out: &mut Vec<u8>, entries: &[Entry]) -> Result<(), AllocError>
    ensures text { OnOk result (out.new.items ≡ out.old.items ++ entries_text entries.now) }
    ensures kept { IsPrefix out.old.items out.new.items }
{
    for entry in entries {
        push_entry(out, &entry.lent())?;
    }
    Ok(())
}

/// The same for a listing whose entries are lent.
pub(crate) fn push_listing(out: &mut Vec<u8>, listing: &Listing<'_>) -> Result<(), AllocError>
    ensures { OnOk result (out.new.items ≡ out.old.items ++ entries_text listing.now) }
{
    let mut entries = listing.entries();
    // Room for all lines at once, so that what is printed is moved once at most.
    out.reserve(entries.at_most().saturating_mul(USUAL_LINE))?;
    let mut lines = [0; BUFFER];
    let buffer = &mut lines[..];
    let mut filled = 0;
    while let Some(entry) = entries.next() {
        filled = put_entry(out, buffer, filled, entry)?;
    }
    out.extend_from_slice(&buffer[..filled])
}

/// Puts the line of an entry behind those that fill a buffer, and gives how far the buffer is filled then. Where it is too full, or the line
/// is no usual one, the lines are appended first.
#[inline(always)]
fn put_entry(
    out: &mut Vec<u8>,
    buffer: &mut [u8],
    filled: usize,
    entry: &EntryRef<'_>,
) -> Result<usize, AllocError>
    requires within { filled ≤ length buffer.old }
    requires long { 162 ≤ length buffer.old }
    ensures lines { IfOk result (λ end. out.new.items ++ take end buffer.new ≡ (out.old.items ++ take filled buffer.old) ++ entry_line entry.now) }
    ensures within { IfOk result (λ end. end ≤ length buffer.new) }
    ensures length { length buffer.new ≡ length buffer.old }
{
    let mut at = filled;
    if buffer.len() - at < LONGEST_USUAL {
        out.extend_from_slice(&buffer[..at])?;
        at = 0;
    }
    if let Some(end) = lay_line(buffer, at, entry) {
        return Ok(end);
    }
    out.extend_from_slice(&buffer[..at])?;
    push_entry(out, entry)?;
    Ok(0)
}

/// Appends the line of an entry.
#[tactic(auto, using(md_text::proofs::Growing::grown, md_text::proofs::Growing::grown_if, md_text::proofs::Growing::grown_on))]
fn push_entry(out: &mut Vec<u8>, entry: &EntryRef<'_>) -> Result<(), AllocError>
    ensures text { OnOk result (out.new.items ≡ out.old.items ++ entry_line entry.now) }
    ensures kept { IsPrefix out.old.items out.new.items }
{
    out.extend_from_slice(place_text(entry.place()))?;
    out.push(b' ')?;
    out.extend_from_slice(entry.unique())?;
    out.push(b' ')?;
    push_flags(out, entry.name(), entry.colon())?;
    out.push(b' ')?;
    push_line(out, entry.size(), *b"00000000000000000000\n")
}
