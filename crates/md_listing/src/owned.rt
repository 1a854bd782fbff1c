// Entries that own their names together.
ghost use Rattle.std.specs.Prelude.{◌≡◌, IfOk, OnOk, take, length, List, map, All};
ghost use Rattle.md_listing.specs.Rows.{entry_of, IsWithin};
ghost use Rattle.md_listing.specs.declared.entry.Entry.{Entry};

use crate::entry::EntryRef;
use md_dirs::Place;
use std::alloc::{AllocError, Global};
use std::marker::Model;

// Where the names of an entry stand in a text: the whole name, and the unique one, which is its beginning, or else stands behind it.
#[derive(Debug, Clone, Copy)]
struct Piece {
    start: usize,
    middle: usize,
    unique: usize,
    end: usize,
    size: u64,
    place: Place,
}

impl Piece {
    // Appends the name of an entry, and its unique name where the name doesn't begin with it.
    fn put(text: &mut Vec<u8>, entry: &EntryRef<'_>) -> Result<Piece, AllocError>
        ensures text { OnOk result (take (length text.old.items) text.new.items ≡ text.old.items) }
        ensures within { IfOk result (IsWithin text.new.items) }
        ensures entry { IfOk result (λ piece. entry_of text.new.items piece ≡ entry.now) }
    {
        let start = text.len();
        text.extend_from_slice(entry.name())?;
        let middle = text.len();
        let piece = Piece {
            start,
            middle,
            unique: start,
            end: start + entry.unique().len(),
            size: entry.size(),
            place: entry.place(),
        };
        if entry.is_own() {
            return Ok(piece);
        }
        text.extend_from_slice(entry.unique())?;
        Ok(Piece {
            unique: middle,
            end: text.len(),
            ..piece
        })
    }

    fn lent(self, text: &[u8]) -> EntryRef<'_>
        requires { IsWithin text.now self }
        ensures { result ≡ entry_of text.now self }
    {
        EntryRef::known(
            &text[self.unique..self.end],
            self.place,
            &text[self.start..self.middle],
            self.size,
            self.unique < self.middle,
        )
    }
}

/// Entries that own their names, which stand one behind another: they take two allocations, however many there are.
#[derive(Debug, Drop)]
pub struct Owned {
    text: Vec<u8>,
    pieces: Vec<Piece>,
}

impl Model for Owned {
    ghost Value = { List Entry };

    ghost view = { λ o. map (entry_of o.text.items) o.pieces.items };

    ghost invariant = { λ o. All (IsWithin o.text.items) o.pieces.items };
}

impl Owned {
    pub fn copied(alloc: Global, entries: &[EntryRef<'_>]) -> Result<Owned, AllocError>
        ensures { IfOk result (λ owned. owned ≡ entries.now) }
    {
        let mut text = Vec::with_capacity(alloc, length_of(entries))?;
        let mut pieces = Vec::with_capacity(alloc, entries.len())?;
        for entry in entries {
            pieces.push(Piece::put(&mut text, entry)?)?;
        }
        Ok(Owned { text, pieces })
    }

    pub fn lent(&self, alloc: Global) -> Result<Vec<EntryRef<'_>>, AllocError>
        ensures { IfOk result (λ all. all.items ≡ self.now) }
    {
        let mut all = Vec::with_capacity(alloc, self.pieces.len())?;
        for piece in &self.pieces {
            all.push(piece.lent(&self.text))?;
        }
        Ok(all)
    }
}

// How many bytes the names of entries take in a text.
fn length_of(entries: &[EntryRef<'_>]) -> usize {
    let mut bytes: usize = 0;
    for entry in entries {
        let behind = if entry.is_own() {
            0
        } else {
            entry.unique().len()
        };
        bytes = bytes.saturating_add(entry.name().len() + behind);
    }
    bytes
}
