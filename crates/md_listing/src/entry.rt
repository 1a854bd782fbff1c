// What a listing shows of a message.
ghost use Rattle.std.specs.Prelude.{◌≡◌, ◌<◌, IfOk, IfSome, length, position, true};
ghost use Rattle.md_name.specs.Names.{is_colon, unique_of};
ghost use Rattle.md_listing.specs.Rows.{entry_of_row};
ghost use Rattle.md_listing.specs.declared.entry.Entry.{Entry};

use md_dirs::{Place, RowRef};
use md_name::{Bytes, colon_after, first_colon, is_message};
use std::alloc::{AllocError, Global};
use std::marker::Model;

/// What a listing shows of a message: its unique name, whether it is in new or cur, its whole file name, and its size in bytes.
#[derive(Debug, PartialEq, Drop)]
pub struct Entry {
    pub unique: Bytes,
    pub place: Place,
    pub name: Bytes,
    pub size: u64,
}

impl Entry {
    /// The same entry, its names lent.
    pub fn lent(&self) -> EntryRef<'_>
        ensures { result ≡ self.now }
    {
        EntryRef::new(
            self.unique.as_slice(),
            self.place,
            self.name.as_slice(),
            self.size,
        )
    }
}

/// An entry whose names are lent, by a directory or by another entry. Contracts see it as an entry.
#[derive(Drop)]
pub struct EntryRef<'a> {
    unique: &'a [u8],
    name: &'a [u8],
    size: u64,
    place: Place,
    // The unique name is known to be that of the name, whose colon is found by it with no look.
    is_own: bool,
}

impl<'a> Model for EntryRef<'a> {
    ghost Value = { Entry };

    ghost view = { λ e. record { unique = e.unique.now; place = e.place; name = e.name.now; size = e.size } };

    ghost invariant = { λ e. e.is_own ≡ true → e.unique.now ≡ unique_of e.name.now };
}

impl<'a> EntryRef<'a> {
    /// An entry whose names are lent: its unique name, where it is, its whole file name, and its size in bytes. No byte is looked at.
    pub fn new(unique: &'a [u8], place: Place, name: &'a [u8], size: u64) -> Self
        ensures { result ≡ record { unique = unique.now; place = place; name = name.now; size = size } }
    {
        EntryRef::known(unique, place, name, size, false)
    }

    /// The same, where it may be known that the unique name is that of the name.
    pub(crate) fn known(
        unique: &'a [u8],
        place: Place,
        name: &'a [u8],
        size: u64,
        is_own: bool,
    ) -> Self
        requires { is_own ≡ true → unique.now ≡ unique_of name.now }
        ensures { result ≡ record { unique = unique.now; place = place; name = name.now; size = size } }
    {
        EntryRef {
            unique,
            name,
            size,
            place,
            is_own,
        }
    }

    /// Whether the unique name is known to be that of the name.
    pub(crate) fn is_own(&self) -> bool
        ensures { result ≡ true → self.now.unique ≡ unique_of self.now.name }
    {
        self.is_own
    }

    /// The unique name of the message.
    pub fn unique(&self) -> &'a [u8]
        ensures { result.now ≡ self.now.unique }
    {
        self.unique
    }

    /// Whether the message is in new or cur.
    pub fn place(&self) -> Place
        ensures { result ≡ self.now.place }
    {
        self.place
    }

    /// The whole name of the message's file.
    pub fn name(&self) -> &'a [u8]
        ensures { result.now ≡ self.now.name }
    {
        self.name
    }

    /// Where the first colon of the whole name is, before the info. Of a directory's entry no byte is looked at.
    pub fn colon(&self) -> Option<usize>
        ensures found { result ≡ position is_colon self.now.name }
        ensures within { IfSome result (λ at. at < length self.now.name) }
    {
        if self.is_own {
            colon_after(self.name, self.unique)
        } else {
            first_colon(self.name)
        }
    }

    /// The size of the message in bytes.
    pub fn size(&self) -> u64
        ensures { result ≡ self.now.size }
    {
        self.size
    }

    /// The same entry, lent once more.
    pub(crate) fn again(&self) -> EntryRef<'a>
        ensures { result ≡ self.now }
    {
        EntryRef::known(self.unique, self.place, self.name, self.size, self.is_own)
    }

    /// A copy that owns its names, an allocation for each. It is refused only when out of memory.
    pub fn copied(&self, alloc: Global) -> Result<Entry, AllocError>
        ensures { IfOk result (λ entry. entry ≡ self.now) }
    {
        Ok(Entry {
            unique: Bytes::copied(alloc, self.unique)?,
            place: self.place,
            name: Bytes::copied(alloc, self.name)?,
            size: self.size,
        })
    }

    #[tactic(auto, using(crate::proofs::Parts::entry_by, crate::proofs::Parts::no_entry))]
    pub(crate) fn of_row(place: Place, row: &RowRef<'a>) -> Option<EntryRef<'a>>
        ensures { result ≡ entry_of_row place row.now }
    {
        let unique = row.unique();
        if !is_message(row.name(), unique) {
            return None;
        }
        Some(EntryRef::known(unique, place, row.name(), row.size(), true))
    }
}

/// Entries, lent one by one: one allocation, and no name is copied. It is refused only when out of memory.
pub fn lend(alloc: Global, entries: &[Entry]) -> Result<Vec<EntryRef<'_>>, AllocError>
    ensures { IfOk result (λ all. all.items ≡ entries.now) }
{
    let mut all = Vec::with_capacity(alloc, entries.len())?;
    for entry in entries {
        all.push(entry.lent())?;
    }
    Ok(all)
}

/// Copies of entries that own their names: one allocation for the list, and two for each entry. It is refused only when out of memory.
pub fn copied(alloc: Global, entries: &[EntryRef<'_>]) -> Result<Vec<Entry>, AllocError>
    ensures { IfOk result (λ all. all.items ≡ entries.now) }
{
    let mut all = Vec::with_capacity(alloc, entries.len())?;
    for entry in entries {
        all.push(entry.copied(alloc)?)?;
    }
    Ok(all)
}
