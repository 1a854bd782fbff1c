// What keeps the messages of a directory in order.
ghost use Rattle.std.specs.Prelude.{◌≡◌, List, None, Some, IfOk, OnOk, OnErr, unwrap_or};
ghost use Rattle.std.specs.Option.{option_map};
ghost use Rattle.md_listing.specs.Readings.{IsInOrder};
ghost use Rattle.md_view.specs.Held.{entry_with, renamed, DiffersAt};
ghost use Rattle.md_listing.specs.declared.entry.Entry.{Entry};

use md_listing::EntryRef;
use std::alloc::{AllocError, Global};

/// Entries in order of unique name, none twice.
pub trait EntryList: Drop {
    /// The entries in their order.
    ghost shown: { Self → List Entry };

    /// The list of entries that are in order, with copies of their names.
    fn of(alloc: Global, all: Vec<EntryRef<'_>>) -> Result<Self, AllocError>
    where
        Self: Sized,
        requires { IsInOrder all.items }
        ensures { IfOk result (λ list. shown list ≡ all.entry.items) };

    /// The entries in their order, lent one by one.
    fn lent(&self, alloc: Global) -> Result<Vec<EntryRef<'_>>, AllocError>
        ensures { IfOk result (λ all. all.items ≡ shown self.now) };

    /// The entry of a unique name.
    fn find(&self, unique: &[u8]) -> Option<EntryRef<'_>>
        requires { IsInOrder (shown self.now) }
        ensures { result ≡ entry_with unique.now (shown self.now) };

    /// Puts a copy of an entry in its place, or in that of the entry of its unique name, if there is one.
    fn put(&mut self, alloc: Global, entry: EntryRef<'_>) -> Result<(), AllocError>
        requires { IsInOrder (shown self.old) }
        ensures ok { OnOk result (DiffersAt entry.entry.unique (Some entry.entry) (shown self.old) (shown self.new)) }
        ensures err { OnErr result (shown self.new ≡ shown self.old) };

    /// Puts a copy of an entry in its place, where there is none of its unique name.
    fn put_new(&mut self, alloc: Global, entry: EntryRef<'_>) -> Result<(), AllocError>
        requires { IsInOrder (shown self.old) }
        ensures ok { let kept = unwrap_or (entry_with entry.entry.unique (shown self.old)) entry.entry in
            OnOk result (DiffersAt entry.entry.unique (Some kept) (shown self.old) (shown self.new)) }
        ensures err { OnErr result (shown self.new ≡ shown self.old) }
    {
        if self.find(entry.unique()).is_some() {
            return Ok(());
        }
        self.put(alloc, entry)
    }

    /// Gives the entry of a unique name another name, if it has the old one. No entry moves.
    fn rename(
        &mut self,
        alloc: Global,
        unique: &[u8],
        name: &[u8],
        to_name: &[u8],
    ) -> Result<(), AllocError>
        requires { IsInOrder (shown self.old) }
        ensures ok { let entry = option_map (renamed name.now to_name.now) (entry_with unique.now (shown self.old)) in
            OnOk result (DiffersAt unique.now entry (shown self.old) (shown self.new)) }
        ensures err { OnErr result (shown self.new ≡ shown self.old) };

    /// Takes the entry of a unique name out, if there is one. It takes no memory.
    fn take(&mut self, unique: &[u8])
        requires { IsInOrder (shown self.old) }
        ensures { DiffersAt unique.now None (shown self.old) (shown self.new) };
}
