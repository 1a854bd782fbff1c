ghost use Rattle.std.specs.Prelude.{◌≡◌};
ghost use Rattle.md_dirs.specs.declared.paths.Place.TheVariants.{New};
ghost use Rattle.md_listing.specs.Readings.{IsInOrder};
ghost use Rattle.md_store.specs.Listing.{IsLegalFrom, read_at, Reading};
ghost use Rattle.std.specs.Coded.{codes};
ghost use Rattle.md_name.specs.contracts.flags.Flags as flags;

use crate::book::Front;
use crate::naming::Naming;
use md_view::Entry;
use std::marker::{Model, PhantomData};

/// New of a folder, read at some moment: the first half of a listing of a store. Its entries are in order of unique name, none twice.
/// Contracts see its folder, its entries, and the history at whose end they were read.
#[derive(Drop)]
pub struct FirstReading<J: Naming> {
    folder: u32,
    entries: Vec<Entry>,
    front: Front,
    of: PhantomData<J>,
}

impl<J: Naming> Model for FirstReading<J> {
    ghost Value = { Reading };

    ghost coded = { Prim.hlevel (codes, flags.the_row.coded) };

    ghost view = { λ r. record { folder = r.folder; entries = r.entries.items; history = r.front.log } };

    ghost invariant = { λ r. IsInOrder r.entries.items × (r.front.book ≡ J.book) × IsLegalFrom J.opening r.front.log
        × (r.entries.items ≡ read_at r.folder New J.opening r.front.log) };
}

impl<J: Naming> FirstReading<J> {
    pub(crate) fn new(folder: u32, entries: Vec<Entry>, front: Front) -> FirstReading<J>
        requires order { IsInOrder entries.items }
        requires named { front.book ≡ J.book }
        requires legal { IsLegalFrom J.opening front.log }
        requires entries { entries.items ≡ read_at folder New J.opening front.log }
        ensures { (result.folder ≡ folder) × (result.entries ≡ entries.items) × (result.history ≡ front.log) }
    {
        FirstReading {
            folder,
            entries,
            front,
            of: PhantomData,
        }
    }

    /// What the type keeps of any first reading: its entries are those of new at the end of its history, which is legal.
    pub fn is_read(&self)
        ensures entries { self.now.entries ≡ read_at self.now.folder New J.opening self.now.history }
        ensures legal { IsLegalFrom J.opening self.now.history }
    {
        // A field is looked at, so that what the type keeps is known here.
        let _kept = &self.front;
    }

    pub(crate) fn front(&self) -> &Front
        ensures { (result.now.log ≡ self.now.history) × (result.now.book ≡ J.book) }
    {
        &self.front
    }

    /// The folder that was read.
    pub fn folder(&self) -> u32
        ensures { result ≡ self.now.folder }
    {
        self.folder
    }

    /// The entries of new, lent.
    pub fn entries(&self) -> &[Entry]
        ensures entries { result.now ≡ self.now.entries }
        ensures order { IsInOrder self.now.entries }
    {
        self.entries.as_slice()
    }
}
