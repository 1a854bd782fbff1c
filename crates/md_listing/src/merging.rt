// Two readings in order, merged one entry after another: the entries that are left, the two looked through as one list, and made one list.
ghost use Rattle.std.specs.Prelude.{◌≡◌, ◌*◌, ◌≤◌, ◌∷◌, [], IfOk, MatchOption, length, List, drop, IfErr};
ghost use Rattle.md_listing.specs.Readings.{join_of, IsInOrder};
ghost use Rattle.md_listing.specs.declared.entry.Entry.{Entry};
ghost use Rattle.md_listing.specs.declared.error.ViewError.TheVariants.{NoMemory};

use crate::comparing::compare;
use crate::entry::{Entry, EntryRef, copied, lend};
use crate::error::ViewError;
use std::alloc::{AllocError, Global};
use std::cmp::Ordering;
use std::marker::Model;

/// The entries of a listing that are left, in order of unique name: those of cur, and those of new whose unique name isn't in cur.
#[derive(Drop)]
pub struct Entries<'s, 'a> {
    of_new: &'s [EntryRef<'a>],
    of_cur: &'s [EntryRef<'a>],
    // How many of each are left no more.
    from_new: usize,
    from_cur: usize,
}

impl<'s, 'a> Model for Entries<'s, 'a> {
    ghost Value = { List Entry };

    ghost view = { λ e. join_of (drop e.from_new e.of_new.now) (drop e.from_cur e.of_cur.now) };

    ghost invariant = { λ e. IsInOrder e.of_new.now × IsInOrder e.of_cur.now };
}

impl<'s, 'a> Entries<'s, 'a> {
    pub(crate) fn of(new: &'s [EntryRef<'a>], cur: &'s [EntryRef<'a>]) -> Self
        requires new { IsInOrder new.now }
        requires cur { IsInOrder cur.now }
        ensures { result ≡ join_of new.now cur.now }
    {
        Entries {
            of_new: new,
            of_cur: cur,
            from_new: 0,
            from_cur: 0,
        }
    }

    /// How many are left at most: an entry of new that cur has too counts twice, so that these are at least half as many.
    pub fn at_most(&self) -> usize
        ensures most { length self.now ≤ result }
        ensures half { result ≤ 2 * length self.now }
    {
        let of_new = self.of_new.len().saturating_sub(self.from_new);
        let of_cur = self.of_cur.len().saturating_sub(self.from_cur);
        of_new + of_cur
    }

    /// The first one that is left. It is left no more.
    #[inline(always)]
    pub fn next(&mut self) -> Option<&'s EntryRef<'a>>
        ensures { MatchOption result ((self.old ≡ []) × (self.new ≡ [])) (λ entry. self.old ≡ entry.now ∷ self.new) }
    {
        let Some(entry) = self.of_new.get(self.from_new) else {
            let other = self.of_cur.get(self.from_cur)?;
            self.from_cur += 1;
            return Some(other);
        };
        let Some(other) = self.of_cur.get(self.from_cur) else {
            self.from_new += 1;
            return Some(entry);
        };
        match compare(entry.unique(), other.unique()) {
            Ordering::Less => {
                self.from_new += 1;
                Some(entry)
            }
            Ordering::Equal => {
                self.from_new += 1;
                self.from_cur += 1;
                Some(other)
            }
            Ordering::Greater => {
                self.from_cur += 1;
                Some(other)
            }
        }
    }

    /// A list of those that are left: one allocation, and no name is copied. It is refused only when out of memory.
    pub fn collect(self, alloc: Global) -> Result<Vec<EntryRef<'a>>, AllocError>
        ensures { IfOk result (λ all. all.items ≡ self.entry) }
    {
        let mut left = self;
        let mut all = Vec::new(alloc);
        all.reserve(left.at_most())?;
        while let Some(entry) = left.next() {
            all.push_reserved(entry.again());
        }
        Ok(all)
    }
}

/// The listing of a folder, its names lent: a reading of new and one of cur, which are joined as they are looked through and never lie in
/// memory as one list. Contracts see that list, the join of the two.
#[derive(Drop)]
pub struct Listing<'a> {
    new: Vec<EntryRef<'a>>,
    cur: Vec<EntryRef<'a>>,
}

impl<'a> Model for Listing<'a> {
    ghost Value = { List Entry };

    ghost view = { λ l. join_of l.new.items l.cur.items };

    ghost invariant = { λ l. IsInOrder l.new.items × IsInOrder l.cur.items };
}

impl<'a> Listing<'a> {
    pub(crate) fn of(new: Vec<EntryRef<'a>>, cur: Vec<EntryRef<'a>>) -> Self
        requires new { IsInOrder new.items }
        requires cur { IsInOrder cur.items }
        ensures { result ≡ join_of new.entry.items cur.entry.items }
    {
        Listing { new, cur }
    }

    /// Its entries, one after another: each look through them compares the two readings anew.
    pub fn entries(&self) -> Entries<'_, 'a>
        ensures { result ≡ self.now }
    {
        Entries::of(&self.new, &self.cur)
    }

    /// Its entries as one list. Where one of the readings is empty it is the other; else it is one allocation. No name is copied.
    pub fn into_vec(self, alloc: Global) -> Result<Vec<EntryRef<'a>>, AllocError>
        ensures { IfOk result (λ all. all.items ≡ self.entry) }
    {
        if self.new.is_empty() {
            return Ok(self.cur);
        }
        if self.cur.is_empty() {
            return Ok(self.new);
        }
        self.entries().collect(alloc)
    }
}

/// The listing of a folder: the entries of cur, and those of new whose unique name isn't in cur, in order of unique name.
///
/// New is to be read before cur: a message that is moved from new to cur between them is then in both, and cur counts. Both lists are in
/// order of unique name, none twice, as `reading` gives them. It is refused only when out of memory.
pub fn join(alloc: Global, new: &[Entry], cur: &[Entry]) -> Result<Vec<Entry>, ViewError>
    requires new { IsInOrder new.now }
    requires cur { IsInOrder cur.now }
    ensures entries { IfOk result (λ all. all.items ≡ join_of new.now cur.now) }
    ensures order { IfOk result (λ all. IsInOrder all.items) }
    ensures refusal { IfErr result (λ error. error ≡ NoMemory) }
{
    let new = lend(alloc, new)?;
    let cur = lend(alloc, cur)?;
    let all = join_lent(alloc, &new, &cur)?;
    Ok(copied(alloc, &all)?)
}

/// The same of lent entries: one allocation, and no name is copied. It is refused only when out of memory.
pub fn join_lent<'a>(
    alloc: Global,
    new: &[EntryRef<'a>],
    cur: &[EntryRef<'a>],
) -> Result<Vec<EntryRef<'a>>, AllocError>
    requires new { IsInOrder new.now }
    requires cur { IsInOrder cur.now }
    ensures entries { IfOk result (λ all. all.items ≡ join_of new.now cur.now) }
    ensures order { IfOk result (λ all. IsInOrder all.items) }
{
    Entries::of(new, cur).collect(alloc)
}
