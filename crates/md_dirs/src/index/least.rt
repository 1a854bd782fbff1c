//! The least of some names, found by a look at each.
ghost use Rattle.std.specs.Prelude.{◌≡◌, ◌++◌, if◌then◌else◌, slice_get, find as first_with};
ghost use Rattle.std.specs.Option.{option_map};
ghost use Rattle.std.specs.FinMap as finmap;
ghost use Rattle.std.specs.FinMap.{from_entries};
ghost use Rattle.md_dirs.specs.Index.{name_cmp};
ghost use Rattle.md_dirs.specs.Least.{lent_row, takes, lesser as lesser_of};

use crate::index::tables::{Others, Table};
use crate::rows::is_named;

/// Which names are looked for.
#[derive(Clone, Copy)]
pub(crate) enum Wanted<'a> {
    /// A unique name, and what is it, a colon and more.
    Named(&'a [u8]),
    /// Those behind this name.
    Behind(&'a [u8]),
    Any,
}

impl Wanted<'_> {
    fn takes(self, name: &[u8]) -> bool
        ensures { result ≡ takes self.entry name.now }
    {
        match self {
            Wanted::Named(unique) => is_named(name, unique),
            Wanted::Behind(before) => before.cmp(name).is_lt(),
            Wanted::Any => true,
        }
    }
}

// The lesser of two rows, where there is one before: of equal names the first.
fn lesser<'a>(best: Option<(&'a [u8], usize)>, row: (&'a [u8], usize)) -> Option<(&'a [u8], usize)>
    ensures { option_map lent_row result ≡ lesser_of (option_map lent_row best.entry) (lent_row row.entry) }
{
    let Some(before) = best else {
        return Some(row);
    };
    if row.0.cmp(before.0).is_lt() {
        Some(row)
    } else {
        best
    }
}

// The least of the rows that are wanted, after a look at one more.
fn looked<'a>(
    wanted: Wanted<'_>,
    best: Option<(&'a [u8], usize)>,
    row: (&'a [u8], usize),
) -> Option<(&'a [u8], usize)>
    ensures { option_map lent_row result ≡ if takes wanted.entry (lent_row row.entry).0
        then lesser_of (option_map lent_row best.entry) (lent_row row.entry) else option_map lent_row best.entry }
{
    if wanted.takes(row.0) {
        lesser(best, row)
    } else {
        best
    }
}

/// The least of the names that are wanted, and the number of its file. It looks at each name, and takes no memory.
pub(crate) fn least<'a>(
    table: &'a Table<'static>,
    others: &'a Others,
    wanted: Wanted<'_>,
) -> Option<(&'a [u8], usize)>
    ensures { option_map lent_row result ≡ first_with (λ e. takes wanted.entry e.0)
        (finmap.entries {R = name_cmp} (from_entries (table.now.keys ++ others.now.entries))) }
{
    let mut best: Option<(&'a [u8], usize)> = None;
    for at in 0..table.len() {
        best = looked(wanted, best, table.get_index(at).unwrap().row());
    }
    for at in 0..others.len() {
        let (name, file) = others.get_index(at).unwrap();
        best = looked(wanted, best, (name.as_slice(), *file));
    }
    best
}

/// The name at a position in order, and the number of its file. It looks at each name once for each position up to that, and takes no
/// memory.
pub(crate) fn nth<'a>(
    table: &'a Table<'static>,
    others: &'a Others,
    at: usize,
) -> Option<(&'a [u8], usize)>
    ensures { option_map lent_row result
        ≡ slice_get (finmap.entries {R = name_cmp} (from_entries (table.now.keys ++ others.now.entries))) at }
{
    let mut row = least(table, others, Wanted::Any)?;
    for _place in 0..at {
        row = least(table, others, Wanted::Behind(row.0))?;
    }
    Some(row)
}
