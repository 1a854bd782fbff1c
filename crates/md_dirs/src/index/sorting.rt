//! The order of names, by one sort.
ghost use Rattle.std.specs.Prelude.{◌≡◌, ◌++◌, [], IfOk, map, slice_index_or};
ghost use Rattle.std.specs.List.{IsDistinct};
ghost use Rattle.std.specs.Map.{keys_of};
ghost use Rattle.std.specs.Str.{bytes_eq};
ghost use Rattle.md_dirs.specs.Index.{name_cmp, IsOrderOf};
ghost use Rattle.md_dirs.specs.Least.{lent_row};
ghost use Rattle.md_dirs.specs.Named.{is_alike};
ghost use Rattle.md_dirs.specs.Sortable.{AreSortable, key_and_name, row_number};

use crate::index::key::key_of;
use crate::index::tables::{Others, Table};
use std::alloc::{AllocError, Global};
use std::cmp::Ordering;

/// All rows of a directory, lent, in no order: those of its table, and then the others.
pub(crate) fn all_rows<'a>(
    alloc: Global,
    table: &'a Table<'static>,
    others: &'a Others,
) -> Result<Vec<(&'a [u8], usize)>, AllocError>
    ensures rows { IfOk result (λ rows. map lent_row rows.items ≡ table.now.keys ++ others.now.entries) }
    ensures unique { IsDistinct is_alike table.now.keys × IsDistinct bytes_eq (keys_of others.now.entries) }
{
    let mut rows = Vec::new(alloc);
    rows.reserve(table.len() + others.len())?;
    for at in 0..table.len() {
        rows.push(table.get_index(at).unwrap().row())?;
    }
    for at in 0..others.len() {
        let (name, file) = others.get_index(at).unwrap();
        rows.push((name.as_slice(), *file))?;
    }
    Ok(rows)
}

// The name of the row at a position.
fn name_at<'a>(rows: &[(&'a [u8], usize)], at: usize) -> &'a [u8]
    ensures { result.now ≡ (slice_index_or (map lent_row rows.now) at ([], 0)).0 }
{
    match rows.get(at) {
        Some((name, _)) => *name,
        None => &[],
    }
}

// The rows by what they are sorted by: the key of its name, and its position, by which the name is read where keys are equal.
fn sortable_rows(alloc: Global, rows: &[(&[u8], usize)]) -> Result<Vec<(u128, usize)>, AllocError>
    ensures { IfOk result (λ made. AreSortable (map lent_row rows.now) made.items) }
{
    let count = rows.len();
    let mut sortable = Vec::with_capacity(alloc, count)?;
    for at in 0..count {
        let name = name_at(rows, at);
        sortable.push((key_of(name), at))?;
    }
    Ok(sortable)
}

// The positions of sorted rows.
fn positions_of(alloc: Global, sorted: &[(u128, usize)]) -> Result<Vec<usize>, AllocError>
    ensures { IfOk result (λ order. order.items ≡ map row_number sorted.now) }
{
    let mut order = Vec::with_capacity(alloc, sorted.len())?;
    for at in 0..sorted.len() {
        let (_, row) = sorted[at];
        order.push(row)?;
    }
    Ok(order)
}

// How two rows compare: by their keys, and where these are equal by their names.
fn compare(rows: &[(&[u8], usize)], first: &(u128, usize), second: &(u128, usize)) -> Ordering
    ensures { result ≡ name_cmp (key_and_name (map lent_row rows.now) first.now) (key_and_name (map lent_row rows.now) second.now) }
{
    match first.0.cmp(&second.0) {
        Ordering::Equal => name_at(rows, first.1).cmp(name_at(rows, second.1)),
        order => order,
    }
}

/// The positions of rows in order of their names. The rows stay where they are: only keys and positions are sorted, and a name is read where
/// keys are equal. It is refused only when out of memory.
pub(crate) fn sorted_order(alloc: Global, rows: &[(&[u8], usize)]) -> Result<Vec<usize>, AllocError>
    requires { IsDistinct bytes_eq (keys_of (map lent_row rows.now)) }
    ensures { IfOk result (λ order. IsOrderOf (map lent_row rows.now) order.items) }
{
    let mut sortable = sortable_rows(alloc, rows)?;
    sortable.sort_unstable_by(
        |first: &(u128, usize), second: &(u128, usize)| -> Ordering
            ensures { result ≡ name_cmp (key_and_name (map lent_row rows.entry.now) first.now) (key_and_name (map lent_row rows.entry.now) second.now) }
        { compare(rows, first, second) },
    );
    positions_of(alloc, &sortable)
}
