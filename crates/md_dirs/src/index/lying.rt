//! Rows as they lie.
ghost use Rattle.std.specs.Prelude.{◌≡◌, ◌++◌, IfOk, IsSome, All, map};
ghost use Rattle.md_dirs.specs.State.{file_by};
ghost use Rattle.md_dirs.specs.Files.{files_of, name_row};
ghost use Rattle.md_dirs.specs.Slots.{slots_of};

use crate::files::shown_row;
use crate::index::tables::{Others, Table};
use crate::rows::RowRef;
use crate::slots::Slots;
use std::alloc::AllocError;

/// Lent rows, and behind them those of a table. It is refused only when out of memory.
pub(crate) fn with_rows<'a>(
    mut lent: Vec<RowRef<'a>>,
    table: &'a Table<'static>,
    slots: &'a Slots,
) -> Result<Vec<RowRef<'a>>, AllocError>
    requires { All (λ e. IsSome (file_by (files_of (slots_of slots.now)) e.1)) table.now.keys }
    ensures { IfOk result (λ all. all.items
        ≡ lent.entry.items ++ map (name_row (files_of (slots_of slots.now))) table.now.keys) }
{
    for at in 0..table.len() {
        let row = table.get_index(at).unwrap();
        lent.push(row.shown(slots))?;
    }
    Ok(lent)
}

/// Lent rows, and behind them those that stand beside a table. It is refused only when out of memory.
pub(crate) fn with_others<'a>(
    mut lent: Vec<RowRef<'a>>,
    others: &'a Others,
    slots: &'a Slots,
) -> Result<Vec<RowRef<'a>>, AllocError>
    requires { All (λ e. IsSome (file_by (files_of (slots_of slots.now)) e.1)) others.now.entries }
    ensures { IfOk result (λ all. all.items
        ≡ lent.entry.items ++ map (name_row (files_of (slots_of slots.now))) others.now.entries) }
{
    for at in 0..others.len() {
        let (name, file) = others.get_index(at).unwrap();
        lent.push(shown_row(slots, name.as_slice(), *file))?;
    }
    Ok(lent)
}
