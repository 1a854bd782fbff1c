//! The names of files that have not been used for a while.
ghost use Rattle.std.specs.Prelude.{◌≡◌, ◌++◌, OnOk};
ghost use Rattle.md_dirs.specs.Rows.{is_old as is_old_by, old_names};

use crate::rows::RowRef;
use md_name::FileName;
use std::alloc::{AllocError, Global};
use std::collections::VecDeque;

/// Adds copies of the names of old files, in the order of their rows, behind other names. It is refused only when out of memory.
pub(crate) fn push_old(
    alloc: Global,
    names: &mut VecDeque<FileName>,
    rows: &[RowRef<'_>],
    now: u64,
    seconds: u64,
) -> Result<(), AllocError>
    ensures { OnOk result (names.new.items ≡ names.old.items ++ old_names now seconds rows.now) }
{
    for row in rows {
        if is_old(row, now, seconds) {
            names.push_back(FileName::copied(alloc, row.name())?)?;
        }
    }
    Ok(())
}

fn is_old(row: &RowRef<'_>, now: u64, seconds: u64) -> bool
    ensures { result ≡ is_old_by now seconds row.now }
{
    now.saturating_sub(row.stamp()) >= seconds
}
