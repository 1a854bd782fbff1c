//! What the rows of a reading say to a job.
ghost use Rattle.std.specs.Prelude.{◌≡◌, IfOk};
ghost use Rattle.md_dirs.specs.Rows.{row_named};
ghost use Rattle.md_jobs.specs.Machines.Clean.{is_old as is_old_by, old_names as old_names_of};

use md_dirs::{FileName, Row, is_named};
use md_jobs::LEAST_SECONDS;
use std::alloc::{AllocError, Global};
use std::collections::VecDeque;

/// A copy of the first row that has the unique name. It is refused only when out of memory.
pub(super) fn first_named(
    alloc: Global,
    rows: &[Row],
    unique: &[u8],
) -> Result<Option<Row>, AllocError>
    ensures { IfOk result (λ row. row ≡ row_named unique.now rows.now) }
{
    let mut rest = rows;
    while let Some((row, more)) = rest.split_first() {
        if is_named(row.name.as_slice(), unique) {
            return Ok(Some(row.again(alloc)?));
        }
        rest = more;
    }
    Ok(None)
}

/// Copies of the names of rows whose files were not used for 36 hours at a moment, in their order. It is refused only when out of memory.
pub(super) fn old_names(
    alloc: Global,
    rows: &[Row],
    own: u64,
) -> Result<VecDeque<FileName>, AllocError>
    ensures { IfOk result (λ names. names.items ≡ old_names_of own rows.now) }
{
    let mut names = VecDeque::new(alloc);
    for row in rows {
        if is_old(row, own) {
            names.push_back(FileName::copied(alloc, row.name.as_slice())?)?;
        }
    }
    Ok(names)
}

fn is_old(row: &Row, own: u64) -> bool
    ensures { result ≡ is_old_by own row.now }
{
    own.saturating_sub(row.stamp) >= LEAST_SECONDS
}
