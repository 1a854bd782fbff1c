//! What is kept of the rows of a reading.
ghost use Rattle.std.specs.Prelude.{◌≡◌, IfOk};
ghost use Rattle.std.specs.Option.{option_to_list};
ghost use Rattle.md_dirs.specs.Rows.{row_named, is_old as is_old_by, old_names as old_names_of};

use md_dirs::{FileName, Row, is_named};
use std::alloc::{AllocError, Global};
use std::collections::VecDeque;

/// A row, if it is of the message.
pub(crate) fn of_message(row: Option<Row>, unique: &[u8]) -> Option<Row>
    ensures { result ≡ row_named unique.now (option_to_list result) }
{
    match row {
        Some(row) if is_named(row.name.as_slice(), unique) => Some(row),
        _ => None,
    }
}

/// Copies of the names of rows whose files were not used for so many seconds, in their order. It is refused only when out of memory.
pub(crate) fn old_names(
    alloc: Global,
    rows: &[Row],
    now: u64,
    seconds: u64,
) -> Result<VecDeque<FileName>, AllocError>
    ensures { IfOk result (λ names. names.items ≡ old_names_of now seconds rows.now) }
{
    let mut names = VecDeque::new(alloc);
    for row in rows {
        if is_old(row, now, seconds) {
            names.push_back(FileName::copied(alloc, row.name.as_slice())?)?;
        }
    }
    Ok(names)
}

/// Whether the file of a row was not used for so many seconds.
pub(crate) fn is_old(row: &Row, now: u64, seconds: u64) -> bool
    ensures { result ≡ is_old_by now seconds row.now }
{
    now.saturating_sub(row.stamp) >= seconds
}
