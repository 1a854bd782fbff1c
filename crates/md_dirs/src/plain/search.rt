//! Where paths are among rows in order, by halving.
ghost use Rattle.std.specs.Prelude.{◌≡◌, IsTrue, IfOk, IfErr, filter, map};
ghost use Rattle.std.specs.FinMap.{is_sorted};
ghost use Rattle.md_dirs.specs.Path.{path_cmp, path_of};
ghost use Rattle.md_dirs.specs.Plain.{IsAt, IsGap};
ghost use Rattle.md_dirs.specs.Rows.{is_in};
ghost use Rattle.md_dirs.specs.Index.{named_row, directory_number};

use crate::finding::InOrder;
use crate::paths::{Path, Place, compare, number_of};
use std::cmp::Ordering;

// Where the row of a name in a directory is, or where it would go.
pub(crate) fn find_name(
    rows: &[(Path, usize)],
    folder: u32,
    place: Place,
    name: &[u8],
) -> Result<usize, usize>
    requires { IsTrue (is_sorted path_cmp rows.now) }
    ensures found { IfOk result (IsAt path_cmp rows.now (path_of folder place name.now)) }
    ensures absent { IfErr result (IsGap path_cmp rows.now (path_of folder place name.now)) }
{
    let mut low = 0;
    let mut high = rows.len();
    while low < high {
        let middle = low + (high - low) / 2;
        match compare(&rows[middle].0, folder, place, name) {
            Ordering::Less => low = middle + 1,
            Ordering::Equal => return Ok(middle),
            Ordering::Greater => high = middle,
        }
    }
    Err(low)
}

// Where the row of a path is, or where it would go.
pub(crate) fn find_row(rows: &[(Path, usize)], path: &Path) -> Result<usize, usize>
    requires { IsTrue (is_sorted path_cmp rows.now) }
    ensures found { IfOk result (IsAt path_cmp rows.now path.now) }
    ensures absent { IfErr result (IsGap path_cmp rows.now path.now) }
{
    find_name(rows, path.folder, path.place, path.name.as_slice())
}

// The number of the directory of a row.
fn directory_of(row: &(Path, usize)) -> usize
    ensures { result ≡ directory_number row.now.0.folder row.now.0.place }
{
    number_of(row.0.folder, row.0.place)
}

// The rows of a directory, which are side by side.
pub(crate) fn directory(rows: &[(Path, usize)], folder: u32, place: Place) -> &[(Path, usize)]
    requires { IsTrue (is_sorted path_cmp rows.now) }
    ensures { result.now ≡ filter (λ e. is_in folder place e.0) rows.now }
{
    let number = number_of(folder, place);
    let first = rows.partition_point(|row| directory_of(row) < number);
    let end = rows.partition_point(|row| directory_of(row) <= number);
    &rows[first..end]
}

impl InOrder for &[(Path, usize)] {
    ghost rows = { λ rows. map named_row rows.now };

    fn count(&self) -> usize {
        self.len()
    }

    fn name(&self, at: usize) -> &[u8] {
        self[at].0.name.as_slice()
    }
}
