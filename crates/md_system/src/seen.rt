//! Names that readings of all folders showed.
ghost use Rattle.std.specs.Prelude.{◌≡◌, count_by, IsTrue};
ghost use Rattle.std.specs.List.Sorted.{IsPermutation, IsSorted};
ghost use Rattle.md_name.specs.Names.{unique_of};
ghost use Rattle.md_system.specs.Checks.{is_message as is_message_by, is_of, is_of_in};
ghost use Rattle.md_system.specs.Gathering.{alike_cmp, unique_cmp};

use md_dirs::{Bytes, Place, Row};
use md_name::{is_message as is_message_name, unique_part};
use std::cmp::Ordering;

/// A name that a reading of new or cur showed, and that was still there when it was looked at.
#[derive(Drop)]
pub struct Seen {
    pub folder: u32,
    pub place: Place,
    /// The whole name, of any bytes.
    pub name: Bytes,
    /// Whether it is a regular file, as far as is known.
    pub is_file: bool,
}

/// A file that a reading of tmp showed.
#[derive(Drop)]
pub struct InTmp {
    pub folder: u32,
    pub row: Row,
}

/// Whether it is a message.
pub(crate) fn is_message(seen: &Seen) -> bool
    ensures { result ≡ is_message_by seen.now }
{
    let name = seen.name.as_slice();
    seen.is_file && is_message_name(name, unique_part(name))
}

/// Sorts names so that messages of one unique name are side by side, and among them those of one folder. It takes n log n time.
pub(crate) fn sort_alike(seen: &mut Vec<Seen>)
    ensures same { IsPermutation seen.old.items seen.new.items }
    ensures order { IsSorted alike_cmp seen.new.items }
{
    seen.sort_unstable_by(|first, second| compare_alike(first, second));
}

/// How many messages of its folder have the unique name of a message, in log n time.
pub(crate) fn count_in_folder(seen: &[Seen], one: &Seen) -> usize
    requires order { IsSorted alike_cmp seen.now }
    requires message { IsTrue (is_message_by one.now) }
    ensures { result ≡ count_by (is_of_in one.now.folder (unique_of one.now.name)) seen.now }
{
    let from = seen.partition_point(|other| compare_alike(other, one).is_lt());
    let until = seen.partition_point(|other| compare_alike(other, one).is_le());
    until - from
}

/// How many messages of all folders have the unique name of a message, in log n time.
pub(crate) fn count_everywhere(seen: &[Seen], one: &Seen) -> usize
    requires order { IsSorted alike_cmp seen.now }
    requires message { IsTrue (is_message_by one.now) }
    ensures { result ≡ count_by (is_of (unique_of one.now.name)) seen.now }
{
    let from = seen.partition_point(|other| compare_uniques(other, one).is_lt());
    let until = seen.partition_point(|other| compare_uniques(other, one).is_le());
    until - from
}

// Compares names by their unique parts, other things than files first, and then by folder.
fn compare_alike(first: &Seen, second: &Seen) -> Ordering
    ensures { result ≡ alike_cmp first.now second.now }
{
    match compare_uniques(first, second) {
        Ordering::Equal => first.folder.cmp(&second.folder),
        other => other,
    }
}

fn compare_uniques(first: &Seen, second: &Seen) -> Ordering
    ensures { result ≡ unique_cmp first.now second.now }
{
    match first.is_file.cmp(&second.is_file) {
        Ordering::Equal => {
            unique_part(first.name.as_slice()).cmp(unique_part(second.name.as_slice()))
        }
        other => other,
    }
}
