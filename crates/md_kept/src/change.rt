//! What a call does to paths.
ghost use Rattle.std.specs.Prelude.{◌≡◌, None};
ghost use Rattle.std.specs.Option.{option_map, option_copied};
ghost use Rattle.md_law.specs.Messages.{is_message, is_tmp};
ghost use Rattle.md_monitor.specs.Changes.{with_file};
ghost use Rattle.md_monitor.specs.Files.{is_new, is_cur};
ghost use Rattle.md_kept.specs.Changes.{lent, message_of};

use md_dirs::{Path, Place};
use md_name::unique_part;

/// A path, with the number of its file.
pub type Named<'a> = (&'a Path, usize);

/// What a call does to paths: the one that comes to name a file, the one that comes to name none, and the one that comes to name another
/// file than before, with that.
#[derive(Clone, Copy)]
pub struct Change<'a> {
    pub named: Option<Named<'a>>,
    pub taken: Option<Named<'a>>,
    pub turned: Option<Named<'a>>,
}

pub(crate) const NO_CHANGE: Change<'static> = Change {
    named: None,
    taken: None,
    turned: None,
};

/// A path with its file, where it has one.
pub(crate) fn with_file(path: &Path, file: Option<usize>) -> Option<Named<'_>>
    ensures { option_map lent result ≡ with_file path.now file }
{
    file.map(|file| (path, file))
}

/// The unique name of a message's path.
pub fn message_of(path: &Path) -> Option<&[u8]>
    ensures { option_copied result ≡ message_of path.now }
{
    if path.place == Place::Tmp {
        return None;
    }
    let name = path.name.as_slice();
    let unique = unique_part(name);
    if !md_name::is_message(name, unique) {
        return None;
    }
    Some(unique)
}

/// Whether a path is a message's.
pub fn is_message(path: &Path) -> bool
    ensures { result ≡ is_message path.now }
{
    message_of(path).is_some()
}

/// Whether a place is tmp.
pub fn is_tmp(place: Place) -> bool
    ensures { result ≡ is_tmp place }
{
    place == Place::Tmp
}

/// Whether a place is new.
pub fn is_new(place: Place) -> bool
    ensures { result ≡ is_new place }
{
    place == Place::New
}

/// Whether a place is cur.
pub fn is_cur(place: Place) -> bool
    ensures { result ≡ is_cur place }
{
    place == Place::Cur
}
