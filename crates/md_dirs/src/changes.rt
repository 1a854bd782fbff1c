//! How a path comes to directories, and to the count of its file.
ghost use Rattle.std.specs.Prelude.{◌≡◌, ◌<◌, false, [], ◌∷◌, ◌++◌, Some, None, OnErr, IfOk, IfSome, if◌then◌else◌, is_none, length, slice_set};
ghost use Rattle.std.specs.FinMap as finmap;
ghost use Rattle.md_dirs.specs.Index.{PathMap};
ghost use Rattle.md_dirs.specs.Files.{slot_at, named_again, with_names};
ghost use Rattle.md_dirs.specs.Slots.{slots_of};

use crate::files::Kept;
use crate::paths::{File, Path};
use crate::slots::Slots;
use std::alloc::{AllocError, Global};

/// Paths, each with the number of its file.
pub(crate) trait Paths {
    ghost names: { Self → PathMap };

    /// The number of the file of a path.
    fn file_at(&self, path: &Path) -> Option<usize>
        ensures { result ≡ finmap.get (names self.now) path.now };

    /// Gives a path to a file, unless it is there: whether it was not. The path is copied. When out of memory, nothing has changed.
    fn add(&mut self, alloc: Global, path: &Path, file: usize) -> Result<bool, AllocError>
        ensures new { IfOk result (λ is_new. is_new ≡ is_none (finmap.get (names self.old) path.now)) }
        ensures ok { IfOk result (λ is_new. names self.new ≡ if is_new then finmap.insert (names self.old) path.now file else names self.old) }
        ensures err { OnErr result (names self.new ≡ names self.old) };
}

// How many names a file has with one more, and 0 for a file that is gone. None where they are too many.
fn names_and_one(slots: &Slots, file: usize) -> Option<usize>
    requires { file < length (slots_of slots.now) }
    ensures { IfSome result (λ more. with_names more (slot_at (slots_of slots.now) file) ≡ named_again (slot_at (slots_of slots.now) file)) }
{
    match slots.get(file) {
        Some(kept) => kept.names.checked_add(1),
        None => Some(0),
    }
}

// What is answered of a path to be added where memory is wanting: that comes after a path that is there.
fn refused<N: Paths>(names: &N, path: &Path) -> Result<bool, AllocError>
    ensures there { IfOk result (λ is_new. is_new ≡ false) }
    ensures new { IfOk result (λ is_new. is_new ≡ is_none (finmap.get (N.names names.now) path.now)) }
    ensures absent { OnErr result (finmap.get (N.names names.now) path.now ≡ None) }
{
    match names.file_at(path) {
        Some(_) => Ok(false),
        None => Err(AllocError),
    }
}

// Adds a file at the end of the files, with a path as its one name, unless that is there: whether it was not. Memory that is wanting comes
// after a path that is there.
pub(crate) fn add_file<N: Paths>(
    names: &mut N,
    slots: &mut Slots,
    alloc: Global,
    path: &Path,
    file: File,
) -> Result<bool, AllocError>
    ensures new { IfOk result (λ is_new. is_new ≡ is_none (finmap.get (N.names names.old) path.now)) }
    ensures names { IfOk result (λ is_new. N.names names.new
        ≡ if is_new then finmap.insert (N.names names.old) path.now (length (slots_of slots.old)) else N.names names.old) }
    ensures slots { IfOk result (λ is_new. slots_of slots.new
        ≡ if is_new then slots_of slots.old ++ Some (record { file = file; names = 1 }) ∷ [] else slots_of slots.old) }
    ensures absent { OnErr result (finmap.get (N.names names.old) path.now ≡ None) }
    ensures same_names { OnErr result (N.names names.new ≡ N.names names.old) }
    ensures same_slots { OnErr result (slots_of slots.new ≡ slots_of slots.old) }
{
    let Ok(number) = slots.make_room() else {
        return refused(names, path);
    };
    let Ok(is_new) = names.add(alloc, path, number) else {
        return refused(names, path);
    };
    if is_new {
        slots.push(Kept { file, names: 1 });
    }
    Ok(is_new)
}

// Gives a file one more name, unless that is there: whether it was not. Memory that is wanting comes after a path that is there, and the
// file's count is then as it was.
pub(crate) fn add_name<N: Paths>(
    names: &mut N,
    slots: &mut Slots,
    alloc: Global,
    path: &Path,
    file: usize,
) -> Result<bool, AllocError>
    requires { file < length (slots_of slots.old) }
    ensures new { IfOk result (λ is_new. is_new ≡ is_none (finmap.get (N.names names.old) path.now)) }
    ensures names { IfOk result (λ is_new. N.names names.new
        ≡ if is_new then finmap.insert (N.names names.old) path.now file else N.names names.old) }
    ensures slots { IfOk result (λ is_new. slots_of slots.new
        ≡ if is_new then slice_set (slots_of slots.old) file (named_again (slot_at (slots_of slots.old) file)) else slots_of slots.old) }
    ensures absent { OnErr result (finmap.get (N.names names.old) path.now ≡ None) }
    ensures same_names { OnErr result (N.names names.new ≡ N.names names.old) }
    ensures same_slots { OnErr result (slots_of slots.new ≡ slots_of slots.old) }
{
    let Some(more) = names_and_one(slots, file) else {
        return refused(names, path);
    };
    let Ok(is_new) = names.add(alloc, path, file) else {
        return refused(names, path);
    };
    if is_new {
        slots.set_names(file, more);
    }
    Ok(is_new)
}
