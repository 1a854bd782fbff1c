//! The rows of directories, as the beginning of a log, a listing and a comment have them.
ghost use Rattle.std.specs.Prelude.{◌≡◌, ◌++◌, ◌≤◌, IfOk, codes};
ghost use Rattle.std.specs.List.{All};
ghost use Rattle.md_dirs.specs.Rows.{rows_of};
ghost use Rattle.md_trace.specs.Growing.{Grows, GrowsIf, most, name_text};
ghost use Rattle.md_trace.specs.Rows.{AreFitFolders, IsFit, IsFitDirectory, IsFitFolder, all_lines, directory_lines, file_text, folder_lines, names_text, row_lines, row_text, state_text};

use crate::text::Log;
use md_dirs::{Dirs, Place, RowRef};
use md_script::PlayKind;
use md_text::place_text;
use std::alloc::{AllocError, Global};

/// What a line says of a row.
#[derive(Clone, Copy)]
pub(crate) enum Form {
    /// `file PATH STAMP`, of the beginning of a log.
    File,
    /// The comment `# PLACE FOLDER NAME STAMP SIZE`.
    State,
}

/// A line for each name that is there.
pub(crate) fn push_rows<D: Dirs>(log: &mut Log, dirs: &D, form: Form)
    ensures { let s = (D.device dirs.now).state in
        GrowsIf (AreFitFolders form s s.folders) (all_lines form log.old s s.folders) log.old log.new }
{
    for folder in 0..dirs.folders() {
        push_folder(log, dirs, folder, form);
    }
}

fn push_folder<D: Dirs>(log: &mut Log, dirs: &D, folder: u32, form: Form)
    ensures { let s = (D.device dirs.now).state in
        GrowsIf (IsFitFolder form s folder) (folder_lines form log.old s folder) log.old log.new }
{
    push_directory(log, dirs, folder, Place::Tmp, form);
    push_directory(log, dirs, folder, Place::New, form);
    push_directory(log, dirs, folder, Place::Cur, form);
}

fn push_directory<D: Dirs>(log: &mut Log, dirs: &D, folder: u32, place: Place, form: Form)
    ensures { let s = (D.device dirs.now).state in
        GrowsIf (IsFitDirectory form s folder place) (directory_lines form log.old s folder place) log.old log.new }
{
    match rows_in(log.alloc(), dirs, folder, place) {
        Ok(rows) => push_lines(log, folder, place, rows.as_slice(), form),
        Err(_) => log.refuse(PlayKind::NoMemory),
    }
}

fn push_lines(log: &mut Log, folder: u32, place: Place, rows: &[RowRef<'_>], form: Form)
    ensures { GrowsIf (All (IsFit form) rows.now) (row_lines form log.old folder place rows.now) log.old log.new }
{
    for row in rows {
        push_row(log, folder, place, row, form);
    }
}

/// Each name of a directory, with a space in front.
pub(crate) fn push_names<D: Dirs>(log: &mut Log, dirs: &D, folder: u32, place: Place)
    ensures { Grows (names_text (rows_of (D.device dirs.now).state folder place)) log.old log.new }
{
    match rows_in(log.alloc(), dirs, folder, place) {
        Ok(rows) => push_each_name(log, rows.as_slice()),
        Err(_) => log.refuse(PlayKind::NoMemory),
    }
}

fn push_each_name(log: &mut Log, rows: &[RowRef<'_>])
    ensures { Grows (names_text rows.now) log.old log.new }
{
    for row in rows {
        push_spaced(log, row.name());
    }
}

fn push_spaced(log: &mut Log, name: &[u8])
    ensures { Grows (codes " " ++ name_text name.now) log.old log.new }
{
    log.push(b" ");
    log.push_name(name);
}

// The rows of a directory in order of their names.
fn rows_in<D: Dirs>(
    alloc: Global,
    dirs: &D,
    folder: u32,
    place: Place,
) -> Result<Vec<RowRef<'_>>, AllocError>
    ensures { IfOk result (λ rows. rows.items ≡ rows_of (D.device dirs.now).state folder place) }
{
    let mut rows = Vec::new(alloc);
    loop {
        let mut more = dirs.rows_from(alloc, folder, place, rows.len())?;
        if more.is_empty() {
            return Ok(rows);
        }
        rows.append(&mut more)?;
    }
}

fn push_row(log: &mut Log, folder: u32, place: Place, row: &RowRef<'_>, form: Form)
    ensures { GrowsIf (IsFit form row.now) (row_text form log.old folder place row.now) log.old log.new }
{
    match form {
        Form::File => push_file(log, folder, place, row),
        Form::State => push_state(log, folder, place, row),
    }
}

fn push_file(log: &mut Log, folder: u32, place: Place, row: &RowRef<'_>)
    ensures { GrowsIf (row.now.stamp ≤ most) (file_text log.old folder place row.now) log.old log.new }
{
    log.push(b"file");
    log.push_path(folder, place, row.name());
    log.push(b" ");
    log.push_seconds(row.stamp());
    log.push(b"\n");
}

fn push_state(log: &mut Log, folder: u32, place: Place, row: &RowRef<'_>)
    ensures { Grows (state_text log.old folder place row.now) log.old log.new }
{
    log.push(b"# ");
    log.push(place_text(place));
    log.push_message(folder, row.name());
    log.push(b" ");
    log.push_number(row.stamp());
    log.push(b" ");
    log.push_number(row.size());
    log.push(b"\n");
}
