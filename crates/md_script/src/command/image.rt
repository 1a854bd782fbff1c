//! The words of what a store begins with: folders and files.
ghost use Rattle.std.specs.Prelude.{◌≡◌};
ghost use Rattle.std.specs.List.{list_any};
ghost use Rattle.std.specs.Option.{option_copied};
ghost use Rattle.md_text.specs.Bind.{Reads};
ghost use Rattle.md_script.specs.Words.{Gives};
ghost use Rattle.md_script.specs.Held.{command_of};
ghost use Rattle.md_script.specs.Commands.{folder_line, file_line, place_at};
ghost use Rattle.md_script.specs.Folders.{can_add, is_barred};
ghost use Rattle.md_script.specs.Jobs.{folder_at};

use crate::command::Command;
use crate::error::PlayKind;
use crate::words::{body, end, number_word, word};
use md_dirs::{Bytes, FileName, ImageFile, Path, Place};
use md_text::{Folders, Rest, place_from};
use std::alloc::Global;

/// The most folders that a script may name.
const MOST_FOLDERS: u32 = 64;

/// The longest name of a folder, in bytes.
const LONGEST_NAME: usize = 100;

/// The words of `folder` after the first.
#[tactic(auto, unfolding(crate::specs::Commands::folder_line))]
pub(super) fn folder_line<'a>(folders: &Folders, rest: Rest<'a>) -> Result<Command<'a>, PlayKind>
    ensures { Reads command_of result (folder_line folders.now (option_copied rest.entry)) }
{
    let (name, rest) = word(rest)?;
    if !can_add(folders, name) {
        return Err(PlayKind::BadFolder);
    }
    end(rest)?;
    Ok(Command::Folder { name })
}

/// Whether a folder can be made under this name: it has at most `LONGEST_NAME` bytes, none of them a slash, a NUL or a carriage return, and
/// doesn't begin with a dot, no folder has it, and there is room for one more.
fn can_add(folders: &Folders, name: &[u8]) -> bool
    ensures { result ≡ can_add folders.now name.now }
{
    if name.len() > LONGEST_NAME || has_barred(name) || name.starts_with(b".") {
        return false;
    }
    folders.place(name).is_none() && folders.count() < MOST_FOLDERS
}

fn has_barred(name: &[u8]) -> bool
    ensures { result ≡ list_any is_barred name.now }
{
    name.iter().any(|b| *b == b'/' || *b == 0 || *b == b'\r')
}

/// The words of `file` after the first.
#[tactic(auto, unfolding(crate::specs::Commands::file_line))]
pub(super) fn file_line<'a>(
    alloc: Global,
    folders: &Folders,
    rest: Rest<'a>,
) -> Result<Command<'a>, PlayKind>
    ensures { Gives command_of result (file_line folders.now (option_copied rest.entry)) }
{
    let (folder, rest) = folder(folders, rest)?;
    let (place, rest) = place(rest)?;
    let (name, rest) = word(rest)?;
    let (stamp, rest) = number_word(rest)?;
    let bytes = Bytes::of(body(alloc, rest)?);
    let name = FileName::copied(alloc, name)?;
    let path = Path {
        folder,
        place,
        name,
    };
    Ok(Command::File(ImageFile { path, bytes, stamp }))
}

/// The next word as the number of a folder.
#[tactic(auto, unfolding(crate::specs::Jobs::folder_at))]
pub(super) fn folder<'a>(folders: &Folders, rest: Rest<'a>) -> Result<(u32, Rest<'a>), PlayKind>
    ensures { Reads (λ read. (read.0, option_copied read.1)) result (folder_at folders.now (option_copied rest.entry)) }
{
    let (name, rest) = word(rest)?;
    let at = folders.place(name).ok_or(PlayKind::UnknownFolder)?;
    Ok((at, rest))
}

/// The next word as a directory of a maildir.
#[tactic(auto, unfolding(crate::specs::Commands::place_at))]
fn place(rest: Rest<'_>) -> Result<(Place, Rest<'_>), PlayKind>
    ensures { Reads (λ read. (read.0, option_copied read.1)) result (place_at (option_copied rest.entry)) }
{
    let (word, rest) = word(rest)?;
    let place = place_from(word).ok_or(PlayKind::BadPlace)?;
    Ok((place, rest))
}
