//! Lines of what there is at the beginning.
ghost use Rattle.std.specs.Prelude.{◌≡◌};
ghost use Rattle.std.specs.Option.{option_copied};
ghost use Rattle.md_text.specs.Bind.{Reads};
ghost use Rattle.md_log.specs.Words.{Gives};
ghost use Rattle.md_log.specs.Lines.{head_of, head_line, folder_line, allowed_by, allow_line, file_line, also_line};

use super::{Line, path};
use crate::clause::Clause;
use crate::error::LineFault;
use crate::names::name;
use crate::words::{end, number, word};
use md_text::{Folders, Rest};
use std::alloc::Global;

/// The first word of such a line.
#[derive(Clone, Copy)]
pub(super) enum HeadWord {
    Folder,
    Allow,
    File,
    Also,
}

#[tactic(auto, unfolding(crate::specs::Lines::head_of))]
pub(super) fn head_word(word: &[u8]) -> Option<HeadWord>
    ensures { result ≡ head_of word.now }
{
    if word == b"folder".as_slice() {
        Some(HeadWord::Folder)
    } else if word == b"allow".as_slice() {
        Some(HeadWord::Allow)
    } else if word == b"file".as_slice() {
        Some(HeadWord::File)
    } else if word == b"also".as_slice() {
        Some(HeadWord::Also)
    } else {
        None
    }
}

/// The words after the first.
pub(super) fn head_line(
    alloc: Global,
    folders: &Folders,
    head: HeadWord,
    rest: Rest<'_>,
) -> Result<Line, LineFault>
    ensures { Gives (λ line. line) result (head_line folders.now head (option_copied rest.entry)) }
{
    match head {
        HeadWord::Folder => folder_line(alloc, rest),
        HeadWord::Allow => allow_line(rest),
        HeadWord::File => file_line(alloc, folders, rest),
        HeadWord::Also => also_line(alloc, folders, rest),
    }
}

#[tactic(auto, unfolding(crate::specs::Lines::folder_line))]
fn folder_line(alloc: Global, rest: Rest<'_>) -> Result<Line, LineFault>
    ensures { Gives (λ line. line) result (folder_line (option_copied rest.entry)) }
{
    let (word, rest) = word(rest)?;
    let name = name(alloc, word)?;
    end(rest)?;
    Ok(Line::Folder { name })
}

#[tactic(auto, unfolding(crate::specs::Lines::allow_line))]
fn allow_line(rest: Rest<'_>) -> Result<Line, LineFault>
    ensures { Reads (λ line. line) result (allow_line (option_copied rest.entry)) }
{
    let (word, rest) = word(rest)?;
    let clause = allowed(Clause::named(word))?;
    end(rest)?;
    Ok(Line::Allow { clause })
}

/// A clause that need not be judged: any but `NotADirectory`.
fn allowed(clause: Option<Clause>) -> Result<Clause, LineFault>
    ensures { result ≡ allowed_by clause }
{
    match clause {
        None | Some(Clause::NotADirectory) => Err(LineFault::BadClause),
        Some(clause) => Ok(clause),
    }
}

#[tactic(auto, unfolding(crate::specs::Lines::file_line))]
fn file_line(alloc: Global, folders: &Folders, rest: Rest<'_>) -> Result<Line, LineFault>
    ensures { Gives (λ line. line) result (file_line folders.now (option_copied rest.entry)) }
{
    let (path, rest) = path(alloc, folders, rest)?;
    let (word, rest) = word(rest)?;
    let stamp = number(word)?;
    end(rest)?;
    Ok(Line::File { path, stamp })
}

#[tactic(auto, unfolding(crate::specs::Lines::also_line))]
fn also_line(alloc: Global, folders: &Folders, rest: Rest<'_>) -> Result<Line, LineFault>
    ensures { Gives (λ line. line) result (also_line folders.now (option_copied rest.entry)) }
{
    let (new, rest) = path(alloc, folders, rest)?;
    let (old, rest) = path(alloc, folders, rest)?;
    end(rest)?;
    Ok(Line::Also { path: new, old })
}
