//! What programs told their users.
ghost use Rattle.std.specs.Option.{option_copied};
ghost use Rattle.md_log.specs.Words.{Gives};
ghost use Rattle.md_log.specs.Lines.{answer_line, about_line};

use super::{Call, Said, folder};
use crate::error::LineFault;
use crate::names::unique;
use crate::words::{end, word};
use md_text::{Folders, Rest, flags_from};
use std::alloc::Global;

/// The words of `answer` after it.
#[tactic(auto, unfolding(crate::specs::Lines::answer_line))]
pub(super) fn answer_line(
    alloc: Global,
    folders: &Folders,
    rest: Rest<'_>,
) -> Result<Call, LineFault>
    ensures { Gives (λ call. call) result (answer_line folders.now (option_copied rest.entry)) }
{
    let (first, rest) = word(rest)?;
    if first == b"flags".as_slice() {
        let (letters, rest) = word(rest)?;
        let flags = flags_from(letters).ok_or(LineFault::BadFlags)?;
        about_line(alloc, folders, Said::Flags(flags), rest)
    } else if first == b"moved".as_slice() {
        let (to, rest) = word(rest)?;
        let to = folder(alloc, folders, to)?;
        about_line(alloc, folders, Said::Moved(to), rest)
    } else if first == b"delivered".as_slice() {
        about_line(alloc, folders, Said::Delivered, rest)
    } else if first == b"expunged".as_slice() {
        about_line(alloc, folders, Said::Expunged, rest)
    } else if first == b"done".as_slice() {
        about_line(alloc, folders, Said::Done, rest)
    } else if first == b"failed".as_slice() {
        about_line(alloc, folders, Said::Failed, rest)
    } else if first == b"notthere".as_slice() {
        about_line(alloc, folders, Said::NotThere, rest)
    } else {
        Err(LineFault::BadLine)
    }
}

/// The words after what is said of the message: a folder and a unique name.
#[tactic(auto, unfolding(crate::specs::Lines::about_line))]
fn about_line(
    alloc: Global,
    folders: &Folders,
    said: Said,
    rest: Rest<'_>,
) -> Result<Call, LineFault>
    ensures { Gives (λ call. call) result (about_line folders.now said (option_copied rest.entry)) }
{
    let (first, rest) = word(rest)?;
    let folder = folder(alloc, folders, first)?;
    let (second, rest) = word(rest)?;
    let unique = unique(alloc, second)?;
    end(rest)?;
    Ok(Call::Answer {
        said,
        folder,
        unique,
    })
}
