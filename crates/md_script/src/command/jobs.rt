//! The words of the calls that become jobs.
ghost use Rattle.std.specs.Prelude.{◌≡◌, ok_or};
ghost use Rattle.std.specs.Option.{option_copied};
ghost use Rattle.md_name.specs.declared.error.NameError.TheVariants.{BadFlag};
ghost use Rattle.md_text.specs.Flags.{flags_in};
ghost use Rattle.md_script.specs.declared.error.PlayKind.TheVariants.{Name};
ghost use Rattle.md_script.specs.Words.{Gives};
ghost use Rattle.md_script.specs.Held.{command_of};
ghost use Rattle.md_script.specs.Commands.{submit_line};
ghost use Rattle.md_script.specs.Jobs.{call_line, tries_at, deliver_line, seen_line, flag_line, move_line, expunge_line, copy_line, clean_line};

use crate::command::Command;
use crate::command::image::folder;
use crate::error::PlayKind;
use crate::words::{body, end, number_word, word};
use md_core::Call;
use md_dirs::Bytes;
use md_name::{Flags, NameError};
use md_text::{Folders, Rest, flags_from};
use std::alloc::Global;

/// The words of `job` after the first.
#[tactic(auto, unfolding(crate::specs::Commands::submit_line))]
pub(super) fn submit_line<'a>(
    alloc: Global,
    folders: &Folders,
    rest: Rest<'a>,
) -> Result<Command<'a>, PlayKind>
    ensures { Gives command_of result (submit_line folders.now (option_copied rest.entry)) }
{
    let (word, rest) = word(rest)?;
    let call = call_line(alloc, folders, word, rest)?;
    Ok(Command::Submit(call))
}

// The words of a call after the first.
fn call_line(
    alloc: Global,
    folders: &Folders,
    word: &[u8],
    rest: Rest<'_>,
) -> Result<Call, PlayKind>
    ensures { Gives (λ call. call) result (call_line folders.now word.now (option_copied rest.entry)) }
{
    if word == b"deliver".as_slice() {
        deliver_line(alloc, folders, rest)
    } else if word == b"seen".as_slice() {
        seen_line(alloc, folders, rest)
    } else if word == b"flag".as_slice() {
        flag_line(alloc, folders, rest)
    } else if word == b"move".as_slice() {
        move_line(alloc, folders, rest)
    } else if word == b"expunge".as_slice() {
        expunge_line(alloc, folders, rest)
    } else if word == b"copy".as_slice() {
        copy_line(alloc, folders, rest)
    } else if word == b"clean".as_slice() {
        clean_line(folders, rest)
    } else {
        Err(PlayKind::BadCommand)
    }
}

#[tactic(auto, unfolding(crate::specs::Jobs::deliver_line))]
fn deliver_line(alloc: Global, folders: &Folders, rest: Rest<'_>) -> Result<Call, PlayKind>
    ensures { Gives (λ call. call) result (deliver_line folders.now (option_copied rest.entry)) }
{
    let (folder, rest) = folder(folders, rest)?;
    let (unique, rest) = word(rest)?;
    let (chunk, rest) = number_word(rest)?;
    let body = Bytes::of(body(alloc, rest)?);
    let unique = Bytes::copied(alloc, unique)?;
    Ok(Call::Deliver {
        folder,
        unique,
        body,
        chunk,
    })
}

#[tactic(auto, unfolding(crate::specs::Jobs::seen_line, crate::specs::Jobs::flags_at))]
fn seen_line(alloc: Global, folders: &Folders, rest: Rest<'_>) -> Result<Call, PlayKind>
    ensures { Gives (λ call. call) result (seen_line folders.now (option_copied rest.entry)) }
{
    let (folder, rest) = folder(folders, rest)?;
    let (unique, rest) = word(rest)?;
    let (letters, rest) = word(rest)?;
    let flags = flags(letters)?;
    let tries = tries(rest)?;
    let unique = Bytes::copied(alloc, unique)?;
    Ok(Call::Seen {
        folder,
        unique,
        flags,
        tries,
    })
}

#[tactic(auto, unfolding(crate::specs::Jobs::flag_line, crate::specs::Jobs::flags_at))]
fn flag_line(alloc: Global, folders: &Folders, rest: Rest<'_>) -> Result<Call, PlayKind>
    ensures { Gives (λ call. call) result (flag_line folders.now (option_copied rest.entry)) }
{
    let (folder, rest) = folder(folders, rest)?;
    let (unique, rest) = word(rest)?;
    let (add, rest) = word(rest)?;
    let add = flags(add)?;
    let (remove, rest) = word(rest)?;
    let remove = flags(remove)?;
    let tries = tries(rest)?;
    let unique = Bytes::copied(alloc, unique)?;
    Ok(Call::Flag {
        folder,
        unique,
        add,
        remove,
        tries,
    })
}

#[tactic(auto, unfolding(crate::specs::Jobs::move_line))]
fn move_line(alloc: Global, folders: &Folders, rest: Rest<'_>) -> Result<Call, PlayKind>
    ensures { Gives (λ call. call) result (move_line folders.now (option_copied rest.entry)) }
{
    let (from, rest) = folder(folders, rest)?;
    let (unique, rest) = word(rest)?;
    let (to, rest) = folder(folders, rest)?;
    let tries = tries(rest)?;
    let unique = Bytes::copied(alloc, unique)?;
    Ok(Call::Move {
        folder: from,
        unique,
        to,
        tries,
    })
}

#[tactic(auto, unfolding(crate::specs::Jobs::expunge_line))]
fn expunge_line(alloc: Global, folders: &Folders, rest: Rest<'_>) -> Result<Call, PlayKind>
    ensures { Gives (λ call. call) result (expunge_line folders.now (option_copied rest.entry)) }
{
    let (folder, rest) = folder(folders, rest)?;
    let (unique, rest) = word(rest)?;
    let tries = tries(rest)?;
    let unique = Bytes::copied(alloc, unique)?;
    Ok(Call::Expunge {
        folder,
        unique,
        tries,
    })
}

#[tactic(auto, unfolding(crate::specs::Jobs::copy_line))]
fn copy_line(alloc: Global, folders: &Folders, rest: Rest<'_>) -> Result<Call, PlayKind>
    ensures { Gives (λ call. call) result (copy_line folders.now (option_copied rest.entry)) }
{
    let (from, rest) = folder(folders, rest)?;
    let (unique, rest) = word(rest)?;
    let (target, rest) = folder(folders, rest)?;
    let (fresh, rest) = word(rest)?;
    let tries = tries(rest)?;
    let unique = Bytes::copied(alloc, unique)?;
    let fresh = Bytes::copied(alloc, fresh)?;
    Ok(Call::Copy {
        folder: from,
        unique,
        to: target,
        fresh,
        tries,
    })
}

#[tactic(auto, unfolding(crate::specs::Jobs::clean_line))]
fn clean_line(folders: &Folders, rest: Rest<'_>) -> Result<Call, PlayKind>
    ensures { Gives (λ call. call) result (clean_line folders.now (option_copied rest.entry)) }
{
    let (folder, rest) = folder(folders, rest)?;
    end(rest)?;
    Ok(Call::Clean { folder })
}

/// The flags of a word.
fn flags(word: &[u8]) -> Result<Flags, PlayKind>
    ensures { result ≡ ok_or (flags_in word.now) (Name BadFlag) }
{
    flags_from(word).ok_or(PlayKind::Name(NameError::BadFlag))
}

/// The last word, a number of tries.
#[tactic(auto, unfolding(crate::specs::Jobs::tries_at))]
fn tries(rest: Rest<'_>) -> Result<u64, PlayKind>
    ensures { result ≡ tries_at (option_copied rest.entry) }
{
    let (tries, rest) = number_word(rest)?;
    end(rest)?;
    Ok(tries)
}
