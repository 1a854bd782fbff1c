//! The commands of a script, as its lines spell them.
ghost use Rattle.std.specs.Prelude.{◌≡◌};
ghost use Rattle.std.specs.Option.{option_copied};
ghost use Rattle.md_text.specs.Bind.{Reads};
ghost use Rattle.md_script.specs.Words.{Gives};
ghost use Rattle.md_script.specs.Held.{command_of};
ghost use Rattle.md_script.specs.Commands.{command_at, own_at, event_at, only_folder, read_line, unique_line};

mod image;
mod jobs;

use crate::error::PlayKind;
use crate::verb::{Mode, Verb, admit, verb_from};
use crate::words::{body, end, number_word, word};
use image::{file_line, folder, folder_line};
use jobs::submit_line;
use md_core::{Call, Event};
use md_dirs::ImageFile;
use md_name::UniqueParts;
use md_text::{Folders, Rest};
use std::alloc::Global;

/// A command, as the words of a line spell it. Folders are numbered from 0 in the order in which they were named, and
/// jobs from 1.
#[derive(Debug, Drop)]
pub enum Command<'a> {
    /// `folder NAME`: a new folder.
    Folder { name: &'a [u8] },
    /// `file FOLDER PLACE NAME STAMP [BODY]`: a file that the store begins with.
    File(ImageFile),
    /// `job ..`: a call, which becomes a job.
    Submit(Call),
    /// `step JOB NOW [OWN]`: one step of a job, at a moment in seconds.
    Step(Event),
    /// `finish JOB NOW [OWN]`: the steps of a job until it is answered, at one moment in seconds.
    Finish(Event),
    /// `list FOLDER`: the messages of a folder.
    List { folder: u32 },
    /// `first FOLDER`: a reading of new, which is kept.
    First { folder: u32 },
    /// `second FOLDER`: a reading of cur, joined with the kept one.
    Second { folder: u32 },
    /// `read UNIQUE`: the bytes of a message.
    Read { unique: &'a [u8] },
    /// `unique SEC MICRO PID COUNT HOST`: a made unique name.
    Unique(UniqueParts<'a>),
    /// `summary [BODY]`: the header summary of a message.
    Summary { message: Vec<u8> },
}

/// The command that a line spells, from the folders that were named before it and what it is read for.
///
/// The words are read from left to right, and the first that fails names the refusal: a command that may not come here is refused right
/// after its first word, a folder is looked up as its word is read, a missing word is met at its place, and words too many come last.
#[tactic(auto, unfolding(crate::specs::Commands::command_at))]
pub fn read_command<'a>(
    alloc: Global,
    folders: &Folders,
    mode: Mode,
    line: &'a [u8],
) -> Result<Command<'a>, PlayKind>
    ensures { Gives command_of result (command_at folders.now mode line.now) }
{
    let (first, rest) = word(Some(line))?;
    let verb = verb_from(first).ok_or(PlayKind::BadCommand)?;
    admit(mode, verb)?;
    // Large commands are made in functions of their own, so that no line makes room for what the others would hold.
    match verb {
        Verb::Folder => folder_line(folders, rest),
        Verb::File => file_line(alloc, folders, rest),
        Verb::Job => submit_line(alloc, folders, rest),
        Verb::Step => Ok(Command::Step(event(rest)?)),
        Verb::Finish => Ok(Command::Finish(event(rest)?)),
        Verb::List => Ok(Command::List {
            folder: only_folder(folders, rest)?,
        }),
        Verb::First => Ok(Command::First {
            folder: only_folder(folders, rest)?,
        }),
        Verb::Second => Ok(Command::Second {
            folder: only_folder(folders, rest)?,
        }),
        Verb::Read => read_line(rest),
        Verb::Unique => unique_line(rest),
        Verb::Summary => Ok(Command::Summary {
            message: body(alloc, rest)?,
        }),
    }
}

/// The last words: a job, a moment, and perhaps the job's own moment.
#[tactic(auto, unfolding(crate::specs::Commands::event_at))]
fn event(rest: Rest<'_>) -> Result<Event, PlayKind>
    ensures { result ≡ event_at (option_copied rest.entry) }
{
    let (job, rest) = number_word(rest)?;
    let (now, rest) = number_word(rest)?;
    let own = own(rest)?;
    Ok(Event { job, now, own })
}

/// The last word as a number, where it is not left out.
#[tactic(auto, unfolding(crate::specs::Commands::own_at))]
fn own(rest: Rest<'_>) -> Result<Option<u64>, PlayKind>
    ensures { result ≡ own_at (option_copied rest.entry) }
{
    if rest.is_none() {
        return Ok(None);
    }
    let (own, rest) = number_word(rest)?;
    end(rest)?;
    Ok(Some(own))
}

/// The last word, a folder, by its number.
#[tactic(auto, unfolding(crate::specs::Commands::only_folder))]
fn only_folder(folders: &Folders, rest: Rest<'_>) -> Result<u32, PlayKind>
    ensures { result ≡ only_folder folders.now (option_copied rest.entry) }
{
    let (folder, rest) = folder(folders, rest)?;
    end(rest)?;
    Ok(folder)
}

#[tactic(auto, unfolding(crate::specs::Commands::read_line))]
fn read_line(rest: Rest<'_>) -> Result<Command<'_>, PlayKind>
    ensures { Reads command_of result (read_line (option_copied rest.entry)) }
{
    let (unique, rest) = word(rest)?;
    end(rest)?;
    Ok(Command::Read { unique })
}

#[tactic(auto, unfolding(crate::specs::Commands::unique_line))]
fn unique_line(rest: Rest<'_>) -> Result<Command<'_>, PlayKind>
    ensures { Reads command_of result (unique_line (option_copied rest.entry)) }
{
    let (sec, rest) = number_word(rest)?;
    let (micro, rest) = number_word(rest)?;
    let (pid, rest) = number_word(rest)?;
    let (count, rest) = number_word(rest)?;
    let (host, rest) = word(rest)?;
    end(rest)?;
    Ok(Command::Unique(UniqueParts {
        sec,
        micro,
        pid,
        count,
        host,
    }))
}
