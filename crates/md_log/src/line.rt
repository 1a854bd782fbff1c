//! The lines of a log, as their words spell them.
ghost use Rattle.std.specs.Prelude.{◌≡◌};
ghost use Rattle.std.specs.Option.{option_copied};
ghost use Rattle.md_log.specs.Words.{Gives};
ghost use Rattle.md_log.specs.Folders.{folder_of};
ghost use Rattle.md_log.specs.Lines.{path_at, line_of};

mod answers;
mod calls;
mod head;
mod ticks;

use crate::clause::Clause;
use crate::error::LineFault;
use crate::names::{Names, name};
use crate::words::{parted, word};
use calls::step_line;
use head::{head_line, head_word};
use md_dirs::{Bytes, FileName, Path, Place};
use md_name::Flags;
use md_text::{Folders, Rest, place_from};
use std::alloc::Global;
pub use ticks::Ticks;

/// What a call answered.
#[derive(Clone, Copy, PartialEq, Eq)]
pub enum Reply {
    Ok,
    /// The reading of a directory goes on.
    More,
    Exists,
    NotFound,
    Fault,
}

/// A call on one path.
#[derive(Clone, Copy, PartialEq, Eq)]
pub enum Deed {
    Create,
    Write,
    Flush,
    Unlink,
}

/// A call on two paths.
#[derive(Clone, Copy, PartialEq, Eq)]
pub enum Naming {
    Link,
    Rename,
}

/// What a program told its user of a message.
#[derive(Clone, Copy)]
pub enum Said {
    Delivered,
    /// In cur, with exactly these.
    Flags(Flags),
    /// To the folder of this number.
    Moved(u32),
    Expunged,
    Done,
    Failed,
    NotThere,
}

/// What an actor did.
#[derive(Drop)]
pub enum Call {
    At {
        deed: Deed,
        path: Path,
        reply: Reply,
    },
    Between {
        naming: Naming,
        old: Path,
        new: Path,
        reply: Reply,
    },
    List {
        folder: u32,
        place: Place,
        reply: Reply,
        shown: Names,
    },
    Answer {
        said: Said,
        folder: u32,
        unique: Bytes,
    },
}

/// A step: when, by whom, and what.
#[derive(Drop)]
pub struct Step {
    pub moment: u64,
    /// When the call began and returned, where that is known.
    pub ticks: Option<Ticks>,
    pub actor: Bytes,
    pub call: Call,
}

/// A line that isn't passed over.
#[derive(Drop)]
pub enum Line {
    Folder { name: Bytes },
    Allow { clause: Clause },
    File { path: Path, stamp: u64 },
    Also { path: Path, old: Path },
    Step(Step),
}

/// What a line says that is not passed over, of a log whose steps have begun or not, and which named these folders.
///
/// The words are read from left to right, and the first that fails names the fault; a line of the beginning that comes too late is refused
/// right after its first word.
#[tactic(auto, unfolding(crate::specs::Lines::line_of))]
pub fn read_line(
    alloc: Global,
    folders: &Folders,
    has_begun: bool,
    text: &[u8],
) -> Result<Line, LineFault>
    ensures { Gives (λ line. line) result (line_of folders.now has_begun text.now) }
{
    let (first, rest) = word(Some(text))?;
    match head_word(first) {
        Some(_) if has_begun => Err(LineFault::TooLate),
        Some(head) => head_line(alloc, folders, head, rest),
        None => Ok(Line::Step(step_line(alloc, folders, first, rest)?)),
    }
}

/// The number of the folder that a word names.
#[tactic(auto, unfolding(crate::specs::Folders::folder_of))]
fn folder(alloc: Global, folders: &Folders, word: &[u8]) -> Result<u32, LineFault>
    ensures { Gives (λ n. n) result (folder_of folders.now word.now) }
{
    let name = name(alloc, word)?;
    folders
        .place(name.as_slice())
        .ok_or(LineFault::UnknownFolder)
}

/// The next word as a path, `FOLDER/PLACE/NAME`.
#[tactic(auto, unfolding(crate::specs::Lines::path_at))]
fn path<'a>(alloc: Global, folders: &Folders, rest: Rest<'a>) -> Result<(Path, Rest<'a>), LineFault>
    ensures { Gives (λ read. (read.0, option_copied read.1)) result (path_at folders.now (option_copied rest.entry)) }
{
    let (word, rest) = word(rest)?;
    let (first, left) = parted(word, b'/', LineFault::BadLine)?;
    let (second, last) = parted(left, b'/', LineFault::BadLine)?;
    let folder = folder(alloc, folders, first)?;
    let place = place_from(second).ok_or(LineFault::BadPlace)?;
    let name = FileName::of(name(alloc, last)?);
    let path = Path {
        folder,
        place,
        name,
    };
    Ok((path, rest))
}
