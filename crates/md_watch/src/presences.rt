//! When names were in directories, and messages in folders.
ghost use Rattle.std.specs.Prelude.{◌≡◌, OnOk, is_some, true, false};
ghost use Rattle.md_kept.specs.Changes.{turn_of};
ghost use Rattle.md_kept.specs.Files.{lent_as};
ghost use Rattle.md_watch.specs.Presences.{KeepsNone, is_in_folder, in_folders, NotesPath, NotesMessage, Follows};

use crate::spells::Spells;
use md_kept::{Change, Messages, Named, message_of, number_of};
use std::alloc::{AllocError, Global};

/// Whether the messages of a change's paths are in the folders of these paths.
#[derive(Clone, Copy)]
pub(crate) struct InFolders {
    pub(crate) named: bool,
    pub(crate) taken: bool,
}

/// Whether they are, as messages are counted.
pub(crate) fn in_folders(messages: &Messages, change: &Change<'_>) -> InFolders
    ensures { result ≡ in_folders messages.now (turn_of change.now) }
{
    InFolders {
        named: is_in_folder(messages, change.named),
        taken: is_in_folder(messages, change.taken),
    }
}

fn is_in_folder(messages: &Messages, named: Option<Named<'_>>) -> bool
    ensures { result ≡ is_in_folder messages.now (lent_as named.entry) }
{
    named.is_some_and(|(path, _)| {
        message_of(path).is_some_and(|unique| messages.count_in(path.folder, unique) > 0)
    })
}

/// When names were in directories, and messages in folders.
#[derive(Drop)]
pub(crate) struct Presences {
    /// By the numbers of directories and the names.
    pub(crate) names: Spells,
    /// By folders and the unique names.
    pub(crate) messages: Spells,
}

impl Presences {
    pub(crate) fn new(alloc: Global) -> Self
        ensures { KeepsNone result }
    {
        Presences {
            names: Spells::new(alloc),
            messages: Spells::new(alloc),
        }
    }

    /// A step of a number changed paths so, and their messages were in their folders before it or not, and are after it or not. Where both
    /// paths are of one message, it was there by the path that is taken, and is there by the other: nothing of it is noted.
    pub(crate) fn follow(
        &mut self,
        change: &Change<'_>,
        before: InFolders,
        after: InFolders,
        now: usize,
    ) -> Result<(), AllocError>
        ensures { OnOk result (Follows (turn_of change.now) before after now self.old self.new) }
    {
        let was = change.turned.is_some();
        let names = &mut self.names;
        note_path(names, change.named, was, true, now)?;
        note_path(names, change.taken, true, false, now)?;
        let messages = &mut self.messages;
        note_message(messages, change.named, before.named, after.named, now)?;
        note_message(messages, change.taken, before.taken, after.taken, now)
    }
}

/// Whether a path was there before a step, and is there after it.
fn note_path(
    names: &mut Spells,
    named: Option<Named<'_>>,
    was: bool,
    is: bool,
    now: usize,
) -> Result<(), AllocError>
    ensures { OnOk result (NotesPath (lent_as named.entry) was is now names.old names.new) }
{
    let Some((path, _)) = named else {
        return Ok(());
    };
    let number = number_of(path.folder, path.place);
    names.note(number, path.name.as_slice(), was, is, now)
}

/// Whether the message of a path was in its folder before a step, and is there after it.
fn note_message(
    messages: &mut Spells,
    named: Option<Named<'_>>,
    was: bool,
    is: bool,
    now: usize,
) -> Result<(), AllocError>
    ensures { OnOk result (NotesMessage (lent_as named.entry) was is now messages.old messages.new) }
{
    let Some((path, _)) = named else {
        return Ok(());
    };
    match message_of(path) {
        None => Ok(()),
        Some(unique) => messages.note(path.folder as usize, unique, was, is, now),
    }
}
