//! What is kept of messages.
ghost use Rattle.std.specs.Prelude.{◌≡◌, ℕ, None as Nothing, OnOk};
ghost use Rattle.std.specs.Option.{option_copied};
ghost use Rattle.md_kept.specs.Changes.{turn_of};
ghost use Rattle.md_kept.specs.Few.{few_at, IsLeast};
ghost use Rattle.md_kept.specs.Files.{lent_as};
ghost use Rattle.md_kept.specs.Messages.{count_in_folder, count_anywhere, count_as_file, was_in_folder, was_in_folder_as, was_anywhere, was_as_file, KeepsNone, ComesTo, GoesFrom, IsIn, in_folder_of, Comes, Goes, Follows};

use crate::change::{Change, Named, message_of};
use crate::few::Few;
use crate::table::{Table, Taken};
use std::alloc::{AllocError, Global};

/// Of a message in a folder: by how many paths it is there, and which files it ever was there.
#[derive(Drop)]
struct InFolder {
    times: usize,
    files: Few<()>,
}

/// Of a message: by how many paths it is there in all, what is kept of it by folders, and by how many paths each file is it. A message that
/// was once, and is no more, is there 0 times.
#[derive(Drop)]
struct Message {
    times: usize,
    folders: Few<InFolder>,
    files: Few<usize>,
}

impl Message {
    fn new() -> Self
        ensures none { result.times ≡ 0 }
        ensures folders { (folder : ℕ) → few_at result.folders folder ≡ Nothing }
        ensures files { (file : ℕ) → few_at result.files file ≡ Nothing }
    {
        Message {
            times: 0,
            folders: Few::None,
            files: Few::None,
        }
    }

    /// One more path of a folder is the message, as a file.
    fn come(&mut self, alloc: Global, folder: usize, file: usize) -> Result<(), AllocError>
        ensures { OnOk result (ComesTo folder file self.old self.new) }
    {
        self.times = self.times.checked_add(1).ok_or(AllocError)?;
        self.files.raise(alloc, file)?;
        let mut there = self.folders.take(folder).unwrap_or(InFolder {
            times: 0,
            files: Few::None,
        });
        there.come(alloc, file)?;
        self.folders.put(alloc, folder, there)
    }

    /// One path less is.
    fn go(&mut self, alloc: Global, folder: usize, file: usize) -> Result<(), AllocError>
        ensures { OnOk result (GoesFrom folder file self.old self.new) }
    {
        self.times = self.times.saturating_sub(1);
        self.files.lower(alloc, file)?;
        let Some(mut there) = self.folders.take(folder) else {
            return Ok(());
        };
        there.times = there.times.saturating_sub(1);
        self.folders.put(alloc, folder, there)
    }
}

impl InFolder {
    fn come(&mut self, alloc: Global, file: usize) -> Result<(), AllocError>
        ensures { OnOk result (IsIn file self.old self.new) }
    {
        self.times = self.times.checked_add(1).ok_or(AllocError)?;
        self.files.put(alloc, file, ())
    }
}

/// What is kept of messages.
#[derive(Drop)]
pub struct Messages {
    alloc: Global,
    /// By 0 and the unique names.
    all: Table<Message>,
}

impl Messages {
    pub fn new(alloc: Global) -> Self
        ensures { KeepsNone result }
    {
        Messages {
            alloc,
            all: Table::new(alloc),
        }
    }

    /// By how many paths the message is in the folder.
    pub fn count_in(&self, folder: u32, unique: &[u8]) -> usize
        ensures { result ≡ count_in_folder self.now folder unique.now }
    {
        self.in_folder(folder, unique)
            .map_or(0, |there| there.times)
    }

    /// By how many it is in any folder.
    pub fn count(&self, unique: &[u8]) -> usize
        ensures { result ≡ count_anywhere self.now unique.now }
    {
        self.all.get(0, unique).map_or(0, |message| message.times)
    }

    /// By how many paths the file is the message, in any folder.
    pub fn count_as(&self, unique: &[u8], file: usize) -> usize
        ensures { result ≡ count_as_file self.now unique.now file }
    {
        self.all
            .get(0, unique)
            .map_or(0, |message| message.files.get(file).copied().unwrap_or(0))
    }

    /// Whether the message was in the folder.
    pub fn was_in(&self, folder: u32, unique: &[u8]) -> bool
        ensures { result ≡ was_in_folder self.now folder unique.now }
    {
        self.in_folder(folder, unique).is_some()
    }

    /// Whether it was this file there.
    pub fn was_file_in(&self, folder: u32, unique: &[u8], file: usize) -> bool
        ensures { result ≡ was_in_folder_as self.now folder unique.now file }
    {
        self.in_folder(folder, unique)
            .is_some_and(|there| there.files.get(file).is_some())
    }

    /// The first file that it was there, by the numbers of files.
    pub fn first_file_in(&self, folder: u32, unique: &[u8]) -> Option<usize>
        ensures { IsLeast (was_in_folder_as self.now folder unique.now) result }
    {
        self.in_folder(folder, unique)?.files.first()
    }

    /// Whether it was in any folder.
    pub fn was(&self, unique: &[u8]) -> bool
        ensures { result ≡ was_anywhere self.now unique.now }
    {
        self.all.get(0, unique).is_some()
    }

    /// Whether it was this file there.
    pub fn was_file(&self, unique: &[u8], file: usize) -> bool
        ensures { result ≡ was_as_file self.now unique.now file }
    {
        self.all
            .get(0, unique)
            .is_some_and(|message| message.files.get(file).is_some())
    }

    fn in_folder<'a>(&'a self, folder: u32, unique: &'a [u8]) -> Option<&'a InFolder>
        ensures { option_copied result ≡ in_folder_of self.now folder unique.now }
    {
        self.all.get(0, unique)?.folders.get(folder as usize)
    }

    pub fn follow(&mut self, change: &Change<'_>) -> Result<(), AllocError>
        ensures { OnOk result (Follows (turn_of change.now) self.old self.new) }
    {
        self.come(change.named)?;
        self.go(change.taken)?;
        self.go(change.turned)
    }

    fn come(&mut self, named: Option<Named<'_>>) -> Result<(), AllocError>
        ensures { OnOk result (Comes (lent_as named.entry) self.old self.new) }
    {
        let Some((path, file)) = named else {
            return Ok(());
        };
        let Some(unique) = message_of(path) else {
            return Ok(());
        };
        let Taken { at, value } = self.all.take(0, unique);
        let mut message = value.unwrap_or(Message::new());
        message.come(self.alloc, path.folder as usize, file)?;
        self.all.put_back(at, 0, unique, message)
    }

    fn go(&mut self, named: Option<Named<'_>>) -> Result<(), AllocError>
        ensures { OnOk result (Goes (lent_as named.entry) self.old self.new) }
    {
        let Some((path, file)) = named else {
            return Ok(());
        };
        let Some(unique) = message_of(path) else {
            return Ok(());
        };
        let Taken { at, value } = self.all.take(0, unique);
        let Some(mut message) = value else {
            return Ok(());
        };
        message.go(self.alloc, path.folder as usize, file)?;
        self.all.put_back(at, 0, unique, message)
    }
}
