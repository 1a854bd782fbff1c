//! At which entries things came to be so, of which nothing else that is kept tells the moment.
//!
//! Entries are what a watch is told, numbered from 0 in their order: each file and each further name at the beginning, and then each step.
//! Nothing is proved of them but that they are safe.

use crate::claims::{Acts, NO_ACTS};
use crate::presences::Presences;
use md_dirs::Path;
use md_kept::{
    Change, Files, Messages, Named, Paths, Table, is_cur, is_message, message_of, number_of,
};
use md_log::{Call, Deed, Reply, Step};
use std::alloc::{AllocError, Global};

/// The entries at which a file was made, last made or written to, first a message since it was none, and first a message in cur.
#[derive(Clone, Copy)]
pub(crate) struct FileMarks {
    pub(crate) made: u32,
    pub(crate) written: u32,
    pub(crate) seen: u32,
    pub(crate) cur: u32,
}

/// What is there before a step.
#[derive(Clone, Copy)]
pub(crate) struct There<'a> {
    pub(crate) paths: &'a Paths,
    pub(crate) files: &'a Files,
    pub(crate) messages: &'a Messages,
    pub(crate) presences: &'a Presences,
}

#[derive(Drop)]
pub(crate) struct Marks {
    /// How many entries are of the beginning, and how many of them are files.
    begun: usize,
    begun_files: usize,
    /// By the numbers of files.
    files: Vec<FileMarks>,
    /// Of paths that are there since the beginning, by the numbers of their directories: those that their first file's entry doesn't give.
    names: Table<usize>,
    /// Of messages that are in their folders since the beginning: those that the entry of the first file they were doesn't give.
    messages: Table<usize>,
    /// The files of the paths that the last step took away and turned to another file.
    pub(crate) taken: Option<usize>,
    pub(crate) turned: Option<usize>,
    /// What the actor of the last step did about the message of which it answered.
    pub(crate) acts: Acts,
}

impl Marks {
    pub(crate) fn new(alloc: Global) -> Self {
        Marks {
            begun: 0,
            begun_files: 0,
            files: Vec::new(alloc),
            names: Table::new(alloc),
            messages: Table::new(alloc),
            taken: None,
            turned: None,
            acts: NO_ACTS,
        }
    }

    /// The entry of the step of a number.
    pub(crate) fn of_step(&self, step: usize) -> usize {
        self.begun.saturating_add(step)
    }

    pub(crate) fn of_file(&self, file: usize) -> Option<FileMarks> {
        self.files.get(file).copied()
    }

    /// The entry of a path that is there since the beginning, and names a file.
    pub(crate) fn of_path(&self, number: usize, name: &[u8], file: usize) -> Option<usize> {
        match self.names.get(number, name) {
            None => Some(self.of_file(file)?.made as usize),
            Some(entry) => Some(*entry),
        }
    }

    /// The entry of a message that is in a folder since the beginning.
    pub(crate) fn of_message(
        &self,
        messages: &Messages,
        folder: u32,
        unique: &[u8],
    ) -> Option<usize> {
        match self.messages.get(folder as usize, unique) {
            None => {
                let first = messages.first_file_in(folder, unique)?;
                Some(self.of_file(first)?.made as usize)
            }
            Some(entry) => Some(*entry),
        }
    }

    /// At the beginning a path comes to name a file, which is a new one or not.
    pub(crate) fn begin(
        &mut self,
        path: &Path,
        file: usize,
        files: &Files,
        messages: &Messages,
    ) -> Result<(), AllocError> {
        let entry = self.begun;
        if file == self.files.len() {
            self.make(entry)?;
            self.begun_files = self.files.len();
        } else {
            self.begin_name(entry, path, file, messages)?;
        }
        self.show(entry, Some((path, file)), files);
        self.begun = entry.saturating_add(1);
        Ok(())
    }

    /// At the beginning a file has a further path.
    fn begin_name(
        &mut self,
        entry: usize,
        path: &Path,
        file: usize,
        messages: &Messages,
    ) -> Result<(), AllocError> {
        self.names.put(
            number_of(path.folder, path.place),
            path.name.as_slice(),
            entry,
        )?;
        match message_of(path) {
            Some(unique) if messages.count_in(path.folder, unique) == 0 => {
                self.messages.put(path.folder as usize, unique, entry)
            }
            Some(unique) => self.keep_first(path.folder, unique, file, messages),
            None => Ok(()),
        }
    }

    /// Keeps the entry of a message, which is in a folder since the beginning, where it comes to be an earlier file than it was first.
    fn keep_first(
        &mut self,
        folder: u32,
        unique: &[u8],
        file: usize,
        messages: &Messages,
    ) -> Result<(), AllocError> {
        match messages.first_file_in(folder, unique) {
            Some(first) if file < first => match self.of_message(messages, folder, unique) {
                Some(entry) => self.messages.put(folder as usize, unique, entry),
                None => Ok(()),
            },
            _ => Ok(()),
        }
    }

    /// Goes on by the step of a number, which changes paths so, and which answers of a message of which its actor did this.
    pub(crate) fn step(
        &mut self,
        number: usize,
        step: &Step,
        change: &Change<'_>,
        there: &There<'_>,
        acts: Acts,
    ) -> Result<(), AllocError> {
        let entry = self.of_step(number);
        self.touch(entry, &step.call, there.paths)?;
        self.turn(change, there)?;
        self.join(change, there)?;
        self.show(entry, change.named, there.files);
        self.taken = change.taken.map(|(_, file)| file);
        self.turned = change.turned.map(|(_, file)| file);
        self.acts = acts;
        Ok(())
    }

    /// What a call does to files, but for their paths. A write that fails may have written a part.
    fn touch(&mut self, entry: usize, call: &Call, paths: &Paths) -> Result<(), AllocError> {
        match call {
            Call::At {
                deed: Deed::Create,
                reply: Reply::Ok,
                ..
            } => self.make(entry),
            Call::At {
                deed: Deed::Write,
                path,
                reply: Reply::Ok | Reply::Fault,
            } => {
                self.write(entry, paths.file_at(path));
                Ok(())
            }
            _ => Ok(()),
        }
    }

    fn make(&mut self, entry: usize) -> Result<(), AllocError> {
        let entry = short(entry);
        self.files.push(FileMarks {
            made: entry,
            written: entry,
            seen: entry,
            cur: entry,
        })?;
        Ok(())
    }

    fn write(&mut self, entry: usize, file: Option<usize>) {
        if let Some(file) = file
            && let Some(marks) = self.files.get_mut(file)
        {
            marks.written = short(entry);
        }
    }

    /// Keeps the entry of a path, which is there since the beginning, where it turns from its first file to another.
    fn turn(&mut self, change: &Change<'_>, there: &There<'_>) -> Result<(), AllocError> {
        let Some((path, file)) = change.turned else {
            return Ok(());
        };
        let number = number_of(path.folder, path.place);
        let name = path.name.as_slice();
        if there.presences.names.since(number, name) > 0 {
            return Ok(());
        }
        match self.of_path(number, name, file) {
            None => Ok(()),
            Some(entry) => self.names.put(number, name, entry),
        }
    }

    /// A message that is in its folder since the beginning may come to be another file of the beginning.
    fn join(&mut self, change: &Change<'_>, there: &There<'_>) -> Result<(), AllocError> {
        let Some((path, file)) = change.named else {
            return Ok(());
        };
        if file >= self.begun_files {
            return Ok(());
        }
        match message_of(path) {
            Some(unique) if there.is_since_beginning(path.folder, unique) => {
                self.keep_first(path.folder, unique, file, there.messages)
            }
            _ => Ok(()),
        }
    }

    /// A path comes to name a file, before which files are as these.
    fn show(&mut self, entry: usize, named: Option<Named<'_>>, files: &Files) {
        let Some((path, file)) = named else {
            return;
        };
        if !is_message(path) {
            return;
        }
        if let Some(marks) = self.files.get_mut(file) {
            if !files.is_seen(file) {
                marks.seen = short(entry);
            }
            if is_cur(path.place) && !files.was_cur(file) {
                marks.cur = short(entry);
            }
        }
    }
}

impl There<'_> {
    fn is_since_beginning(&self, folder: u32, unique: &[u8]) -> bool {
        self.messages.count_in(folder, unique) > 0
            && self.presences.messages.since(folder as usize, unique) == 0
    }
}

/// An entry, as it is kept of files: it takes four bytes. One past 4,294,967,294 is not told from others.
fn short(entry: usize) -> u32 {
    u32::try_from(entry).unwrap_or(u32::MAX)
}
