//! What is kept of files.
ghost use Rattle.std.specs.Prelude.{◌≡◌, [], OnOk, length};
ghost use Rattle.md_kept.specs.Changes.{turn_of};
ghost use Rattle.md_kept.specs.Files.{Adds, made_by, is_maker_in, is_unflushed_in, is_cut_in, was_cur_in, was_seen_in, is_seen_in, stamp_in, Changes, changing, written, cut, flushed, shown, hidden, come, gone, Turns, Follows, lent_as};

use crate::change::{Change, Named, is_cur, is_message};
use md_dirs::Bytes;
use std::alloc::{AllocError, Global};

/// What is kept of a file: who made it, where a step did; when it was last made or written to; whether it was written to and not flushed
/// since, and whether the last write to it failed; whether it was a message in cur, and whether readers saw it; and by how many paths they
/// see it.
#[derive(Drop)]
pub(crate) struct FileKept {
    maker: Option<Bytes>,
    stamp: u64,
    is_unflushed: bool,
    is_cut: bool,
    was_cur: bool,
    was_seen: bool,
    times: usize,
}

/// The files, in the order of their making.
#[derive(Drop)]
pub struct Files {
    all: Vec<FileKept>,
}

impl Files {
    pub fn new(alloc: Global) -> Self
        ensures { result.all.items ≡ [] }
    {
        Files {
            all: Vec::new(alloc),
        }
    }

    /// How many files were made.
    pub fn count(&self) -> usize
        ensures { result ≡ length self.now.all.items }
    {
        self.all.len()
    }

    pub fn is_maker(&self, file: usize, actor: &[u8]) -> bool
        ensures { result ≡ is_maker_in self.now.all.items file actor.now }
    {
        let Some(kept) = self.all.get(file) else {
            return false;
        };
        kept.maker
            .as_ref()
            .is_some_and(|maker| maker.as_slice() == actor)
    }

    /// Whether the file was written to, and not flushed since.
    pub fn is_unflushed(&self, file: usize) -> bool
        ensures { result ≡ is_unflushed_in self.now.all.items file }
    {
        self.all.get(file).is_some_and(|kept| kept.is_unflushed)
    }

    /// Whether the last write to the file failed.
    pub fn is_cut(&self, file: usize) -> bool
        ensures { result ≡ is_cut_in self.now.all.items file }
    {
        self.all.get(file).is_some_and(|kept| kept.is_cut)
    }

    pub fn was_cur(&self, file: usize) -> bool
        ensures { result ≡ was_cur_in self.now.all.items file }
    {
        self.all.get(file).is_some_and(|kept| kept.was_cur)
    }

    pub fn was_seen(&self, file: usize) -> bool
        ensures { result ≡ was_seen_in self.now.all.items file }
    {
        self.all.get(file).is_some_and(|kept| kept.was_seen)
    }

    /// Whether readers see the file.
    pub fn is_seen(&self, file: usize) -> bool
        ensures { result ≡ is_seen_in self.now.all.items file }
    {
        self.all.get(file).is_some_and(|kept| kept.times > 0)
    }

    /// When the file was last made or written to.
    pub fn stamp(&self, file: usize) -> u64
        ensures { result ≡ stamp_in self.now.all.items file }
    {
        self.all.get(file).map_or(0, |kept| kept.stamp)
    }

    pub fn make(&mut self, maker: Option<Bytes>, stamp: u64) -> Result<(), AllocError>
        ensures { OnOk result (Adds (made_by maker stamp) self.old.all.items self.new.all.items) }
    {
        self.all.push(FileKept {
            maker,
            stamp,
            is_unflushed: false,
            is_cut: false,
            was_cur: false,
            was_seen: false,
            times: 0,
        })?;
        Ok(())
    }

    /// A write is done, to the file of a path that has one.
    pub fn write(&mut self, file: Option<usize>, now: u64)
        ensures { changing (written now) file self.old.all.items self.new.all.items }
    {
        let Some(file) = file else {
            return;
        };
        if let Some(kept) = self.all.get_mut(file) {
            kept.stamp = now;
            kept.is_unflushed = true;
            kept.is_cut = false;
        }
    }

    /// A write fails.
    pub fn cut(&mut self, file: Option<usize>)
        ensures { changing cut file self.old.all.items self.new.all.items }
    {
        let Some(file) = file else {
            return;
        };
        if let Some(kept) = self.all.get_mut(file) {
            kept.is_cut = true;
        }
    }

    /// A flush is done.
    pub fn flush(&mut self, file: Option<usize>)
        ensures { changing flushed file self.old.all.items self.new.all.items }
    {
        let Some(file) = file else {
            return;
        };
        if let Some(kept) = self.all.get_mut(file) {
            kept.is_unflushed = false;
        }
    }

    pub fn follow(&mut self, change: &Change<'_>) -> Result<(), AllocError>
        ensures { OnOk result (Follows (turn_of change.now) self.old.all.items self.new.all.items) }
    {
        self.show(change.named)?;
        self.hide(change.taken);
        self.hide(change.turned);
        Ok(())
    }

    /// A path comes to name a file.
    fn show(&mut self, named: Option<Named<'_>>) -> Result<(), AllocError>
        ensures { OnOk result (Turns (come (lent_as named.entry)) self.old.all.items self.new.all.items) }
    {
        match named {
            Some((path, file)) if is_message(path) => self.show_once(file, is_cur(path.place)),
            _ => Ok(()),
        }
    }

    fn show_once(&mut self, file: usize, in_cur: bool) -> Result<(), AllocError>
        ensures { OnOk result (Changes file (shown in_cur) self.old.all.items self.new.all.items) }
    {
        if let Some(kept) = self.all.get_mut(file) {
            kept.times = kept.times.checked_add(1).ok_or(AllocError)?;
            kept.was_seen = true;
            kept.was_cur = in_cur || kept.was_cur;
        }
        Ok(())
    }

    /// A path names a file no longer.
    fn hide(&mut self, named: Option<Named<'_>>)
        ensures { Turns (gone (lent_as named.entry)) self.old.all.items self.new.all.items }
    {
        match named {
            Some((path, file)) if is_message(path) => self.hide_once(file),
            _ => (),
        }
    }

    fn hide_once(&mut self, file: usize)
        ensures { Changes file hidden self.old.all.items self.new.all.items }
    {
        if let Some(kept) = self.all.get_mut(file) {
            kept.times = kept.times.saturating_sub(1);
        }
    }
}
