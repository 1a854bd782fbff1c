//! A system that counts what is read of it.
use std::alloc::Allocator;
use std::cell::Cell;
use std::fs::{Files, Metadata, OpenOptions};
use std::io;
use std::time::{Clock, Duration};

/// A system that says how many directories were opened to be read, since it was asked last.
pub(super) trait Counted: Files + Clock {
    fn take_readings(&self) -> u64;
}

/// The files and the clock of another system. It counts the directories that are opened to be read.
#[derive(Drop)]
pub(super) struct Counting<'a, R: Files + Clock> {
    real: &'a R,
    // Whether the clock stands at 1970, so that each directory was changed after it and none rests.
    is_early: bool,
    readings: Cell<u64>,
}

impl<'a, R: Files + Clock> Counting<'a, R> {
    /// A system whose directories rest, unless its clock is early.
    pub(super) fn new(real: &'a R, is_early: bool) -> Self {
        Counting {
            real,
            is_early,
            readings: Cell::new(0),
        }
    }
}

impl<'a, R: Files + Clock> Counted for Counting<'a, R> {
    fn take_readings(&self) -> u64 {
        let readings = self.readings.get();
        self.readings.set(0);
        readings
    }
}

impl<'a, R: Files + Clock> Clock for Counting<'a, R> {
    fn monotonic(&self) -> io::Result<Duration> {
        self.real.monotonic()
    }

    fn since_1970(&self) -> io::Result<Duration> {
        if self.is_early {
            Ok(Duration::from_secs(0))
        } else {
            self.real.since_1970()
        }
    }

    fn sleep(&self, duration: Duration) {
        if !self.is_early {
            self.real.sleep(duration);
        }
    }
}

impl<'a, R: Files + Clock> Files for Counting<'a, R> {
    type File = R::File;

    type Dir = R::Dir;

    fn open_file(&self, how: &OpenOptions, path: &str) -> io::Result<R::File> {
        self.real.open_file(how, path)
    }

    fn open_dir(&self, path: &str) -> io::Result<R::Dir> {
        self.readings.set(self.readings.get().saturating_add(1));
        self.real.open_dir(path)
    }

    fn metadata(&self, path: &str) -> io::Result<Metadata> {
        self.real.metadata(path)
    }

    fn symlink_metadata(&self, path: &str) -> io::Result<Metadata> {
        self.real.symlink_metadata(path)
    }

    fn copy(&self, from: &str, to: &str) -> io::Result<u64> {
        self.real.copy(from, to)
    }

    fn rename(&self, from: &str, to: &str) -> io::Result<()> {
        self.real.rename(from, to)
    }

    fn remove_file(&self, path: &str) -> io::Result<()> {
        self.real.remove_file(path)
    }

    fn create_dir(&self, path: &str) -> io::Result<()> {
        self.real.create_dir(path)
    }

    fn remove_dir(&self, path: &str) -> io::Result<()> {
        self.real.remove_dir(path)
    }

    fn remove_dir_all<B: Allocator>(&self, alloc: B, path: &str) -> io::Result<()> {
        self.real.remove_dir_all(alloc, path)
    }

    fn hard_link(&self, original: &str, link: &str) -> io::Result<()> {
        self.real.hard_link(original, link)
    }

    fn create_dir_with_mode(&self, path: &str, mode: u32) -> io::Result<()> {
        self.real.create_dir_with_mode(path, mode)
    }
}
