//! Messages that are read.
use crate::calls::{Calls, for_reading};
use crate::cause::Cause;
use crate::error::CallError;
use md_dirs::Place;
use md_jobs::{DirReply, PathRef, Purpose};
use std::alloc::{AllocError, Global};
use std::fs::Files;
use std::io::ErrorKind;
use std::time::Clock;

impl<'r, R: Files + Clock> Calls<'r, R> {
    /// Opens the message of a unique name for reading. It is looked for in new, and then in cur, and up to `tries` times, at least once,
    /// where its name was gone when it was opened: after that the reply is a fault. `NotFound` where new and cur rested without it, and
    /// where one of them is not there. What is no regular file is not opened. Refused only when out of memory.
    pub fn open_message(
        &mut self,
        alloc: Global,
        folder: u32,
        unique: &[u8],
        tries: u64,
    ) -> Result<(DirReply, Option<R::File>), AllocError> {
        let opened = self.open_again(alloc, folder, unique, tries);
        self.reply(opened)
    }

    // Opens it, and looks for it again, up to so many times, where its name was gone when it was opened.
    fn open_again(
        &mut self,
        alloc: Global,
        folder: u32,
        unique: &[u8],
        tries: u64,
    ) -> Result<R::File, CallError> {
        for _ in 0..tries.max(1) {
            let path = self.message_path(alloc, folder, unique)?;
            match self.open_regular(path.as_str()) {
                Err(CallError::Refused(Cause::System(ErrorKind::NotFound))) => {}
                opened => return opened,
            }
        }
        Err(CallError::Refused(Cause::Lost))
    }

    // The path of a message. Whatever its name, it is opened, as a Move acts on any name.
    fn message_path(
        &mut self,
        alloc: Global,
        folder: u32,
        unique: &[u8],
    ) -> Result<String, CallError> {
        let purpose = Purpose::Move { to: folder };
        for place in [Place::New, Place::Cur] {
            if let Some(name) = self.find(alloc, folder, place, unique, &purpose)? {
                let path = PathRef::new(folder, place, name.as_slice());
                return self.folders.file(alloc, &path);
            }
        }
        Err(CallError::Refused(Cause::NoMessage))
    }

    // Opens a file for reading. Opening a pipe would wait for a writer, so what is there is looked at first.
    fn open_regular(&self, path: &str) -> Result<R::File, CallError> {
        if !self.files.symlink_metadata(path)?.is_file() {
            return Err(CallError::Refused(Cause::NotAFile));
        }
        Ok(self.files.open_file(&for_reading(), path)?)
    }
}
