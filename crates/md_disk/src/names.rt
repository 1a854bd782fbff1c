//! The names that a reading of a directory gives.
use memchr::memchr;
use std::alloc::{AllocError, Global};
use std::io;
use std::io::Read;

// Bytes that one read of a directory is asked for.
const ROOM: usize = 32_768;

/// A directory that is read a name at a time. Each name in the buffer is ended by a NUL.
#[derive(Drop)]
pub(crate) struct Names<D: Read + Drop> {
    dir: D,
    buffer: Vec<u8>,
    // Where the name begins and ends, and where the bytes that were read end.
    from: usize,
    until: usize,
    end: usize,
}

impl<D: Read + Drop> Names<D> {
    /// A directory that was just opened, before its first name. Refused only when out of memory.
    pub(crate) fn new(alloc: Global, dir: D) -> Result<Self, AllocError> {
        Ok(Names {
            dir,
            buffer: vec![in alloc; 0; ROOM]?,
            from: 0,
            until: 0,
            end: 0,
        })
    }

    /// Goes to the next name: false past the last.
    pub(crate) fn advance(&mut self) -> io::Result<bool> {
        self.from = self.until.saturating_add(1);
        if self.from >= self.end {
            let count = self.dir.read(self.buffer.as_mut_slice())?;
            self.from = 0;
            self.end = count;
            if count == 0 {
                self.until = 0;
                return Ok(false);
            }
        }
        let left = part(self.buffer.as_slice(), self.from, self.end);
        let len = memchr(0, left).unwrap_or(left.len());
        self.until = self.from.saturating_add(len);
        Ok(true)
    }

    /// The name.
    pub(crate) fn name(&self) -> &[u8] {
        part(self.buffer.as_slice(), self.from, self.until)
    }
}

// The bytes from one position to another, and none where there are no such.
fn part(bytes: &[u8], from: usize, until: usize) -> &[u8] {
    if from <= until && until <= bytes.len() {
        &bytes[from..until]
    } else {
        &[]
    }
}

/// Whether a name is one of a file: not `.`, nor `..`.
pub(crate) fn is_entry(name: &[u8]) -> bool {
    !name.is_empty() && name != b".".as_slice() && name != b"..".as_slice()
}
