//! What is read in parts, of which none is longer than wanted.
ghost use Rattle.std.specs.Prelude.{◌≡◌, ◌≤◌, length, IfOk, IfSome};
ghost use Rattle.md_command.specs.Cuts.{cut, part};
ghost use Rattle.md_command.specs.Parts.{IsRead};

use crate::failure::Failure;
use crate::trouble::Trouble;
use memchr::memchr;
use std::alloc::{AllocError, Global};
use std::io;
use std::io::{ErrorKind, Read};

/// The most bytes of a message.
pub const MOST_BYTES: usize = 16_777_216;

// Bytes that one read is asked for.
const ROOM: usize = 65_536;

/// What the next line is.
#[derive(Clone, Copy, PartialEq)]
pub enum Line {
    /// There is none.
    End,
    /// It was read whole.
    Whole,
    /// It has more bytes than wanted, and was passed over.
    TooLong,
}

/// A reader that is read a line at a time, or by what else ends a part of it.
#[derive(Drop)]
pub struct Lines<R: Read + Drop> {
    reader: R,
    // What ends a line.
    end: u8,
    chunk: Vec<u8>,
    // What is left of the bytes that were read.
    from: usize,
    until: usize,
}

impl<R: Read + Drop> Lines<R> {
    /// A reader of lines, of which nothing was read. Refused only when out of memory.
    pub fn new(alloc: Global, reader: R) -> Result<Self, AllocError> {
        Lines::ended_by(alloc, reader, b'\n')
    }

    /// The same, of lines that end with this byte.
    pub fn ended_by(alloc: Global, reader: R, end: u8) -> Result<Self, AllocError> {
        Ok(Lines {
            reader,
            end,
            chunk: vec![in alloc; 0; ROOM]?,
            from: 0,
            until: 0,
        })
    }

    /// Reads the next line, with the byte that ends it: the last one may have none. One of more than `most` bytes is passed over. An
    /// interrupted read is made again; any other error, and lack of memory, ends the call.
    #[tactic(auto, using(crate::proofs::Parts::within))]
    pub fn next(&mut self, line: &mut Vec<u8>, most: usize) -> io::Result<Line>
        ensures { IfOk result (λ kind. IsRead kind most line.new.items) }
    {
        line.clear();
        let mut kind = Line::End;
        for _ in 0..u64::MAX {
            if self.from >= self.until && !self.fill()? {
                break;
            }
            let left = part(self.chunk.as_slice(), self.from, self.until);
            let (piece, is_last) = cut(left, self.end);
            self.from = self.from.saturating_add(piece.len());
            if kind == Line::TooLong || piece.len() > most.saturating_sub(line.len()) {
                line.clear();
                kind = Line::TooLong;
            } else {
                line.extend_from_slice(piece)?;
                kind = Line::Whole;
            }
            if is_last {
                break;
            }
        }
        Ok(kind)
    }

    /// Reads all that is left. None where it has more bytes than wanted.
    pub fn rest(&mut self, alloc: Global, most: usize) -> io::Result<Option<Vec<u8>>>
        ensures { IfOk result (λ read. IfSome read (λ bytes. length bytes.items ≤ most)) }
    {
        let mut bytes = Vec::new(alloc);
        for _ in 0..u64::MAX {
            if self.from >= self.until && !self.fill()? {
                break;
            }
            let piece = part(self.chunk.as_slice(), self.from, self.until);
            if piece.len() > most.saturating_sub(bytes.len()) {
                return Ok(None);
            }
            bytes.extend_from_slice(piece)?;
            self.from = self.until;
        }
        Ok(Some(bytes))
    }

    // Reads more: false at the end.
    fn fill(&mut self) -> io::Result<bool> {
        for _ in 0..u64::MAX {
            match self.reader.read(self.chunk.as_mut_slice()) {
                Ok(count) => {
                    self.from = 0;
                    self.until = count;
                    return Ok(count > 0);
                }
                Err(error) if error.kind() == ErrorKind::Interrupted => {}
                Err(error) => return Err(error),
            }
        }
        Ok(false)
    }
}

/// All that is read, as a message.
pub fn message<R: Read + Drop>(alloc: Global, mut lines: Lines<R>) -> Result<Vec<u8>, Failure>
    ensures { IfOk result (λ message. length message.items ≤ 16777216) }
{
    match lines.rest(alloc, MOST_BYTES) {
        Ok(Some(message)) => Ok(message),
        Ok(None) => Err(Failure::from(Trouble::TooLong)),
        Err(error) => Err(Failure::of(alloc, Trouble::Unread, &error)),
    }
}

// The bytes up to the first that ends a line and with it, and whether there is one.
fn cut(bytes: &[u8], end: u8) -> (&[u8], bool)
    ensures { (result.0.now, result.1) ≡ cut end bytes.now }
{
    match memchr(end, bytes) {
        Some(at) => (&bytes[..at + 1], true),
        None => (bytes, false),
    }
}

// The bytes from one position to another, and none where there are no such.
fn part(bytes: &[u8], from: usize, until: usize) -> &[u8]
    ensures { result.now ≡ part from until bytes.now }
{
    bytes.get(from..until).unwrap_or(&[])
}
