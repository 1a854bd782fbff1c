//! The messages of an mbox.
//!
//! The format is mboxrd: a line that begins with `From ` begins a message and is none of its lines, a line of `>` and then `From ` has one
//! `>` more than in the message, and the empty line in front of such a line, or of the end, is none of the message's.
ghost use Rattle.std.specs.Prelude.{◌≡◌, ◌<◌, length, position, IfSome, OnOk};
ghost use Rattle.md_maildirs.specs.Mailbox.{is_other, is_from, is_empty, unmarked, unquoted as unquoted_by};

use std::alloc::{AllocError, Global};

// What begins a message.
const FROM: &[u8; 5] = b"From ";

/// Whether a line begins a message.
pub(crate) fn is_from_line(line: &[u8]) -> bool
    ensures { result ≡ is_from line.now }
{
    line.starts_with(FROM)
}

// Whether a line is its LF alone.
fn is_empty_line(line: &[u8]) -> bool
    ensures { result ≡ is_empty line.now }
{
    matches!(line, [b'\n'])
}

/// A line as the message has it.
pub(crate) fn unquoted(line: &[u8]) -> &[u8]
    ensures { result.now ≡ unquoted_by line.now }
{
    match line {
        [byte, others @ ..] if *byte == b'>' && is_from_line(unmarked(others)) => others,
        _ => line,
    }
}

// What a line is behind each `>` that it begins with.
fn unmarked(line: &[u8]) -> &[u8]
    ensures { result.now ≡ unmarked line.now }
{
    match first_other(line) {
        Some(at) => &line[at..],
        None => &[],
    }
}

// Where the first byte is that is no `>`.
fn first_other(line: &[u8]) -> Option<usize>
    ensures found { result ≡ position is_other line.now }
    ensures within { IfSome result (λ at. at < length line.now) }
{
    line.iter().position(|byte| *byte != b'>')
}

/// The message that is read.
#[derive(Drop)]
pub(crate) struct Draft {
    /// Its bytes.
    pub(crate) bytes: Vec<u8>,
    // An empty line was read that is not in the bytes.
    ends_empty: bool,
    /// It has more bytes than wanted, and those are not all.
    pub(crate) is_too_long: bool,
}

impl Draft {
    ghost use Rattle.std.specs.Prelude.{[], false};
    ghost use Rattle.md_maildirs.specs.Drafts.{draft_view, pushed, taken};

    /// A message without a line.
    pub(crate) fn new(alloc: Global) -> Draft
        ensures { draft_view result ≡ record { bytes = []; ends_empty = false; is_too_long = false } }
    {
        Draft {
            bytes: Vec::new(alloc),
            ends_empty: false,
            is_too_long: false,
        }
    }

    /// Takes the next line, which is none that begins a message. A message of more bytes than `most` is marked so. Where memory runs out,
    /// it is no message any more.
    pub(crate) fn take(&mut self, line: &[u8], most: usize) -> Result<(), AllocError>
        ensures { OnOk result (draft_view self.new ≡ taken most (draft_view self.old) line.now) }
    {
        if self.ends_empty {
            self.push(b"\n", most)?;
        }
        self.ends_empty = is_empty_line(line);
        if self.ends_empty {
            return Ok(());
        }
        self.push(unquoted(line), most)
    }

    // Appends bytes for which there is room.
    fn push(&mut self, bytes: &[u8], most: usize) -> Result<(), AllocError>
        ensures { OnOk result (draft_view self.new ≡ pushed most (draft_view self.old) bytes.now) }
    {
        if bytes.len() <= most.saturating_sub(self.bytes.len()) {
            return self.bytes.extend_from_slice(bytes);
        }
        self.is_too_long = true;
        Ok(())
    }
}
