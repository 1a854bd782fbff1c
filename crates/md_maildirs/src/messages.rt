//! The messages that are read of an mbox.
use crate::mailbox::{Draft, is_from_line};
use md_command::{Failure, Line, Lines, MOST_BYTES, Trouble};
use std::alloc::Global;
use std::io::Read;

/// The messages of an mbox, one after another.
#[derive(Drop)]
pub(crate) struct Messages<L: Read + Drop> {
    lines: Lines<L>,
    line: Vec<u8>,
    // The message whose lines are read.
    draft: Option<Draft>,
}

impl<L: Read + Drop> Messages<L> {
    /// The messages of these lines, of which none was read.
    pub(crate) fn new(alloc: Global, lines: Lines<L>) -> Self {
        Messages {
            lines,
            line: Vec::new(alloc),
            draft: None,
        }
    }

    /// The next message. None past the last. Refused where reading fails, where a line stands in front of the first message, and when out
    /// of memory.
    pub(crate) fn next_message(&mut self, alloc: Global) -> Result<Option<Draft>, Failure> {
        for _ in 0..u64::MAX {
            let read = match self.lines.next(&mut self.line, MOST_BYTES) {
                Ok(read) => read,
                Err(error) => return Err(Failure::of(alloc, Trouble::Unread, &error)),
            };
            if read == Line::End {
                break;
            }
            if is_from_line(self.line.as_slice()) {
                let whole = self.draft.replace(Draft::new(alloc));
                if whole.is_some() {
                    return Ok(whole);
                }
            } else {
                self.take(read)?;
            }
        }
        Ok(self.draft.take())
    }

    // The line that was read is one of the message.
    fn take(&mut self, read: Line) -> Result<(), Failure> {
        let Some(draft) = &mut self.draft else {
            return Err(Failure::from(Trouble::NoMailbox));
        };
        draft.take(self.line.as_slice(), MOST_BYTES)?;
        if read == Line::TooLong {
            draft.is_too_long = true;
        }
        Ok(())
    }
}
