//! How many messages are done, said on a terminal.
ghost use Rattle.std.specs.Prelude.{◌≡◌, ◌+◌, min, IfOk};
ghost use Rattle.md_command.specs.Lines.{progress_line as line_of};

use crate::number::push_number;
use crate::session::{Host, Session};
use std::alloc::{AllocError, Global};
use std::io::IsTerminal;

// Takes the place of what was said, since a line feed may be far.
const BLANK: &[u8] = b"                              \r";

/// Counts messages, and where standard error is a terminal says their number once a second. Each number stays in its line until something
/// else is said.
#[derive(Drop)]
pub struct Progress {
    count: u64,
    // When it was looked whether to say something.
    second: u64,
    has_said: bool,
}

impl Progress {
    /// None is done.
    pub fn new<R: Host>(session: &Session<'_, R>) -> Progress
        ensures { result.count ≡ 0 }
    {
        Progress {
            count: 0,
            second: second_of(session),
            has_said: false,
        }
    }

    /// One more is done. In its first second work is not long, and the terminal is not asked for.
    pub fn step<R: Host>(&mut self, session: &Session<'_, R>)
        ensures { self.new.count ≡ min (self.old.count + 1) 18446744073709551615 }
    {
        self.count = self.count.saturating_add(1);
        let now = second_of(session);
        if now == self.second {
            return;
        }
        self.second = now;
        if session.errors.is_terminal() {
            self.say(session);
        }
    }

    fn say<R: Host>(&mut self, session: &Session<'_, R>)
        ensures { self.new.count ≡ self.old.count }
    {
        if let Ok(line) = progress_line(session.alloc, self.count) {
            session.say(line.as_slice());
            self.has_said = true;
        }
    }

    /// All are done.
    pub fn end<R: Host>(&self, session: &Session<'_, R>) {
        if self.has_said {
            session.say(BLANK);
        }
    }
}

// The number of messages, in a line that the next one is written over.
fn progress_line(alloc: Global, count: u64) -> Result<Vec<u8>, AllocError>
    ensures { IfOk result (λ line. line.items ≡ line_of count) }
{
    let mut line = Vec::new(alloc);
    push_number(&mut line, count)?;
    line.extend_from_slice(b" messages\r")?;
    Ok(line)
}

// The second since some start.
fn second_of<R: Host>(session: &Session<'_, R>) -> u64 {
    match session.host.monotonic() {
        Ok(time) => time.as_secs(),
        Err(_) => 0,
    }
}
