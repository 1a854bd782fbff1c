//! What a command works with.
ghost use Rattle.std.specs.Prelude.{◌≡◌};
ghost use Rattle.md_command.specs.Troubles.{status_of};

use crate::failure::{Failure, failure_line};
use crate::status::Status;
use crate::trouble::Trouble;
use std::alloc::Global;
use std::fs::Files;
use std::io::{Eprint, Input, Print, Stderr};
use std::time::Clock;

/// What a command needs of the system.
pub trait Host: Files + Clock + Print + Eprint + Input {}

impl<R: Files + Clock + Print + Eprint + Input> Host for R {}

/// The system, memory, and the number of this process.
#[derive(Drop)]
pub struct Session<'r, R: Host> {
    pub host: &'r R,
    pub alloc: Global,
    pub pid: u64,
    /// Standard error, as what may be a terminal.
    pub errors: Stderr,
}

impl<'r, R: Host> Session<'r, R> {
    /// Says on standard error what failed and why, and gives the status of it. Where memory for the line is wanting, that is said.
    pub fn tell(&self, what: &[u8], failure: &Failure) -> Status
        ensures { result ≡ status_of failure.now.trouble }
    {
        match failure_line(self.alloc, what, failure) {
            Ok(line) => self.say(line.as_slice()),
            Err(_) => self.say(b"deolmutt: out of memory\n"),
        }
        failure.trouble.status()
    }

    /// Says of a line of a script or a log why it is refused; the line 0 is none. Where memory for that is wanting, that is said.
    pub fn refuse(&self, line: u64, why: &str) {
        match format!(in self.alloc; "line {line}: {why}\n") {
            Ok(said) => self.say(said.as_bytes()),
            Err(_) => self.say(b"line 0: no memory\n"),
        }
    }

    /// Says a line on standard error. Where that can't be written, nothing is left to be done.
    pub fn say(&self, line: &[u8]) {
        let text = std::str::from_utf8(line).unwrap_or("");
        let _told = self.host.eprint(text);
    }
}
