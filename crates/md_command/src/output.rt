//! What is written to standard output.
use crate::failure::Failure;
use crate::session::{Host, Session};
use crate::trouble::Trouble;
use std::io;
use std::io::Write;

/// Writes bytes to standard output, whole. Refused as `Unwritten`, `NoRights` or `NoMemory` of it; a part may then be written.
pub fn print<R: Host>(session: &Session<'_, R>, bytes: &[u8]) -> Result<(), Failure> {
    io::writer(session.host).write_all(bytes).map_err(|error| {
        Failure::of(session.alloc, Trouble::Unwritten, &error).at(session.alloc, "standard output")
    })
}
