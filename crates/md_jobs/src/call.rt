//! What callers ask.
use md_dirs::Bytes;
use md_name::Flags;

/// The number of a job. Jobs are numbered from 1.
pub type JobId = u64;

/// What a caller asks of the store. Folders are numbered from 0. Unique names are those of maildir(5), of at most 200 bytes. `tries`, 1 to 16,
/// says how often the message is looked for where its name was gone when the call would have taken effect.
#[derive(Debug, Drop)]
pub enum Call {
    /// Delivers a message by way of tmp ("Using maildir format"), written in pieces of `chunk` bytes, at least 1. The body has at most
    /// 16,777,216 bytes, and the name was never used.
    Deliver {
        folder: u32,
        unique: Bytes,
        body: Bytes,
        chunk: u64,
    },
    /// Takes a new message to cur, its flags joined by these.
    Seen {
        folder: u32,
        unique: Bytes,
        flags: Flags,
        tries: u64,
    },
    /// Adds and removes flags of a message in cur.
    Flag {
        folder: u32,
        unique: Bytes,
        add: Flags,
        remove: Flags,
        tries: u64,
    },
    /// Takes a message to another folder.
    Move {
        folder: u32,
        unique: Bytes,
        to: u32,
        tries: u64,
    },
    /// Removes a message of cur that has the flag T.
    Expunge {
        folder: u32,
        unique: Bytes,
        tries: u64,
    },
    /// Gives a message a second name, in this folder or another, which was never used. The two messages share one file.
    Copy {
        folder: u32,
        unique: Bytes,
        to: u32,
        fresh: Bytes,
        tries: u64,
    },
    /// Removes files of tmp that have not been used for 36 hours (maildir(5)).
    Clean {
        folder: u32,
    },
}
