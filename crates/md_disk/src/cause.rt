//! Why the system did not do a call.
ghost use Rattle.std.specs.Prelude.{◌≡◌};
ghost use Rattle.md_disk.specs.Causes.{reply_by};

use md_jobs::DirReply;
use std::io::ErrorKind;
use thiserror::Error;

/// Why a call on a disk was not done. It prints as a line for people.
#[derive(Clone, Copy, Debug, PartialEq, Eq, Error)]
pub enum Cause {
    /// The system refused it so.
    #[error("{0}")]
    System(ErrorKind),
    /// A name is not UTF-8: std's files take text alone, and the call was not made.
    #[error("its name is not UTF-8")]
    NotText,
    /// The file that was written could not be flushed, and so it was not linked.
    #[error("its file could not be flushed")]
    Unflushed,
    /// Two names of one message rest in a directory.
    #[error("two names of it are in one directory")]
    TwoNames,
    /// A directory changed in each reading of it, so that none of them counts.
    #[error("its directory never rests")]
    NeverRests,
    /// No folder has that number.
    #[error("there is no such folder")]
    NoSuchFolder,
    /// The directory is not there: the folder is no maildir.
    #[error("its directory is not there")]
    NoDirectory,
    /// The directory in which the file was to get its new name is not there.
    #[error("the directory of its new name is not there")]
    NoPlace,
    /// The directory was not read, and no hint told of the message.
    #[error("its directory was not read")]
    NotRead,
    /// The message that was to be opened is in neither new nor cur.
    #[error("there is no such message")]
    NoMessage,
    /// The name that a message was to get is there.
    #[error("its new name is taken")]
    NameTaken,
    /// The message was found in each of the tries, and its name was gone when it was opened.
    #[error("its name was gone each time")]
    Lost,
    /// The message that was to be opened is a directory, a symbolic link or something else that is no regular file.
    #[error("it is no regular file")]
    NotAFile,
}

impl Cause {
    /// What a job is told of a call that was not done for this: EEXIST and ENOENT by name, and anything else as a fault.
    pub(crate) fn reply(self) -> DirReply
        ensures { result ≡ reply_by self }
    {
        match self {
            Cause::System(ErrorKind::AlreadyExists) | Cause::NameTaken => DirReply::Exists,
            Cause::System(ErrorKind::NotFound) | Cause::NoDirectory | Cause::NoMessage => {
                DirReply::NotFound
            }
            _ => DirReply::Fault,
        }
    }
}
