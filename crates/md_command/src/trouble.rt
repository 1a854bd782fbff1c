//! Why a command, or what it does with one message, is not done.
ghost use Rattle.std.specs.Prelude.{◌≡◌};
ghost use Rattle.md_command.specs.Troubles.{status_of, text_of};

use crate::status::Status;

/// Why something is not done.
#[derive(Clone, Copy)]
pub enum Trouble {
    /// It is done, but may be lost if the machine stops.
    Unflushed,
    /// A word is not one that the command takes.
    BadKey,
    BadChange,
    BadFolder,
    BadClause,
    BadCall,
    BadGrade,
    NeedsOwed,
    SameMaildir,
    /// The message can't be had, or is not as the command wants it.
    NotThere,
    NotTrashed,
    OtherInfo,
    TooLong,
    NotText,
    NotAFile,
    NoMailbox,
    TwoNames,
    Flawed,
    /// There is no such maildir.
    NoMaildir,
    /// There is no such directory of messages.
    NoDirectory,
    /// A log can't be opened.
    NoLog,
    /// A name can't be made.
    NameTaken,
    CannotMake,
    OtherSystem,
    /// A message could not be read, or what was read not be written.
    Unread,
    Unwritten,
    /// A message is delivered, and its name not printed.
    Unprinted,
    /// It may be tried again.
    Lost,
    TimedOut,
    TmpGone,
    Fault,
    NoName,
    NoMemory,
    /// The rights are wanting.
    NoRights,
}

impl Trouble {
    /// The status of a command that ends so.
    pub fn status(self) -> Status
        ensures { result ≡ status_of self }
    {
        match self {
            Trouble::Unflushed => Status::Done,
            Trouble::BadKey
            | Trouble::BadChange
            | Trouble::BadFolder
            | Trouble::BadClause
            | Trouble::BadCall
            | Trouble::BadGrade
            | Trouble::NeedsOwed
            | Trouble::SameMaildir => Status::Usage,
            Trouble::NotThere
            | Trouble::NotTrashed
            | Trouble::OtherInfo
            | Trouble::TooLong
            | Trouble::NotText
            | Trouble::NotAFile
            | Trouble::NoMailbox
            | Trouble::TwoNames
            | Trouble::Flawed => Status::DataError,
            Trouble::NoMaildir | Trouble::NoDirectory | Trouble::NoLog => Status::NoInput,
            Trouble::NameTaken | Trouble::CannotMake | Trouble::OtherSystem => {
                Status::CannotCreate
            }
            Trouble::Unread | Trouble::Unwritten | Trouble::Unprinted => Status::InputOutput,
            Trouble::Lost
            | Trouble::TimedOut
            | Trouble::TmpGone
            | Trouble::Fault
            | Trouble::NoName
            | Trouble::NoMemory => Status::TryAgain,
            Trouble::NoRights => Status::NoPermission,
        }
    }

    /// What is said of it.
    pub fn text(self) -> &'static str
        ensures { result.now ≡ text_of self }
    {
        match self {
            Trouble::Unflushed => "delivered, but the directory could not be flushed",
            Trouble::BadKey => "not the name of a message, nor its path in this maildir",
            Trouble::BadChange => "not a change of flags, as +FS-T",
            Trouble::BadFolder => "not the name of a folder",
            Trouble::BadClause => "not the name of a clause that may be allowed",
            Trouble::BadCall =>
                "not a call of a job: deliver, seen, flag, move, copy, expunge or clean",
            Trouble::BadGrade => "not a grade: lost, misled, owed or custom",
            Trouble::NeedsOwed => "it goes with --owed or --relies",
            Trouble::SameMaildir => "the message is there already",
            Trouble::NotThere => "no such message",
            Trouble::NotTrashed => "the message has not the flag T",
            Trouble::OtherInfo => "the name of the message has no flags after its colon",
            Trouble::TooLong => "the message is longer than 16777216 bytes",
            Trouble::NotText => "its name is not UTF-8",
            Trouble::NotAFile => "it is no regular file",
            Trouble::NoMailbox => "no line 'From ' begins the first message",
            Trouble::TwoNames => "it has two names",
            Trouble::Flawed => "the maildir has flaws",
            Trouble::NoMaildir => "no such maildir",
            Trouble::NoDirectory => "no such directory",
            Trouble::NoLog => "it can't be opened",
            Trouble::NameTaken => "the name is taken",
            Trouble::CannotMake => "it can't be made",
            Trouble::OtherSystem => "it is on another file system",
            Trouble::Unread => "reading failed",
            Trouble::Unwritten => "writing failed",
            Trouble::Unprinted => "delivered, but its name could not be printed",
            Trouble::Lost => "others kept changing the message",
            Trouble::TimedOut => "the delivery took more than 24 hours",
            Trouble::TmpGone => "the file in tmp is gone",
            Trouble::Fault => "it could not be done",
            Trouble::NoName => "the name of this host makes no unique name",
            Trouble::NoMemory => "out of memory",
            Trouble::NoRights => "permission denied",
        }
    }
}
