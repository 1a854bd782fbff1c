//! The statuses that the program ends with, those of sysexits.h.
ghost use Rattle.std.specs.Prelude.{◌≡◌, max};
ghost use Rattle.md_command.specs.Statuses.{number_of};

/// How a command ended.
#[derive(Clone, Copy)]
pub enum Status {
    /// All of it was done, 0.
    Done,
    /// A line of a script was refused, or its run; or a log breaks the law, 1.
    Refused,
    /// A log is none, or was not read, or what was found not printed, 2.
    Unjudged,
    /// The words are wrong, 64 (EX_USAGE).
    Usage,
    /// The message can't be had, or is not as the command wants it, 65 (EX_DATAERR).
    DataError,
    /// There is no such maildir, 66 (EX_NOINPUT).
    NoInput,
    /// A name can't be made, 73 (EX_CANTCREAT).
    CannotCreate,
    /// Reading or writing a message failed, 74 (EX_IOERR).
    InputOutput,
    /// It may be tried again, 75 (EX_TEMPFAIL).
    TryAgain,
    /// The rights are wanting, 77 (EX_NOPERM).
    NoPermission,
}

impl Status {
    /// The number of the status.
    pub fn number(self) -> u8
        ensures { result ≡ number_of self }
    {
        match self {
            Status::Done => 0,
            Status::Refused => 1,
            Status::Unjudged => 2,
            Status::Usage => 64,
            Status::DataError => 65,
            Status::NoInput => 66,
            Status::CannotCreate => 73,
            Status::InputOutput => 74,
            Status::TryAgain => 75,
            Status::NoPermission => 77,
        }
    }

    /// The worse one of two statuses, the one of the larger number.
    pub fn worse(self, other: Status) -> Status
        ensures { number_of result ≡ max (number_of self) (number_of other) }
    {
        if self.number() < other.number() {
            other
        } else {
            self
        }
    }
}
