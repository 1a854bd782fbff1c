//! How jobs end.
use md_name::Flags;

/// How a job ended.
#[derive(Clone, Copy, Debug, PartialEq, Eq)]
pub enum Answer {
    /// The message was linked into new.
    Delivered,
    /// Seen or Flag took effect; the flags after it.
    Flags(Flags),
    /// The message is in the other folder.
    Moved,
    /// The message is gone.
    Expunged,
    /// The message has a second name.
    Copied,
    /// So many files were removed from tmp by this job.
    Cleaned(u64),
    /// No message of that name where the call acts.
    NotThere,
    /// The message hasn't the flag T (trashed).
    NotTrashed,
    /// The message has info that holds no flags.
    OtherInfo,
    /// The name was gone at the act in each of the tries.
    Lost,
    /// A delivery's 24 hours ended before its link.
    TimedOut,
    /// The file in tmp was gone at an append or the link.
    TmpGone,
    /// The name that is to be made is there: a message's, or that of a file in tmp. No job of a world ends so, since a used name is refused
    /// when its call is submitted.
    NameTaken,
    /// A directory call of the job faulted, or was replied what no world replies to it, as `NotFound` to a listing; and the job had no effect
    /// on the mailbox. A clean may have removed files before.
    Fault,
}
