//! What breaks the maildir format.
ghost use Rattle.std.specs.Prelude.{◌≡◌};
ghost use Rattle.md_system.specs.Flaws.{kind_text};

use md_dirs::{Bytes, Place};

/// A name of a maildir that breaks the format.
#[derive(Drop)]
pub struct Flaw {
    pub folder: u32,
    pub place: Place,
    /// The whole name, of any bytes.
    pub name: Bytes,
    pub kind: FlawKind,
}

/// How a name breaks the format (maildir(5), "Using maildir format").
#[derive(Clone, Copy, Debug, PartialEq, Eq)]
pub enum FlawKind {
    /// Another name of new or cur of the same folder has its unique name.
    TwiceInFolder,
    /// A name of new or cur of another folder has its unique name.
    InOtherFolders,
    /// A file of tmp that was neither written nor read for 36 hours.
    Unused,
    /// A directory, a symbolic link or something else in new or cur that is no regular file.
    NotAFile,
    /// A name in new or cur that begins with a dot: readers skip it.
    DotName,
    /// A message in new whose name has info.
    InfoInNew,
    /// A message in cur whose name has no info.
    NoInfo,
    /// A message whose flags are not in ASCII order, or not each there once.
    FlagsOutOfOrder,
    /// A name in new or cur that is not UTF-8: no job of a disk can act on it.
    NotText,
    /// A name in new or cur of more than 255 bytes.
    LongName,
}

impl FlawKind {
    /// What it is, for people.
    pub fn text(self) -> &'static [u8]
        ensures { result.now ≡ kind_text self }
    {
        match self {
            FlawKind::TwiceInFolder => b"its unique name is in this folder twice",
            FlawKind::InOtherFolders => b"its unique name is in another folder too",
            FlawKind::Unused => b"it was not used for 36 hours",
            FlawKind::NotAFile => b"it is no regular file",
            FlawKind::DotName => b"its name begins with a dot",
            FlawKind::InfoInNew => b"it has info in new",
            FlawKind::NoInfo => b"it has no info in cur",
            FlawKind::FlagsOutOfOrder => b"its flags are not in order",
            FlawKind::NotText => b"its name is not UTF-8",
            FlawKind::LongName => b"its name is longer than 255 bytes",
        }
    }
}
