//! The clauses of the law, and those that are owed beside it.
ghost use Rattle.std.specs.Prelude.{◌≡◌, ◌<◌};
ghost use Rattle.md_log.specs.Texts.{clause_texts, clause_index, clause_named};

/// What a step may break. The order is that of findings at one line: the thirteen clauses of the law come first, and then those that programs
/// owe each other beside it (docs/LAW.md).
#[derive(Clone, Copy, Debug, PartialEq, Eq)]
pub enum Clause {
    /// A reply that the directory calls are not defined to give.
    NotADirectory,
    /// A path names another file than before.
    Overwritten,
    /// Readers see a file that is made, written to or cut short.
    SeenBeforeWhole,
    /// A file is written to by another actor than made it.
    Mixed,
    /// Readers begin to see bytes that were not flushed.
    NotFlushed,
    /// A second path of a message in its folder.
    TwoNames,
    /// A message leaves otherwise than by an unlink of a name with T.
    Gone,
    /// A message that had gone is there again, as a file that it never was there.
    UsedAgain,
    /// A file that was in cur is in new.
    MovedBack,
    /// A young file of tmp is taken by another actor than made it.
    CleanedEarly,
    /// A listing lacks a message that was there at each of its readings.
    Unlisted,
    /// A lost race is answered as success.
    GaveUp,
    /// An answer is not so.
    AnsweredFalsely,
    /// A message has the unique name of one in another folder.
    InTwoFolders,
    /// A file that readers don't see is named by another actor than made it.
    NamedByAnother,
    /// A file that readers saw is written to.
    Rewritten,
    /// A unique name is used for another file than it was, in any folder.
    UsedTwice,
    /// A path of tmp names a second file.
    MadeAgain,
    /// A file is written to that nobody has written to for 36 hours, or may have been.
    WrittenLate,
}

/// The clauses in their order.
pub const CLAUSES: [Clause; 19] = [
    Clause::NotADirectory,
    Clause::Overwritten,
    Clause::SeenBeforeWhole,
    Clause::Mixed,
    Clause::NotFlushed,
    Clause::TwoNames,
    Clause::Gone,
    Clause::UsedAgain,
    Clause::MovedBack,
    Clause::CleanedEarly,
    Clause::Unlisted,
    Clause::GaveUp,
    Clause::AnsweredFalsely,
    Clause::InTwoFolders,
    Clause::NamedByAnother,
    Clause::Rewritten,
    Clause::UsedTwice,
    Clause::MadeAgain,
    Clause::WrittenLate,
];

/// Those of the law.
pub const LAW: [Clause; 13] = [
    Clause::NotADirectory,
    Clause::Overwritten,
    Clause::SeenBeforeWhole,
    Clause::Mixed,
    Clause::NotFlushed,
    Clause::TwoNames,
    Clause::Gone,
    Clause::UsedAgain,
    Clause::MovedBack,
    Clause::CleanedEarly,
    Clause::Unlisted,
    Clause::GaveUp,
    Clause::AnsweredFalsely,
];

/// Those that each program owes the others, in the order of docs/LAW.md.
pub const OWED: [Clause; 10] = [
    Clause::TwoNames,
    Clause::InTwoFolders,
    Clause::Mixed,
    Clause::NamedByAnother,
    Clause::CleanedEarly,
    Clause::Rewritten,
    Clause::MovedBack,
    Clause::UsedTwice,
    Clause::MadeAgain,
    Clause::WrittenLate,
];

impl Clause {
    /// The clause's name.
    pub fn name(self) -> &'static str
        ensures { result.now ≡ (clause_texts self).0 }
    {
        match self {
            Clause::NotADirectory => "NotADirectory",
            Clause::Overwritten => "Overwritten",
            Clause::SeenBeforeWhole => "SeenBeforeWhole",
            Clause::Mixed => "Mixed",
            Clause::NotFlushed => "NotFlushed",
            Clause::TwoNames => "TwoNames",
            Clause::Gone => "Gone",
            Clause::UsedAgain => "UsedAgain",
            Clause::MovedBack => "MovedBack",
            Clause::CleanedEarly => "CleanedEarly",
            Clause::Unlisted => "Unlisted",
            Clause::GaveUp => "GaveUp",
            Clause::AnsweredFalsely => "AnsweredFalsely",
            Clause::InTwoFolders => "InTwoFolders",
            Clause::NamedByAnother => "NamedByAnother",
            Clause::Rewritten => "Rewritten",
            Clause::UsedTwice => "UsedTwice",
            Clause::MadeAgain => "MadeAgain",
            Clause::WrittenLate => "WrittenLate",
        }
    }

    /// Why a step that breaks it is wrong, in one sentence.
    pub fn why(self) -> &'static str
        ensures { result.now ≡ (clause_texts self).1 }
    {
        match self {
            Clause::NotADirectory =>
                "no directory gives this reply, or the log lacks a step before",
            Clause::Overwritten =>
                "a path names another file than before, so what it named may be lost",
            Clause::SeenBeforeWhole => "readers see a message that is not written whole",
            Clause::Mixed => "a file is written to by another program than made it",
            Clause::NotFlushed => "readers see bytes that were not flushed: a crash may lose them",
            Clause::TwoNames => "a message has two names in its folder, and is shown twice",
            Clause::Gone => "a message leaves its folder without the flag T",
            Clause::UsedAgain => "a unique name is used for a second message",
            Clause::MovedBack => "a message that was read is in new again",
            Clause::CleanedEarly => "a file in tmp is taken from a program that may still write it",
            Clause::Unlisted => "a listing lacks a message that was there all the while",
            Clause::GaveUp =>
                "a call was refused, and the program reports success without another look",
            Clause::AnsweredFalsely => "what the program reports is not so",
            Clause::InTwoFolders => "a message has the unique name of one in another folder",
            Clause::NamedByAnother =>
                "a file that no reader sees is named by another program than made it",
            Clause::Rewritten => "a file is written to that readers have seen",
            Clause::UsedTwice => "a unique name is used for a second message",
            Clause::MadeAgain => "a name in tmp is used for a second file",
            Clause::WrittenLate => "a file is written to that nobody has written to for 36 hours",
        }
    }

    /// Its place in `CLAUSES`, from 0.
    pub fn index(self) -> usize
        ensures exact { result ≡ clause_index self }
        ensures few { result < 19 }
    {
        self as usize
    }

    /// The clause of the law that has a name.
    #[tactic(auto, unfolding(crate::specs::Texts::clause_named))]
    pub fn named(name: &[u8]) -> Option<Clause>
        ensures { result ≡ clause_named name.now }
    {
        LAW.iter()
            .copied()
            .find(|clause| clause.name().as_bytes() == name)
    }
}
