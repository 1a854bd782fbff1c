//! Which clauses a step breaks.
ghost use Rattle.std.specs.Prelude.{◌≡◌};
ghost use Rattle.md_watch.specs.Found.{breaks};

use crate::memory::Heard;
use md_log::Clause;

/// Which clauses a step breaks: those that are found when its change was made, and those that are found before.
#[derive(Clone, Copy)]
pub struct Broken {
    pub(crate) two_names: bool,
    pub(crate) in_two_folders: bool,
    pub(crate) gone: bool,
    /// The message that is gone is one still, by another unique name.
    pub(crate) renamed: bool,
    pub(crate) cleaned_early: bool,
    pub(crate) before: Before,
    pub(crate) heard: Heard,
}

/// What is found before a step's change is made: what is asked together with the directories after it, and then clauses that it breaks.
#[derive(Clone, Copy)]
pub(crate) struct Before {
    /// A path of a message is added.
    pub(crate) adds: bool,
    /// The step unlinks a path in cur that shows the flag T.
    pub(crate) empties_trash: bool,
    /// A path of tmp leaves a young file that another made: the one that is taken, and the one that is turned.
    pub(crate) takes_early: bool,
    pub(crate) turns_early: bool,
    pub(crate) not_a_directory: bool,
    pub(crate) overwritten: bool,
    pub(crate) seen_before_whole: bool,
    pub(crate) mixed: bool,
    pub(crate) not_flushed: bool,
    pub(crate) used_again: bool,
    pub(crate) moved_back: bool,
    pub(crate) named_by_another: bool,
    pub(crate) rewritten: bool,
    pub(crate) used_twice: bool,
    pub(crate) made_again: bool,
    pub(crate) written_late: bool,
}

impl Broken {
    /// Whether the step breaks the clause.
    pub fn breaks(&self, clause: Clause) -> bool
        ensures { result ≡ breaks self.now clause }
    {
        match clause {
            Clause::NotADirectory => self.before.not_a_directory || self.heard.read.misread,
            Clause::Overwritten => self.before.overwritten,
            Clause::SeenBeforeWhole => self.before.seen_before_whole,
            Clause::Mixed => self.before.mixed,
            Clause::NotFlushed => self.before.not_flushed,
            Clause::TwoNames => self.two_names,
            Clause::Gone => self.gone,
            Clause::UsedAgain => self.before.used_again,
            Clause::MovedBack => self.before.moved_back,
            Clause::CleanedEarly => self.cleaned_early,
            Clause::Unlisted => self.heard.read.unlisted,
            Clause::GaveUp => self.heard.told.gave_up,
            Clause::AnsweredFalsely => self.heard.told.falsely,
            Clause::InTwoFolders => self.in_two_folders,
            Clause::NamedByAnother => self.before.named_by_another,
            Clause::Rewritten => self.before.rewritten,
            Clause::UsedTwice => self.before.used_twice,
            Clause::MadeAgain => self.before.made_again,
            Clause::WrittenLate => self.before.written_late,
        }
    }

    /// Whether the message that is gone is one still, by another unique name: its file has not left.
    pub fn is_renamed(&self) -> bool
        ensures { result ≡ self.now.renamed }
    {
        self.renamed
    }
}
