//! The first words of a command, and what a line is read for.
ghost use Rattle.std.specs.Prelude.{◌≡◌};
ghost use Rattle.md_script.specs.Verb.{verb_of, admitted};

use crate::error::PlayKind;

/// What a line is read for.
#[derive(Clone, Copy, Debug, PartialEq, Eq)]
pub enum Mode {
    /// To be run at once, over a store that was loaded or not.
    Playing { is_loaded: bool },
    /// To set a store up, with jobs or without, for another to run.
    SettingUp { with_jobs: bool },
}

/// The first word of a command.
#[derive(Clone, Copy)]
pub(crate) enum Verb {
    Folder,
    File,
    Job,
    Step,
    Finish,
    List,
    First,
    Second,
    Read,
    Unique,
    Summary,
}

#[tactic(auto, unfolding(crate::specs::Verb::verb_of))]
pub(crate) fn verb_from(word: &[u8]) -> Option<Verb>
    ensures { result ≡ verb_of word.now }
{
    if word == b"folder".as_slice() {
        Some(Verb::Folder)
    } else if word == b"file".as_slice() {
        Some(Verb::File)
    } else if word == b"job".as_slice() {
        Some(Verb::Job)
    } else if word == b"step".as_slice() {
        Some(Verb::Step)
    } else if word == b"finish".as_slice() {
        Some(Verb::Finish)
    } else if word == b"list".as_slice() {
        Some(Verb::List)
    } else if word == b"first".as_slice() {
        Some(Verb::First)
    } else if word == b"second".as_slice() {
        Some(Verb::Second)
    } else if word == b"read".as_slice() {
        Some(Verb::Read)
    } else if word == b"unique".as_slice() {
        Some(Verb::Unique)
    } else if word == b"summary".as_slice() {
        Some(Verb::Summary)
    } else {
        None
    }
}

/// Refuses a command that may not come here, before its other words are read.
#[tactic(auto, unfolding(crate::specs::Verb::admitted))]
pub(crate) fn admit(mode: Mode, verb: Verb) -> Result<(), PlayKind>
    ensures { result ≡ admitted mode verb }
{
    match (mode, verb) {
        (Mode::Playing { is_loaded: true }, Verb::Folder | Verb::File) => Err(PlayKind::TooLate),
        (Mode::Playing { .. }, _) => Ok(()),
        (Mode::SettingUp { .. }, Verb::Folder | Verb::File) => Ok(()),
        (Mode::SettingUp { with_jobs: true }, Verb::Job) => Ok(()),
        (Mode::SettingUp { .. }, _) => Err(PlayKind::NotInThisRun),
    }
}
