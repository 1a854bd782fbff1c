//! What an answer is found to break, by what its actor did and by what was there.
ghost use Rattle.std.specs.Prelude.{◌≡◌, ℕ, List};
ghost use Rattle.md_log.specs.declared.line.Call.TheVariants as call;
ghost use Rattle.md_log.specs.declared.line.Said.TheVariants as answer;
ghost use Rattle.md_name.specs.Letters.{IsOfLetters, Set};
ghost use Rattle.md_monitor.specs.Answers.{is_success, is_told_and};
ghost use Rattle.md_watch.specs.Claims.{done_of, is_false_in, is_given_up_in, is_gone_in, is_shown_in, is_so_in, is_there_in, was_there_in, was_there_then};

use super::Claims;
use super::deeds::{Done, NO_ACTS};
use crate::flagged::Flagged;
use crate::memory::Told;
use crate::presences::Presences;
use md_kept::Messages;
use md_log::{Call, Said, Step};
use md_name::Flags;
use md_name::laws::only_letters;

/// What is known of messages at the moment of a number, which is now.
#[derive(Clone, Copy)]
pub(crate) struct Past<'a> {
    pub(crate) messages: &'a Messages,
    pub(crate) presences: &'a Presences,
    pub(crate) flagged: &'a Flagged,
    pub(crate) now: usize,
}

impl Past<'_> {
    fn is_there(&self, folder: u32, unique: &[u8]) -> bool
        ensures { result ≡ is_there_in self.entry.now folder unique.now }
    {
        self.messages.count_in(folder, unique) > 0
    }

    /// Whether the message was in the folder at each moment from one to another.
    fn was_there(&self, folder: u32, unique: &[u8], first: usize, last: usize) -> bool
        ensures { result ≡ was_there_in self.entry.now folder unique.now first last }
    {
        let is = self.is_there(folder, unique);
        self.presences
            .messages
            .was_always(folder as usize, unique, is, first, last)
    }

    /// Whether cur has the message with just these flags, or had at a moment from one on.
    fn is_shown(&self, folder: u32, unique: &[u8], flags: Flags, begun: Option<usize>) -> bool
        ensures shown { result ≡ is_shown_in self.entry.now folder unique.now flags begun }
        ensures letters { IsOfLetters flags }
    {
        only_letters(flags);
        if self.flagged.is_shown(folder, unique, flags) {
            return true;
        }
        begun.is_some_and(|first| self.flagged.was_shown(folder, unique, flags, first))
    }

    /// Whether the message is not in the folder, or was not at a moment from one on.
    fn is_gone(&self, folder: u32, unique: &[u8], begun: Option<usize>) -> bool
        ensures { result ≡ is_gone_in self.entry.now folder unique.now begun }
    {
        if !self.is_there(folder, unique) {
            return true;
        }
        match begun {
            None => false,
            Some(first) => !self.was_there(folder, unique, first, self.now),
        }
    }

    /// Whether the message was in a folder at one of some moments.
    fn was_there_then(&self, folder: u32, unique: &[u8], moments: &[usize]) -> bool
        ensures { result ≡ was_there_then self.entry.now folder unique.now moments.now }
    {
        moments
            .iter()
            .any(|at| self.was_there(folder, unique, *at, *at))
    }

    /// Whether what is said of the message is so.
    fn is_so(&self, done: &Done<'_>, folder: u32, unique: &[u8], said: Said) -> bool
        ensures so { result ≡ is_so_in self.entry.now (done_of done.entry.now) folder unique.now said }
        ensures letters { (flags : Set) → said ≡ answer.Flags flags → IsOfLetters flags }
    {
        match said {
            Said::Delivered => done.has_added,
            Said::Flags(flags) => self.is_shown(folder, unique, flags, done.begun),
            Said::Moved(to) => self.was_there_then(to, unique, done.taken),
            Said::Expunged => done.has_expunged,
            Said::Done => true,
            Said::Failed => !done.has_changed,
            Said::NotThere => self.is_gone(folder, unique, done.begun),
        }
    }
}

impl Claims {
    /// What the answer of a step is found to break. Its actor gave up: it says that a call on a message was done, the message is there, the
    /// actor's last call on it was refused, and the actor did not look again. It says of a message what is not so.
    pub(crate) fn tell(&self, step: &Step, past: &Past<'_>) -> Told
        ensures gave_up { result.gave_up ≡ is_told_and step.now.call step.now.actor (is_given_up_in past.entry.now self.now) }
        ensures falsely { result.falsely ≡ is_told_and step.now.call step.now.actor (is_false_in past.entry.now self.now) }
        ensures letters { (flags : Set) (folder : ℕ) (unique : List ℕ)
            → step.now.call ≡ call.Answer (answer.Flags flags) folder unique → IsOfLetters flags }
    {
        let Call::Answer {
            said,
            folder,
            unique,
        } = &step.call
        else {
            return Told {
                gave_up: false,
                falsely: false,
                acts: NO_ACTS,
            };
        };
        let actor = step.actor.as_slice();
        let unique = unique.as_slice();
        let done = self.done(actor, *folder, unique);
        Told {
            gave_up: is_success(*said)
                && past.is_there(*folder, unique)
                && self.is_left(actor, *folder, unique),
            falsely: !past.is_so(&done, *folder, unique, *said),
            acts: done.acts,
        }
    }
}

/// Whether it says that the call was done.
fn is_success(said: Said) -> bool
    ensures { result ≡ is_success said }
{
    match said {
        Said::Failed | Said::NotThere => false,
        _ => true,
    }
}
