//! What an actor did about a message of a folder.
ghost use Rattle.std.specs.Prelude.{◌≡◌, OnOk};
ghost use Rattle.md_watch.specs.Claims.{act, change, did_of, done_of, nothing};

use md_log::Reply;
use std::alloc::{AllocError, Global};

/// The moments right after an actor's last call on a message and its last step that changed the message's paths, since its last answer
/// about it. Where there was none, it is 0.
#[derive(Clone, Copy)]
pub(crate) struct Acts {
    pub(crate) called: usize,
    pub(crate) changed: usize,
}

pub(crate) const NO_ACTS: Acts = Acts {
    called: 0,
    changed: 0,
};

/// What an actor did about a message of a folder since its last answer about it. The moment of a step is the one right after it.
#[derive(Drop)]
pub(crate) struct Deeds {
    /// The moment of its last step that changed the message, or else of its first step.
    pub(super) begun: Option<usize>,
    /// That of its last call on the message, where that was refused.
    pub(super) refused: Option<usize>,
    pub(super) has_added: bool,
    /// Those of the steps that took the message from the folder.
    pub(super) taken: Vec<usize>,
    pub(super) has_expunged: bool,
    pub(super) has_changed: bool,
    pub(super) acts: Acts,
}

/// The same, lent.
#[derive(Clone, Copy)]
pub(crate) struct Done<'a> {
    pub(super) begun: Option<usize>,
    pub(super) refused: Option<usize>,
    pub(super) has_added: bool,
    pub(super) taken: &'a [usize],
    pub(super) has_expunged: bool,
    pub(super) has_changed: bool,
    pub(super) acts: Acts,
}

/// Nothing, since a moment.
pub(super) fn nothing<'a>(begun: Option<usize>) -> Done<'a>
    ensures { done_of result ≡ nothing begun }
{
    Done {
        begun,
        refused: None,
        has_added: false,
        taken: &[],
        has_expunged: false,
        has_changed: false,
        acts: NO_ACTS,
    }
}

impl Deeds {
    /// Nothing, since a moment.
    pub(super) fn new(alloc: Global, begun: Option<usize>) -> Self
        ensures { did_of result ≡ nothing begun }
    {
        Deeds {
            begun,
            refused: None,
            has_added: false,
            taken: Vec::new(alloc),
            has_expunged: false,
            has_changed: false,
            acts: NO_ACTS,
        }
    }

    pub(super) fn lent(&self) -> Done<'_>
        ensures { done_of result ≡ did_of self.now }
    {
        Done {
            begun: self.begun,
            refused: self.refused,
            has_added: self.has_added,
            taken: self.taken.as_slice(),
            has_expunged: self.has_expunged,
            has_changed: self.has_changed,
            acts: self.acts,
        }
    }

    /// A call on the message, by a step of this moment.
    pub(super) fn act(&mut self, reply: Reply, now: usize)
        ensures { did_of self.new ≡ act reply now (did_of self.old) }
    {
        self.refused = match reply {
            Reply::Ok => None,
            _ => Some(now),
        };
        self.acts.called = now;
    }

    /// A step of this moment changes the paths of the message, which was in its folder before the step or not, and is after it or not.
    pub(super) fn change(
        &mut self,
        was: bool,
        is: bool,
        is_unlink: bool,
        now: usize,
    ) -> Result<(), AllocError>
        ensures { OnOk result (did_of self.new ≡ change was is is_unlink now (did_of self.old)) }
    {
        self.begun = Some(now);
        self.has_changed = true;
        self.acts.changed = now;
        if !was && is {
            self.has_added = true;
        }
        if was && !is {
            self.taken.push(now)?;
            self.has_expunged = is_unlink || self.has_expunged;
        }
        Ok(())
    }
}
