//! What is kept of what actors told of messages, and did about them.
ghost use Rattle.std.specs.Prelude.{◌≡◌, ℕ, List, None, OnOk};
ghost use Rattle.md_kept.specs.Changes.{turn_of};
ghost use Rattle.md_watch.specs.Claims.{Steps, actor_in, did_by, done_of, is_left_of};

mod actor;
mod deeds;
mod finding;

use crate::presences::InFolders;
use actor::Actor;
use deeds::{Done, nothing};
pub(crate) use deeds::{Acts, NO_ACTS};
pub(crate) use finding::Past;
use md_kept::{Change, Table, Taken};
use md_log::Step;
use std::alloc::{AllocError, Global};

/// What is kept of actors.
#[derive(Drop)]
pub(crate) struct Claims {
    alloc: Global,
    /// By 0 and the names of actors.
    actors: Table<Actor>,
}

impl Claims {
    /// Nothing was done.
    pub(crate) fn new(alloc: Global) -> Self
        ensures { (actor : List ℕ) → actor_in result actor ≡ None }
    {
        Claims {
            alloc,
            actors: Table::new(alloc),
        }
    }

    /// A step, by the moment right after it, and what it changes: the messages of its paths were in their folders before it, and are after it.
    pub(crate) fn step(
        &mut self,
        step: &Step,
        change: &Change<'_>,
        before: InFolders,
        after: InFolders,
        now: usize,
    ) -> Result<(), AllocError>
        ensures { OnOk result (Steps step.now (turn_of change.now) before after now self.old self.new) }
    {
        let name = step.actor.as_slice();
        let Taken { at, value } = self.actors.take(0, name);
        let mut actor = match value {
            None => Actor::new(self.alloc, now),
            Some(actor) => actor,
        };
        actor.step(&step.call, change, before, after, now)?;
        self.actors.put_back(at, 0, name, actor)
    }

    /// What the actor did about the message.
    fn done<'a>(&'a self, actor: &'a [u8], folder: u32, unique: &'a [u8]) -> Done<'a>
        ensures { done_of result ≡ did_by (actor_in self.now actor.now) folder unique.now }
    {
        match self.actors.get(0, actor) {
            None => nothing(None),
            Some(actor) => actor.done(folder, unique),
        }
    }

    /// Whether its last call on the message was refused, and it did not look again.
    fn is_left(&self, actor: &[u8], folder: u32, unique: &[u8]) -> bool
        ensures { result ≡ is_left_of (actor_in self.now actor.now) folder unique.now }
    {
        self.actors
            .get(0, actor)
            .is_some_and(|actor| actor.is_left(folder, unique))
    }
}
