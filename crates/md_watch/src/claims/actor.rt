//! What is kept of an actor.
ghost use Rattle.std.specs.Prelude.{◌≡◌, None, OnOk, Some};
ghost use Rattle.md_monitor.specs.Files.{is_ok};
ghost use Rattle.md_monitor.specs.Answers.{is_unlink};
ghost use Rattle.md_watch.specs.Claims.{Acts, Answers, Begins, Does, IsNew, Looks, act_at, act_by, change_by, did_in, did_of, done_of, is_left_by, look_in};
ghost use Rattle.md_kept.specs.Changes.{turn_of};
ghost use Rattle.md_kept.specs.Files.{lent_as};
ghost use Rattle.md_kept.specs.Tables.{Puts};

use super::deeds::{Deeds, Done, nothing};
use crate::presences::InFolders;
use md_dirs::{Bytes, Path};
use md_kept::{Change, Named, Table, Taken, is_tmp, message_of};
use md_log::{Call, Deed, Reply};
use std::alloc::{AllocError, Global};

/// What is kept of an actor.
#[derive(Drop)]
pub(crate) struct Actor {
    alloc: Global,
    /// The moment right after its first step.
    first: usize,
    /// The message of its last step, with its folder, where that step was an answer.
    told: Option<(u32, Bytes)>,
    /// The moment right after its last look at each folder, by the folder and no name.
    looks: Table<usize>,
    /// What it did about messages, by folders. Of a message of which nothing is kept, it did nothing since its first step.
    deeds: Table<Deeds>,
}

impl Actor {
    pub(super) fn new(alloc: Global, first: usize) -> Self
        ensures { IsNew first result }
    {
        Actor {
            alloc,
            first,
            told: None,
            looks: Table::new(alloc),
            deeds: Table::new(alloc),
        }
    }

    /// What it did about the message.
    pub(super) fn done<'a>(&'a self, folder: u32, unique: &'a [u8]) -> Done<'a>
        ensures { done_of result ≡ did_in self.now folder unique.now }
    {
        match self.deeds.get(folder as usize, unique) {
            None => nothing(Some(self.first)),
            Some(deeds) => deeds.lent(),
        }
    }

    /// Whether its last call on the message was refused, and it did not look again.
    pub(super) fn is_left(&self, folder: u32, unique: &[u8]) -> bool
        ensures { result ≡ is_left_by (did_in self.now folder unique.now).refused (look_in self.now folder) }
    {
        let done = self.done(folder, unique);
        let look = self.looks.get(folder as usize, b"").copied();
        is_left(done.refused, look)
    }

    /// A step of its own, by the moment right after it, and what it changes: the messages of its paths were in their folders before it, and are
    /// after it.
    pub(super) fn step(
        &mut self,
        call: &Call,
        change: &Change<'_>,
        before: InFolders,
        after: InFolders,
        now: usize,
    ) -> Result<(), AllocError>
        ensures { OnOk result (Acts call.now (turn_of change.now) before after now self.old self.new) }
    {
        let is_unlink = is_unlink(call);
        self.begin(now)?;
        self.act(call, now)?;
        self.change(change.taken, before.taken, after.taken, is_unlink, now)?;
        self.change(change.named, before.named, after.named, is_unlink, now)?;
        self.look(call, now)?;
        self.answer(call)
    }

    /// The step is the first since its last answer, where its last step was that.
    fn begin(&mut self, now: usize) -> Result<(), AllocError>
        ensures { OnOk result (Begins now self.old self.new) }
    {
        let Some((folder, unique)) = self.told.take() else {
            return Ok(());
        };
        let (at, mut deeds) = self.take(folder, unique.as_slice());
        deeds.begun = Some(now);
        self.put_back(at, folder, unique.as_slice(), deeds)
    }

    /// It may be a call on messages by their names: a link or a rename that is done is one by both of its names.
    fn act(&mut self, call: &Call, now: usize) -> Result<(), AllocError>
        ensures { OnOk result (Does (act_by call.now now) self.old self.new) }
    {
        match call {
            Call::At {
                deed: Deed::Unlink,
                path,
                reply,
            } => self.act_at(path, *reply, now),
            Call::Between {
                old,
                new,
                reply,
                ..
            } => {
                self.act_at(old, *reply, now)?;
                if is_ok(*reply) {
                    self.act_at(new, *reply, now)?;
                }
                Ok(())
            }
            _ => Ok(()),
        }
    }

    fn act_at(&mut self, path: &Path, reply: Reply, now: usize) -> Result<(), AllocError>
        ensures { OnOk result (Does (act_at path.now reply now) self.old self.new) }
    {
        let Some(unique) = message_of(path) else {
            return Ok(());
        };
        let (at, mut deeds) = self.take(path.folder, unique);
        deeds.act(reply, now);
        self.put_back(at, path.folder, unique, deeds)
    }

    /// It may change a path of a message, by which that was in its folder before the step or not, and is after it or not.
    fn change(
        &mut self,
        named: Option<Named<'_>>,
        was: bool,
        is: bool,
        is_unlink: bool,
        now: usize,
    ) -> Result<(), AllocError>
        ensures { OnOk result (Does (change_by (lent_as named.entry) was is is_unlink now) self.old self.new) }
    {
        let Some((path, _)) = named else {
            return Ok(());
        };
        let Some(unique) = message_of(path) else {
            return Ok(());
        };
        let (at, mut deeds) = self.take(path.folder, unique);
        deeds.change(was, is, is_unlink, now)?;
        self.put_back(at, path.folder, unique, deeds)
    }

    /// It may be a look at a folder: a part of a reading of new or cur that shows names.
    fn look(&mut self, call: &Call, now: usize) -> Result<(), AllocError>
        ensures { OnOk result (Looks call.now now self.old self.new) }
    {
        match call {
            Call::List {
                folder,
                place,
                reply: Reply::Ok | Reply::More,
                ..
            } if !is_tmp(*place) => self.looks.put(*folder as usize, b"", now),
            _ => Ok(()),
        }
    }

    /// It may be an answer about a message.
    fn answer(&mut self, call: &Call) -> Result<(), AllocError>
        ensures { OnOk result (Answers call.now self.old self.new) }
    {
        let Call::Answer { folder, unique, .. } = call else {
            return Ok(());
        };
        let nothing = Deeds::new(self.alloc, None);
        self.deeds
            .put(*folder as usize, unique.as_slice(), nothing)?;
        self.told = Some((*folder, unique.again(self.alloc)?));
        Ok(())
    }

    /// Takes out what it did about the message, and says where that is kept.
    fn take(&mut self, folder: u32, unique: &[u8]) -> (usize, Deeds)
        ensures taken { did_of result.1 ≡ did_in self.old folder unique.now }
        ensures puts { Puts folder unique.now None self.old.deeds self.new.deeds }
        ensures first { self.new.first ≡ self.old.first }
        ensures told { self.new.told ≡ self.old.told }
        ensures looks { self.new.looks ≡ self.old.looks }
    {
        let Taken { at, value } = self.deeds.take(folder as usize, unique);
        match value {
            None => (at, Deeds::new(self.alloc, Some(self.first))),
            Some(deeds) => (at, deeds),
        }
    }

    fn put_back(
        &mut self,
        at: usize,
        folder: u32,
        unique: &[u8],
        deeds: Deeds,
    ) -> Result<(), AllocError>
        ensures puts { OnOk result (Puts folder unique.now (Some deeds) self.old.deeds self.new.deeds) }
        ensures first { self.new.first ≡ self.old.first }
        ensures told { self.new.told ≡ self.old.told }
        ensures looks { self.new.looks ≡ self.old.looks }
    {
        self.deeds.put_back(at, folder as usize, unique, deeds)
    }
}

/// Whether a call was refused at a step, and no look came after it.
fn is_left(refused: Option<usize>, look: Option<usize>) -> bool
    ensures { result ≡ is_left_by refused look }
{
    refused.is_some_and(|refused| !look.is_some_and(|look| refused < look))
}

fn is_ok(reply: Reply) -> bool
    ensures { result ≡ is_ok reply }
{
    reply == Reply::Ok
}

fn is_unlink(call: &Call) -> bool
    ensures { result ≡ is_unlink call.now }
{
    match call {
        Call::At {
            deed: Deed::Unlink,
            ..
        } => true,
        _ => false,
    }
}
