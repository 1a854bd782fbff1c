//! What calls on paths answer, by what is kept.
ghost use Rattle.std.specs.Prelude.{◌≡◌, nat_lt};
ghost use Rattle.md_monitor.specs.Files.{is_fault};
ghost use Rattle.md_monitor.specs.Judged.{is_reply};
ghost use Rattle.md_kept.specs.Changes.{file_in};
ghost use Rattle.md_kept.specs.Replies.{answer_old, answer_into, answer_new, answer_at, answer_between, is_wrong_answer, is_wrong};

use crate::paths::Paths;
use md_dirs::Path;
use md_log::{Call, Deed, Naming, Reply};

impl Paths {
    /// Whether a call on paths is answered as the directories never answer it, where there are so many folders.
    pub fn is_wrong(&self, folders: usize, call: &Call) -> bool
        ensures { result ≡ is_wrong (file_in self.now) folders call.now }
    {
        match call {
            Call::At { deed, path, reply } => {
                is_wrong_answer(*reply, self.answer_at(folders, *deed, path))
            }
            Call::Between {
                naming,
                old,
                new,
                reply,
            } => is_wrong_answer(*reply, self.answer_between(folders, *naming, old, new)),
            Call::List { .. } => false,
            Call::Answer { .. } => false,
        }
    }

    fn answer_at(&self, folders: usize, deed: Deed, path: &Path) -> Reply
        ensures { result ≡ answer_at (file_in self.now) folders deed path.now }
    {
        match deed {
            Deed::Create => self.answer_new(folders, path),
            Deed::Write => self.answer_old(path),
            Deed::Flush => self.answer_old(path),
            Deed::Unlink => self.answer_old(path),
        }
    }

    fn answer_between(&self, folders: usize, naming: Naming, old: &Path, new: &Path) -> Reply
        ensures { result ≡ answer_between (file_in self.now) folders naming old.now new.now }
    {
        if self.file_at(old).is_none() {
            return Reply::NotFound;
        }
        match naming {
            Naming::Link => self.answer_new(folders, new),
            Naming::Rename => answer_into(folders, new),
        }
    }

    /// To a call that makes the path.
    fn answer_new(&self, folders: usize, path: &Path) -> Reply
        ensures { result ≡ answer_new (file_in self.now) folders path.now }
    {
        if !has_folder(folders, path) {
            return Reply::NotFound;
        }
        if self.file_at(path).is_some() {
            Reply::Exists
        } else {
            Reply::Ok
        }
    }

    /// To one on a path that is there.
    fn answer_old(&self, path: &Path) -> Reply
        ensures { result ≡ answer_old (file_in self.now) path.now }
    {
        if self.file_at(path).is_some() {
            Reply::Ok
        } else {
            Reply::NotFound
        }
    }
}

/// To a call that makes or replaces a path.
fn answer_into(folders: usize, path: &Path) -> Reply
    ensures { result ≡ answer_into folders path.now }
{
    if has_folder(folders, path) {
        Reply::Ok
    } else {
        Reply::NotFound
    }
}

fn has_folder(folders: usize, path: &Path) -> bool
    ensures { result ≡ nat_lt path.now.folder folders }
{
    (path.folder as usize) < folders
}

/// Whether a reply is another than the one that the directories give. Any call may fail.
fn is_wrong_answer(reply: Reply, answer: Reply) -> bool
    ensures { result ≡ is_wrong_answer reply answer }
{
    !is_fault(reply) && !is_reply(reply, answer)
}

fn is_fault(reply: Reply) -> bool
    ensures { result ≡ is_fault reply }
{
    reply == Reply::Fault
}

/// Whether both are one reply.
fn is_reply(reply: Reply, other: Reply) -> bool
    ensures { result ≡ is_reply reply other }
{
    reply == other
}
