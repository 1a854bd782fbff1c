//! A clean: files of tmp that have not been used for 36 hours go.
ghost use Rattle.std.specs.Prelude.{◌≡◌, List, IfOk, IfErr, OnErr, None, is_some};
ghost use Rattle.md_dirs.specs.declared.rows.Row.{Row as RowView};
ghost use Rattle.md_jobs.specs.Requests.{request_view};
ghost use Rattle.md_jobs.specs.Tasks.Cleaning.{Remove};
ghost use Rattle.md_jobs.specs.Tasks.Views.Stages.{next_of};
ghost use Rattle.md_jobs.specs.Asked.{ask_of, shown_call};
ghost use Rattle.md_jobs.specs.Turn.{Replies, Takes, NoCall, rows_for};
ghost use Rattle.md_jobs.specs.Machines.Clean.{new_cleaning, old_names, cleaning_turn, after_old, after_unlink};

use crate::answer::Answer;
use crate::error::CoreError;
use crate::refusal::Refusal;
use crate::request::{PathRef, Request};
use crate::step::{DirCall, DirReply, Moment};
use crate::turn::{Turned, reply_of};
use md_dirs::{Dirs, FileName, Path, Place};
use std::alloc::Global;
use std::collections::VecDeque;
use std::marker::Model;

/// A file of tmp that was not used for 36 hours, in seconds, is old (maildir(5)).
pub const LEAST_SECONDS: u64 = 129_600;

const LIST: DirCall = DirCall::List(Place::Tmp);

/// How far a clean has come.
#[derive(Drop)]
pub enum Stage {
    /// The directory is listed.
    Look,
    /// These names are taken away, one after another. So many files will be removed by then, if none is gone before.
    Remove { old: VecDeque<FileName>, files: u64 },
}

/// A clean of a folder.
#[derive(Drop)]
pub struct Cleaning {
    pub folder: u32,
    pub stage: Stage,
}

impl Model for Cleaning {
    ghost use Rattle.md_jobs.specs.Tasks.Cleaning.{Cleaning as CleaningView};
    ghost use Rattle.md_jobs.specs.Tasks.Views.Stages.{cleaning_stage};

    ghost Value = { CleaningView };

    ghost view = { λ c. record { folder = c.folder; stage = cleaning_stage c.stage } };
}

impl Cleaning {
    /// A clean that has not begun.
    pub fn new(folder: u32) -> Cleaning
        ensures { result ≡ new_cleaning folder }
    {
        Cleaning {
            folder,
            stage: Stage::Look,
        }
    }

    /// Takes the next turn: it makes the call that it asks for, and takes the reply. After a refusal nothing has changed.
    pub fn turn<D: Dirs>(
        &mut self,
        alloc: Global,
        dirs: &mut D,
        at: Moment,
    ) -> Result<Turned, CoreError>
        ensures ok { IfOk result (λ t.
            Takes (cleaning_turn self.old at.own) at (D.device dirs.old) t.out t.effect.value
            self.new (D.device dirs.new)) }
        ensures plain { IfOk result (λ t. t.effect.value ≡ None) }
        ensures refused { IfErr result (NoCall (D.device dirs.old) (D.device dirs.new)) }
        ensures task { OnErr result (self.new ≡ self.old) }
    {
        let (reply, old) = self.call(alloc, dirs, at)?;
        Ok(self.take(reply, old))
    }

    // Makes the call that is next: of a listing the names of old files. Where there was no memory for it, no call was made.
    fn call<D: Dirs>(
        &self,
        alloc: Global,
        dirs: &mut D,
        at: Moment,
    ) -> Result<(DirReply, VecDeque<FileName>), CoreError>
        ensures made { IfOk result (λ made.
            Replies (ask_of (cleaning_turn self.now at.own).asked at.clock) (D.device dirs.old) made.0 (D.device dirs.new)) }
        ensures old { IfOk result (λ made. made.0 ≡ DirReply.Ok →
            made.1.items ≡ old_names at.own (rows_for (cleaning_turn self.now at.own).asked (D.device dirs.old).state)) }
        ensures refused { IfErr result (NoCall (D.device dirs.old) (D.device dirs.new)) }
    {
        match &self.stage {
            Stage::Look => {
                match dirs.list_old(alloc, self.folder, Place::Tmp, at.own, LEAST_SECONDS) {
                    Ok(old) => Ok((DirReply::Ok, old)),
                    Err(error) => Ok((reply_of(Err(error))?, VecDeque::new(alloc))),
                }
            }
            Stage::Remove { old, .. } => {
                let path = Path {
                    folder: self.folder,
                    place: Place::Tmp,
                    name: FileName::copied(alloc, next_name(old))?,
                };
                Ok((reply_of(dirs.unlink(&path))?, VecDeque::new(alloc)))
            }
        }
    }

    /// The directory call that is next, with its path, borrowed from the job. It takes no memory, and changes nothing.
    pub fn request(&self) -> Request<'_>
        ensures { (own : _) → request_view result ≡ (cleaning_turn self.now own).asked }
    {
        match &self.stage {
            Stage::Look => Request::List {
                folder: self.folder,
                place: Place::Tmp,
            },
            Stage::Remove { old, .. } => Request::Unlink {
                path: PathRef::new(self.folder, Place::Tmp, next_name(old)),
            },
        }
    }

    /// Goes on by what the directories replied to the call that was next, whatever it is. Of a reading that was done it is given the names
    /// whose files were not used for 36 hours by the clock of the job, in the order of the reading, and owns them from then on; of any
    /// other call no name plays a part. It takes no memory, and can't be refused.
    pub fn take(&mut self, reply: DirReply, old: VecDeque<FileName>) -> Turned
        ensures follows { (own : _) → (rows : List RowView) → (reply ≡ DirReply.Ok → old.items ≡ old_names own rows) →
            (cleaning_turn self.old own).follows reply rows ≡
            record { task = self.new; answer = result.out.answer; effect = result.effect.value } }
        ensures shown { (own : _) → (result.out.call ≡ shown_call (cleaning_turn self.old own).asked) × (result.out.reply ≡ reply) }
        ensures effect { result.out.effect ≡ is_some result.effect.value }
        ensures plain { result.effect.value ≡ None }
    {
        match &self.stage {
            Stage::Look => {
                if reply != DirReply::Ok {
                    return Turned::plain(LIST, reply, Some(Refusal::Fault.answer()));
                }
                let said = self.listed(old);
                Turned::plain(LIST, reply, said)
            }
            Stage::Remove { .. } => {
                let answer = self.unlinked(reply);
                Turned::plain(DirCall::Unlink, reply, answer)
            }
        }
    }

    // A listing was made, and these are the names of old files.
    fn listed(&mut self, old: VecDeque<FileName>) -> Option<Answer>
        ensures { after_old self.old old.items ≡ record { task = self.new; answer = result; effect = None } }
    {
        let files = old.len() as u64;
        if old.is_empty() {
            return Some(Answer::Cleaned(files));
        }
        self.stage = Stage::Remove { old, files };
        None
    }

    // The name was taken away, or the call was refused.
    fn unlinked(&mut self, reply: DirReply) -> Option<Answer>
        ensures { (name : _) (rest : _) (files : _) → self.old.stage ≡ Remove name rest files →
            after_unlink self.old rest files reply ≡ record { task = self.new; answer = result; effect = None } }
    {
        let Stage::Remove { old, files } = &mut self.stage else {
            return None;
        };
        let left = match reply {
            DirReply::Ok => *files,
            DirReply::NotFound => files.saturating_sub(1),
            DirReply::Exists | DirReply::Fault => return Some(Refusal::Fault.answer()),
        };
        if old.len() <= 1 {
            return Some(Answer::Cleaned(left));
        }
        let _gone = old.pop_front();
        *files = left;
        None
    }
}

// The name that is next, and no byte where none is left.
fn next_name(old: &VecDeque<FileName>) -> &[u8]
    ensures { result.now ≡ next_of old.now.items }
{
    match old.front() {
        Some(name) => name.as_slice(),
        None => &[],
    }
}
