//! An errand: it looks for a message in one place after the other, decides what to do with it, and does that. Seen, Flag, Move, Copy and
//! Expunge are errands, each a row of the table in `purpose.rt`.
ghost use Rattle.std.specs.Prelude.{◌≡◌, ◌<◌, List, vec_len, vec_capacity, None, IfOk, IfErr};
ghost use Rattle.md_dirs.specs.Rows.{row_named};
ghost use Rattle.md_dirs.specs.declared.rows.Row.{Row as RowView};
ghost use Rattle.md_jobs.specs.Requests.{request_view, IsErrandReady};
ghost use Rattle.md_jobs.specs.Turn.{Replies, TakesOrEnds, FollowsOrEnds, TurnOf, NoCall, Shows, rows_for};
ghost use Rattle.md_jobs.specs.Asked.{ask_of, shown_call};
ghost use Rattle.md_jobs.specs.Tasks.Views.Errands.{errand_view, deed_view};
ghost use Rattle.md_jobs.specs.Machines.Purposes.{searches, place_after, decide, info_in};
ghost use Rattle.md_jobs.specs.Machines.Errand.{new_errand, asked_of, after_none, after_decision, after_look, lost_or_again, after_act, errand_turn};

use crate::answer::Answer;
use crate::call::JobId;
use crate::effect::{Change, Effect};
use crate::error::CoreError;
use crate::purpose::{Decision, Deed, Purpose};
use crate::refusal::Refusal;
use crate::request::Request;
use crate::spot::Spot;
use crate::step::{DirCall, DirReply, Moment};
use crate::turn::{Turned, reply_of};
use md_dirs::{Bytes, Dirs, Row};
use std::alloc::Global;

/// How far an errand has come. So many tries are left, with this one.
#[derive(Clone, Copy)]
pub enum Stage {
    /// The message is looked for in the place of the path, whatever name that has.
    Look { tries: u64 },
    /// The message was found by the path, with its file's stamp and size, and its name is acted on.
    Act { stamp: u64, size: u64, tries: u64 },
}

/// What an errand has made ready for its next directory call.
#[derive(Drop)]
pub enum ErrandReady {
    /// The directory is read.
    Look,
    /// This is done with the message that was found, and is answered so.
    Act { deed: Deed, answer: Answer },
}

/// An errand on the message of a unique name. The directory calls borrow its path, and a change that is done takes its name.
#[derive(Drop)]
pub struct Errand {
    pub path: Spot,
    pub unique: Bytes,
    pub purpose: Purpose,
    pub stage: Stage,
}

impl Errand {
    /// An errand that has not begun. No tries count as one.
    pub fn new(alloc: Global, folder: u32, unique: Bytes, purpose: Purpose, tries: u64) -> Errand
        ensures { errand_view result ≡ new_errand folder unique purpose tries }
    {
        Errand {
            path: Spot::nameless(alloc, folder, purpose.first()),
            unique,
            purpose,
            stage: Stage::Look { tries },
        }
    }

    /// Takes the next turn: it asks, makes the call, and takes the reply. It adds its effect, where it is one. After a refusal nothing has
    /// changed. An errand that has its answer is to take no more turns: of what it then holds nothing is said.
    pub fn turn<D: Dirs>(
        &mut self,
        alloc: Global,
        dirs: &mut D,
        job: JobId,
        at: Moment,
        effects: &mut Vec<Effect>,
    ) -> Result<Turned, CoreError>
        ensures { TurnOf (λ t.
            TakesOrEnds (errand_turn job (errand_view self.old)) at (D.device dirs.old) t.out t.effect.value
            (errand_view self.new) (D.device dirs.new))
            self.old self.new effects.old.items effects.new.items (D.device dirs.old) (D.device dirs.new) result }
    {
        // Room is made before the call, as one that was made can't be refused any more.
        effects.reserve(1)?;
        let ready = self.ask(alloc)?;
        let (reply, row) = self.call(alloc, dirs, &ready)?;
        Ok(self.take(alloc, job, ready, reply, row, effects))
    }

    /// Makes the next directory call ready, so that neither the call nor what follows it needs memory. What it gives goes to `request` and
    /// `take` of this job as it stands. Refused `NoMemory` only when out of memory. Nothing has changed, whatever it gives.
    pub fn ask(&self, alloc: Global) -> Result<ErrandReady, CoreError>
        ensures ready { IfOk result (λ ready. IsErrandReady (errand_view self.now) (errand_view self.now).stage ready) }
        ensures memory { IfErr result (λ e. e ≡ CoreError.NoMemory) }
    {
        match self.stage {
            Stage::Look { .. } => Ok(ErrandReady::Look),
            Stage::Act { .. } => {
                let (deed, answer) = self.purpose.deed(alloc, &self.unique, &self.path)?;
                Ok(ErrandReady::Act { deed, answer })
            }
        }
    }

    /// The directory call that is ready, with its paths, borrowed from the job. It takes no memory, and changes nothing.
    pub fn request<'a>(&'a self, ready: &'a ErrandReady) -> Request<'a>
        requires { IsErrandReady (errand_view self.now) (errand_view self.now).stage ready.now }
        ensures { (job : _) → request_view result ≡ (errand_turn job (errand_view self.now)).asked }
    {
        match ready {
            ErrandReady::Look => Request::List {
                folder: self.path.folder,
                place: self.path.place,
            },
            ErrandReady::Act { deed, .. } => deed.request(&self.path),
        }
    }

    // Makes the call that is ready. Where there was no memory for its paths, no call was made.
    fn call<D: Dirs>(
        &self,
        alloc: Global,
        dirs: &mut D,
        ready: &ErrandReady,
    ) -> Result<(DirReply, Option<Row>), CoreError>
        requires { IsErrandReady (errand_view self.now) (errand_view self.now).stage ready.now }
        ensures made { IfOk result (λ made. (job clock : _) →
            Replies (ask_of (errand_turn job (errand_view self.now)).asked clock) (D.device dirs.old) made.0 (D.device dirs.new)) }
        ensures row { IfOk result (λ made. (job : _) → made.0 ≡ DirReply.Ok →
            made.1 ≡ row_named self.now.unique (rows_for (errand_turn job (errand_view self.now)).asked (D.device dirs.old).state)) }
        ensures refused { IfErr result (NoCall (D.device dirs.old) (D.device dirs.new)) }
    {
        match ready {
            ErrandReady::Look => {
                match dirs.find(self.path.folder, self.path.place, self.unique.as_slice()) {
                    Ok(row) => Ok((DirReply::Ok, row)),
                    Err(error) => Ok((reply_of(Err(error))?, None)),
                }
            }
            ErrandReady::Act { deed, .. } => {
                let made = deed.make(alloc, dirs, &self.path)?;
                Ok((reply_of(made)?, None))
            }
        }
    }

    /// Goes on by what the directories replied to the call that was ready, whatever it is. Of a reading that was done it is given the first
    /// row that has the unique name of the message, if there is one; of any other call no row plays a part. Where this is the effect of the
    /// job, it is added to the effects, which have room for it. It can't be refused.
    pub fn take(
        &mut self,
        alloc: Global,
        job: JobId,
        ready: ErrandReady,
        reply: DirReply,
        row: Option<Row>,
        effects: &mut Vec<Effect>,
    ) -> Turned
        requires ready { IsErrandReady (errand_view self.old) (errand_view self.old).stage ready }
        requires room { vec_len effects.old < vec_capacity effects.old }
        ensures follows { (rows : List RowView) → (reply ≡ DirReply.Ok → row ≡ row_named self.old.unique rows) →
            FollowsOrEnds ((errand_turn job (errand_view self.old)).follows reply rows)
            (errand_view self.new) result.out.answer result.effect.value }
        ensures shown { Shows (shown_call (errand_turn job (errand_view self.old)).asked) reply effects.old.items effects.new.items result }
    {
        match ready {
            ErrandReady::Look => {
                let Stage::Look { tries } = self.stage else {
                    unreachable!()
                };
                self.looked(job, reply, row, tries, effects)
            }
            ErrandReady::Act { deed, answer } => {
                let Stage::Act { size, tries, .. } = self.stage else {
                    unreachable!()
                };
                self.acted(alloc, job, deed, answer, size, tries, reply, effects)
            }
        }
    }

    fn looked(
        &mut self,
        job: JobId,
        reply: DirReply,
        row: Option<Row>,
        tries: u64,
        effects: &mut Vec<Effect>,
    ) -> Turned
        requires room { vec_len effects.old < vec_capacity effects.old }
        ensures follows { after_look job (errand_view self.old) self.old.path.place tries reply row ≡
            record { task = errand_view self.new; answer = result.out.answer; effect = result.effect.value } }
        ensures shown { Shows (DirCall.List self.old.path.place) reply effects.old.items effects.new.items result }
    {
        let call = DirCall::List(self.path.place);
        if reply != DirReply::Ok {
            return Turned::plain(call, reply, Some(Refusal::Fault.answer()));
        }
        if let Some(row) = row {
            return self.found(job, row, tries, effects);
        }
        let Some(place) = self.purpose.after(self.path.place) else {
            return Turned::plain(call, reply, Some(Refusal::NotThere.answer()));
        };
        self.path.place = place;
        self.stage = Stage::Look { tries };
        Turned::plain(call, reply, None)
    }

    // A listing was made, and this row was found.
    fn found(&mut self, job: JobId, row: Row, tries: u64, effects: &mut Vec<Effect>) -> Turned
        requires room { vec_len effects.old < vec_capacity effects.old }
        ensures follows { after_decision job (errand_view self.old) self.old.path.place tries row
            (decide self.old.purpose (info_in row.name)) ≡
            record { task = errand_view self.new; answer = result.out.answer; effect = result.effect.value } }
        ensures shown { Shows (DirCall.List self.old.path.place) DirReply.Ok effects.old.items effects.new.items result }
    {
        let call = DirCall::List(self.path.place);
        let (decision, info) = self.purpose.decide(row.name.as_slice());
        match decision {
            Decision::Refuse(refusal) => {
                Turned::plain(call, DirReply::Ok, Some(refusal.answer()))
            }
            Decision::Keep => {
                let effect = Effect {
                    job,
                    answer: self.purpose.answer(row.name.as_slice()),
                    change: Change::Same,
                };
                Turned::acted(call, DirReply::Ok, Some(effect.answer), effect, effects)
            }
            Decision::Act => {
                let Row { name, stamp, size } = row;
                self.path.found(name, info);
                self.stage = Stage::Act { stamp, size, tries };
                Turned::plain(call, DirReply::Ok, None)
            }
        }
    }

    // The deed was done, or its call was refused. One that is done ends the errand, and its effect takes the path's name.
    fn acted(
        &mut self,
        alloc: Global,
        job: JobId,
        deed: Deed,
        answer: Answer,
        size: u64,
        tries: u64,
        reply: DirReply,
        effects: &mut Vec<Effect>,
    ) -> Turned
        requires room { vec_len effects.old < vec_capacity effects.old }
        ensures follows { FollowsOrEnds (after_act job (errand_view self.old) (deed_view self.old.path deed) answer size tries reply)
            (errand_view self.new) result.out.answer result.effect.value }
        ensures shown { Shows (shown_call (asked_of (deed_view self.old.path deed))) reply effects.old.items effects.new.items result }
    {
        let call = deed.shown();
        match reply {
            DirReply::Ok => {
                let change = deed.change(self.path.take(alloc), size);
                let effect = Effect {
                    job,
                    answer,
                    change,
                };
                Turned::acted(call, reply, Some(effect.answer), effect, effects)
            }
            DirReply::NotFound => {
                let answer = self.again(tries);
                Turned::plain(call, reply, answer)
            }
            DirReply::Exists => Turned::plain(call, reply, Some(deed.taken().answer())),
            DirReply::Fault => Turned::plain(call, reply, Some(Refusal::Fault.answer())),
        }
    }

    // The name was gone: the message is looked for again, where a try is left.
    fn again(&mut self, tries: u64) -> Option<Answer>
        ensures { lost_or_again (errand_view self.old) tries ≡ record { task = errand_view self.new; answer = result; effect = None } }
    {
        if tries <= 1 {
            return Some(Refusal::Lost.answer());
        }
        self.path.place = self.purpose.first();
        self.stage = Stage::Look { tries: tries - 1 };
        None
    }
}
