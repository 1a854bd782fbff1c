//! A delivery: "Using maildir format", steps 3 to 6.
ghost use Rattle.std.specs.Prelude.{◌≡◌, ◌+◌, ◌-◌, ◌^◌, ◌<◌, ◌≤◌, length, take, drop, min, vec_len, vec_capacity, None, IfOk, IfErr, OnErr};
ghost use Rattle.md_jobs.specs.Asked.{ask_of, shown_call};
ghost use Rattle.md_jobs.specs.Requests.{request_view, ready_turn, IsDeliveryReady};
ghost use Rattle.md_jobs.specs.Turn.{Replies, Takes, TurnOf, NoCall, Shows};
ghost use Rattle.md_jobs.specs.Machines.Deliver.{new_delivery, at_stage, after_create, after_append, after_link, append_turn, delivery_turn, piece_len, target as target_of};
ghost use Rattle.md_jobs.specs.Tasks.Delivery.{Delivery as DeliveryView, Start, Writing};

use crate::answer::Answer;
use crate::call::JobId;
use crate::effect::{Change, Effect};
use crate::error::CoreError;
use crate::refusal::Refusal;
use crate::request::{PathRef, Request};
use crate::snapshot::Snapshot;
use crate::step::{DirCall, DirReply, Moment};
use crate::turn::{Turned, reply_of};
use md_dirs::{Bytes, Dirs, FileName, Path, Place};
use std::alloc::{AllocError, Global};
use std::marker::Model;

/// How far a delivery has come.
#[derive(Clone, Copy)]
pub enum Stage {
    /// Nothing was done.
    Start,
    /// The file is in tmp. The delivery began at `start`, in seconds by its own clock, and so many bytes are written.
    Writing { start: u64, written: u64 },
    /// The message is in new.
    Linked,
    /// The file in tmp goes, and then the job is refused so.
    Undo(Refusal),
}

/// What a delivery has made ready for its next directory call.
#[derive(Drop)]
pub enum DeliveryReady {
    /// Its file is made, at this moment of its own clock.
    Create { own: u64 },
    /// The next piece is written.
    Append { start: u64, written: u64 },
    /// The file is linked; this is a copy of its name, for the effect.
    Link { name: Bytes },
    /// The file's name in tmp goes, and then the job has this answer.
    Unlink { answer: Answer },
}

/// A delivery is given up after 24 hours, in seconds.
const MOST_SECONDS: u64 = 86_400;

/// A delivery of a body, in pieces of `chunk` bytes, at least 1, by way of a file in tmp. Where one piece is all of the body, the
/// directories may keep its bytes: then the whole is there for contracts alone.
#[derive(Drop)]
pub struct Delivery {
    tmp: Path,
    // The whole body, while a piece of it is still to be written.
    body: Bytes,
    // The whole body, for contracts alone.
    whole: Snapshot<Bytes>,
    size: u64,
    chunk: u64,
    stage: Stage,
}

impl Model for Delivery {
    ghost use Rattle.md_jobs.specs.Tasks.Delivery.{Delivery as DeliveryView};
    ghost use Rattle.md_jobs.specs.Tasks.Views.Bodies.{HasBody};
    ghost use Rattle.std.specs.Coded.{codes};
    ghost use Rattle.md_name.specs.contracts.flags.Flags as flags;

    ghost Value = { DeliveryView };

    ghost coded = { Prim.hlevel (codes, flags.the_row.coded) };

    ghost view = { λ d. record { tmp = d.tmp; body = d.whole.value; chunk = d.chunk; stage = d.stage } };

    ghost invariant = { λ d. HasBody d.stage d.whole.value d.body d.size };
}

// The bytes of a body that are written next, after so many.
fn piece(body: &[u8], chunk: u64, written: u64) -> &[u8]
    requires { written < length body.now }
    ensures bytes { result.now ≡ take (min chunk (length body.now - written)) (drop written body.now) }
    ensures len { length result.now ≡ min chunk (length body.now - written) }
    ensures fits { written + length result.now < 2 ^ 64 }
{
    let left = &body[written as usize..];
    let len = chunk.min(left.len() as u64) as usize;
    &left[..len]
}

// Says how far a delivery is after an append, where so many bytes are written if it was done.
fn appended(stage: &mut Stage, start: u64, written: u64, reply: DirReply) -> Option<Answer>
    ensures { (d : DeliveryView) (k : _) → stage.old ≡ d.stage → written ≡ k + piece_len d k →
        after_append d start k reply ≡ record { task = at_stage d stage.new; answer = result; effect = None } }
{
    match reply {
        DirReply::Ok => {
            *stage = Stage::Writing { start, written };
            None
        }
        DirReply::Exists => Some(Refusal::Fault.answer()),
        DirReply::NotFound => Some(Refusal::TmpGone.answer()),
        DirReply::Fault => {
            *stage = Stage::Undo(Refusal::Fault);
            None
        }
    }
}

impl Delivery {
    /// A delivery that has not begun, of pieces of at most `chunk` bytes. By a chunk of 0 a body that is not empty is never written.
    pub fn new(folder: u32, unique: Bytes, body: Bytes, chunk: u64) -> Delivery
        ensures { result ≡ new_delivery folder unique body chunk }
    {
        Delivery {
            tmp: Path {
                folder,
                place: Place::Tmp,
                name: FileName::of(unique),
            },
            whole: Snapshot::of(&body),
            size: body.len() as u64,
            body,
            chunk,
            stage: Stage::Start,
        }
    }

    /// Takes the next turn: it asks, makes the call, and takes the reply. It adds its effect, where it is one. After a refusal nothing has
    /// changed.
    pub fn turn<D: Dirs>(
        &mut self,
        alloc: Global,
        dirs: &mut D,
        job: JobId,
        at: Moment,
        effects: &mut Vec<Effect>,
    ) -> Result<Turned, CoreError>
        ensures { TurnOf (λ t.
            Takes (delivery_turn job self.old at) at (D.device dirs.old) t.out t.effect.value
            self.new (D.device dirs.new))
            self.old self.new effects.old.items effects.new.items (D.device dirs.old) (D.device dirs.new) result }
    {
        // Room is made before the call, as one that was made can't be refused any more.
        effects.reserve(1)?;
        let ready = self.ask(alloc, at)?;
        if let DeliveryReady::Append { start, written: 0 } = ready {
            if self.size <= self.chunk {
                return self.append_whole(dirs, at, start);
            }
        }
        let reply = self.call(alloc, dirs, &ready, at)?;
        Ok(self.take(job, ready, reply, effects))
    }

    /// Makes the next directory call ready at this moment, so that neither the call nor what follows it needs memory. What it gives goes to
    /// `request` and `take` of this job as it stands. Refused `NoMemory` only when out of memory. Nothing has changed, whatever it gives.
    pub fn ask(&self, alloc: Global, at: Moment) -> Result<DeliveryReady, CoreError>
        ensures ready { IfOk result (λ ready. IsDeliveryReady self.now ready) }
        ensures turn { IfOk result (λ ready. (job : _) → ready_turn job self.now ready ≡ delivery_turn job self.now at) }
        ensures memory { IfErr result (λ e. e ≡ CoreError.NoMemory) }
    {
        match self.stage {
            Stage::Start => Ok(DeliveryReady::Create { own: at.own }),
            Stage::Writing { start, written } => {
                // A clock that went back counts as none.
                if at.own.saturating_sub(start) >= MOST_SECONDS {
                    return Ok(DeliveryReady::Unlink {
                        answer: Refusal::TimedOut.answer(),
                    });
                }
                if self.size > written {
                    return Ok(DeliveryReady::Append { start, written });
                }
                Ok(DeliveryReady::Link {
                    name: Bytes::copied(alloc, self.tmp.name.as_slice())?,
                })
            }
            Stage::Linked => Ok(DeliveryReady::Unlink {
                answer: Answer::Delivered,
            }),
            Stage::Undo(refusal) => Ok(DeliveryReady::Unlink {
                answer: refusal.answer(),
            }),
        }
    }

    /// The directory call that is ready, with its paths and bytes, borrowed from the job. It takes no memory, and changes nothing.
    pub fn request<'a>(&'a self, ready: &'a DeliveryReady) -> Request<'a>
        requires { IsDeliveryReady self.now ready.now }
        ensures { (job : _) → request_view result ≡ (ready_turn job self.now ready.now).asked }
    {
        let Path {
            folder,
            place,
            name,
        } = &self.tmp;
        let name = name.as_slice();
        let path = PathRef::new(*folder, *place, name);
        match ready {
            DeliveryReady::Create { .. } => Request::Create { path },
            DeliveryReady::Append { written, .. } => Request::Append {
                path,
                bytes: piece(self.body.as_slice(), self.chunk, *written),
            },
            DeliveryReady::Link { .. } => Request::Link {
                old: path,
                new: PathRef::new(*folder, Place::New, name),
            },
            DeliveryReady::Unlink { .. } => Request::Unlink { path },
        }
    }

    /// Goes on by what the directories replied to the call that was ready, whatever it is. Where this is the effect of the job, it is added
    /// to the effects, which have room for it. It can't be refused.
    pub fn take(
        &mut self,
        job: JobId,
        ready: DeliveryReady,
        reply: DirReply,
        effects: &mut Vec<Effect>,
    ) -> Turned
        requires ready { IsDeliveryReady self.old ready }
        requires room { vec_len effects.old < vec_capacity effects.old }
        ensures follows { (rows : _) → (ready_turn job self.old ready).follows reply rows ≡
            record { task = self.new; answer = result.out.answer; effect = result.effect.value } }
        ensures shown { Shows (shown_call (ready_turn job self.old ready).asked) reply effects.old.items effects.new.items result }
    {
        match ready {
            DeliveryReady::Create { own } => {
                let answer = self.created(own, reply);
                Turned::plain(DirCall::Create, reply, answer)
            }
            DeliveryReady::Append { start, written } => {
                let len = piece(self.body.as_slice(), self.chunk, written).len() as u64;
                let answer = appended(&mut self.stage, start, written + len, reply);
                Turned::plain(DirCall::Append(len), reply, answer)
            }
            DeliveryReady::Link { name } => self.linked(job, name, reply, effects),
            DeliveryReady::Unlink { answer } => {
                Turned::plain(DirCall::Unlink, reply, Some(answer))
            }
        }
    }

    // Makes the call that is ready. Where there was no memory for its paths, no call was made.
    fn call<D: Dirs>(
        &self,
        alloc: Global,
        dirs: &mut D,
        ready: &DeliveryReady,
        at: Moment,
    ) -> Result<DirReply, CoreError>
        requires { IsDeliveryReady self.now ready.now }
        ensures made { IfOk result (λ reply. (job : _) →
            Replies (ask_of (ready_turn job self.now ready.now).asked at.clock) (D.device dirs.old) reply (D.device dirs.new)) }
        ensures refused { IfErr result (NoCall (D.device dirs.old) (D.device dirs.new)) }
    {
        reply_of(match ready {
            DeliveryReady::Create { .. } => dirs.create(&self.tmp, at.clock),
            DeliveryReady::Append { written, .. } => {
                let piece = piece(self.body.as_slice(), self.chunk, *written);
                dirs.append(&self.tmp, piece, at.clock)
            }
            DeliveryReady::Link { .. } => dirs.link(&self.tmp, &self.target(alloc)?),
            DeliveryReady::Unlink { .. } => dirs.unlink(&self.tmp),
        })
    }

    // Writes the whole body, whose bytes the directories may keep: so here the call takes what `take` would read, and the two are one step.
    fn append_whole<D: Dirs>(
        &mut self,
        dirs: &mut D,
        at: Moment,
        start: u64,
    ) -> Result<Turned, CoreError>
        requires stage { self.old.stage ≡ Writing start 0 }
        requires more { 0 < length self.old.body }
        requires whole { length self.old.body ≤ self.old.chunk }
        ensures ok { IfOk result (λ t.
            Takes (append_turn self.old start 0) at (D.device dirs.old) t.out t.effect.value
            self.new (D.device dirs.new)) }
        ensures plain { IfOk result (λ t. t.effect.value ≡ None) }
        ensures refused { IfErr result (NoCall (D.device dirs.old) (D.device dirs.new)) }
        ensures task { OnErr result (self.new ≡ self.old) }
    {
        let reply = reply_of(dirs.append_body(&self.tmp, &mut self.body, at.clock))?;
        let answer = appended(&mut self.stage, start, self.size, reply);
        Ok(Turned::plain(DirCall::Append(self.size), reply, answer))
    }

    // Where the message is delivered.
    fn target(&self, alloc: Global) -> Result<Path, AllocError>
        ensures { IfOk result (λ path. path ≡ target_of self.now) }
    {
        Ok(Path {
            folder: self.tmp.folder,
            place: Place::New,
            name: self.tmp.name.again(alloc)?,
        })
    }

    fn created(&mut self, own: u64, reply: DirReply) -> Option<Answer>
        requires { self.old.stage ≡ Start }
        ensures { after_create self.old own reply ≡ record { task = self.new; answer = result; effect = None } }
    {
        match reply {
            DirReply::Ok => {
                self.stage = Stage::Writing {
                    start: own,
                    written: 0,
                };
                None
            }
            DirReply::Exists => Some(Refusal::NameTaken.answer()),
            DirReply::NotFound | DirReply::Fault => Some(Refusal::Fault.answer()),
        }
    }

    // The link was made or refused. Its effect takes a copy of the name.
    fn linked(
        &mut self,
        job: JobId,
        name: Bytes,
        reply: DirReply,
        effects: &mut Vec<Effect>,
    ) -> Turned
        requires name { name ≡ self.old.tmp.name }
        requires room { vec_len effects.old < vec_capacity effects.old }
        ensures follows { after_link job self.old reply ≡
            record { task = self.new; answer = result.out.answer; effect = result.effect.value } }
        ensures shown { Shows DirCall.Link reply effects.old.items effects.new.items result }
    {
        match reply {
            // At the link the message is delivered. Whatever comes now, it stays so.
            DirReply::Ok => {
                self.stage = Stage::Linked;
                let effect = Effect {
                    job,
                    answer: Answer::Delivered,
                    change: Change::Add {
                        folder: self.tmp.folder,
                        place: Place::New,
                        name,
                        size: self.size,
                    },
                };
                Turned::acted(DirCall::Link, reply, None, effect, effects)
            }
            DirReply::Exists => {
                self.stage = Stage::Undo(Refusal::NameTaken);
                Turned::plain(DirCall::Link, reply, None)
            }
            DirReply::NotFound => Turned::plain(
                DirCall::Link,
                reply,
                Some(Refusal::TmpGone.answer()),
            ),
            DirReply::Fault => {
                self.stage = Stage::Undo(Refusal::Fault);
                Turned::plain(DirCall::Link, reply, None)
            }
        }
    }
}
