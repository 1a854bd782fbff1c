// What is inside the lock: the world, and the writer of what is published.
ghost use Rattle.std.specs.Prelude.{◌≡◌, ◌≢◌, ◌+◌, ◌⊎◌, [], length, drop, Some, None, IsSome, MatchBool, IfOk, IfErr, OnOk, OnErr, MatchResult, option_map};
ghost use Rattle.std.specs.FinMap as finmap;
ghost use mathlib.Core.List.{IsPrefix};
ghost use Rattle.left_right.specs.Sides.{view as seat_view};
ghost use Rattle.md_jobs.specs.Asked.{is_fault};
ghost use Rattle.md_core.specs.Mailbox.{Entry, mailbox_of};
ghost use Rattle.md_core.specs.Machine.{occurrence, job_at};
ghost use Rattle.md_core.specs.Runs.{dirs_of, jobs_of, effects_of, and_event, and_call, step_refusal, IsRefusal};
ghost use Rattle.md_core.specs.Submitting.{submit_refusal};
ghost use Rattle.md_core.specs.Interleaving.{Interleaves};
ghost use Rattle.md_core.specs.Tracing.{trace_of};
ghost use Rattle.md_core.specs.Stepping.{IsRun, ShowsStep};
ghost use Rattle.md_view.specs.Named.{named_of};
ghost use Rattle.md_store.specs.Listing.{IsLegalFrom};
ghost use Rattle.md_store.specs.Publishing.{knower};
ghost use Rattle.md_store.specs.Locks.{Lags, Both, IsLocked, Tells, IsTold};
ghost use Rattle.md_store.specs.Ongoing.{IsSince, GoesOn};
ghost use Rattle.std.specs.Coded.{codes};
ghost use Rattle.md_dirs.specs.State.{state_code};
ghost use Rattle.md_name.specs.contracts.flags.Flags as flags;

use crate::book::Journal;
use crate::error::StoreError;
use crate::naming::Naming;
use crate::pass::Pass;
use crate::rule::StoreWriter;
use crate::step::{News, StoreStep};
use crate::writing::{post, publish};
use md_core::{Call, CoreError, JobId, StepOut, SubmitRefused, World};
use md_dirs::{Bytes, Dirs};
use std::alloc::{AllocError, Global};
use std::marker::{Model, PhantomData};
use std::sync::Wait;

/// The store inside its lock, as `Store::lock` lends it: the world, and the writer of what is published. Contracts see the run and the
/// published effects, and say exactly what a call makes of them.
pub struct Locked<D: Dirs, J: Naming> {
    alloc: Global,
    // The run, but for the calls that were submitted since it was entered.
    journal: Journal,
    writer: StoreWriter,
    world: World<D>,
    of: PhantomData<J>,
}

impl<D: Dirs, J: Naming> Model for Locked<D, J> {
    ghost Value = { Both };

    ghost coded = { Prim.hlevel (codes, state_code, flags.the_row.coded) };

    ghost view = { λ l. record { run = l.world; published = l.writer.desk.shown.value.front.log } };

    ghost invariant = { λ l. IsLocked J.begun J.opening J.book l.world l.writer.desk.shown.value (seat_view l.writer.desk.place) l.journal
        (drop l.writer.behind l.writer.log.items) };
}

impl<D: Dirs, J: Naming> Locked<D, J> {
    pub(crate) fn new(
        alloc: Global,
        world: World<D>,
        journal: Journal,
        writer: StoreWriter,
    ) -> Locked<D, J>
        requires begun { world ≡ J.begun }
        requires world { (named_of world.image ≡ J.opening) × (effects_of world ≡ []) }
        requires named { (journal.book ≡ J.book) × (journal.run ≡ world) }
        requires shown { (writer.desk.shown.value.front.book ≡ J.book) × (writer.desk.shown.value.front.log ≡ []) }
        requires seat { (seat_view writer.desk.place ≡ knower J.opening writer.desk.shown.value) × (drop writer.behind writer.log.items ≡ []) }
        ensures { (result.run ≡ world) × (result.published ≡ []) }
    {
        Locked {
            alloc,
            world,
            journal,
            writer,
            of: PhantomData,
        }
    }

    /// The world. It waits for the readers.
    pub(crate) fn close<R: Wait>(self, rt: &R) -> World<D>
        ensures world { result ≡ self.run }
        ensures since { IsSince J.begun result }
        ensures image { named_of result.image ≡ J.opening }
    {
        let Locked {
            alloc: _,
            world,
            journal: _journal,
            writer,
            of: _,
        } = self;
        drop(writer.take(rt));
        world
    }

    /// What the type keeps: its run goes on from the opening, its effects are published, or all but the last, and its jobs interleave.
    pub fn lags(&self)
        ensures since { IsSince J.begun self.now.run }
        ensures image { named_of self.now.run.image ≡ J.opening }
        ensures lag { Lags (effects_of self.now.run) self.now.published }
        ensures run { IsRun self.now.run }
        ensures theorem { Interleaves (trace_of self.now.run) }
    {
        // A field is looked at, so that what the type keeps is known here.
        let _kept = &self.journal;
        self.world.interleaves();
    }

    /// Whether a pass holds all effects. It holds no others.
    #[tactic(auto, using(crate::proofs::Beginnings::all_of_it))]
    pub(crate) fn is_held(&mut self, pass: &Pass<J>) -> bool
        ensures same { self.new ≡ self.old }
        ensures covers { IsPrefix pass.now.history (effects_of self.new.run) }
        ensures all { MatchBool result (pass.now.history ≡ effects_of self.new.run) (pass.now.history ≢ effects_of self.new.run) }
        ensures goes { GoesOn pass.now.run self.new.run }
    {
        self.covers(pass);
        if pass.len() == self.world.effects().len() as u64 {
            return true;
        }
        false
    }

    // Shows that a pass holds no effects but those of the run, in their order, and that the run goes on from the one that it holds.
    fn covers(&mut self, pass: &Pass<J>)
        ensures same { self.new ≡ self.old }
        ensures begins { IsPrefix pass.now.history (effects_of self.new.run) }
        ensures goes { GoesOn pass.now.run self.new.run }
    {
        self.journal.enter(&self.world, pass.front(), pass.moment());
    }

    // Tells a pass of the run, as it is now, and of no effect.
    fn tell_run(&mut self, pass: &mut Pass<J>)
        ensures same { self.new ≡ self.old }
        ensures run { pass.new.run ≡ self.new.run }
        ensures own { GoesOn pass.old.run pass.new.run }
        ensures history { pass.new.history ≡ pass.old.history }
    {
        self.world.interleaves();
        self.journal.enter(&self.world, pass.front(), pass.moment());
        pass.know(self.journal.moment(&self.world));
    }

    // Tells a pass of all effects, where all are published, and it holds no others.
    fn tell(&self, pass: &mut Pass<J>)
        requires all { self.now.published ≡ effects_of self.now.run }
        requires covers { IsPrefix pass.old.history self.now.published }
        ensures told { pass.new.history ≡ self.now.published }
        ensures legal { IsLegalFrom J.opening pass.new.history }
        ensures run { pass.new.run ≡ pass.old.run }
    {
        self.world.interleaves();
        pass.learn(self.writer.published().front());
    }

    // Makes the next directory call of a job, where all effects are published, and tells the pass of the run. It holds no other effects.
    fn advance(
        &mut self,
        pass: &mut Pass<J>,
        job: JobId,
        now: u64,
        own: Option<u64>,
    ) -> Result<StepOut, CoreError>
        requires { self.old.published ≡ effects_of self.old.run }
        ensures published { self.new.published ≡ self.old.published }
        ensures covers { OnOk result (IsPrefix pass.old.history self.new.published) }
        ensures goes { GoesOn pass.old.run self.old.run }
        ensures run { OnOk result (pass.new.run ≡ self.new.run) }
        ensures own { GoesOn pass.old.run pass.new.run }
        ensures history { pass.new.history ≡ pass.old.history }
        ensures same_pass { OnErr result (pass.new ≡ pass.old) }
        ensures event { IfOk result (λ out. self.new.run ≡ and_event self.old.run (occurrence job now own (is_fault out.reply))) }
        ensures shows { IfOk result (λ out. ShowsStep self.old.run self.new.run (occurrence job now own (is_fault out.reply)) out) }
        ensures refused { MatchResult result (λ _. step_refusal (job_at (jobs_of self.old.run) job) ≡ None)
            (IsRefusal (step_refusal (job_at (jobs_of self.old.run) job))) }
        ensures unchanged { OnErr result (self.new ≡ self.old) }
    {
        let made = self.world.step(job, now, own);
        self.world.interleaves();
        self.journal.enter(&self.world, pass.front(), pass.moment());
        let out = made?;
        pass.know(self.journal.moment(&self.world));
        Ok(out)
    }

    // Refuses a step of a job that isn't there or has its answer, and publishes what is left.
    fn make_ready<R: Wait>(&mut self, rt: &R, job: JobId) -> Result<(), CoreError>
        ensures run { self.new.run ≡ self.old.run }
        ensures published { MatchResult result (λ _. self.new.published ≡ effects_of self.old.run) (λ _. self.new.published ≡ self.old.published) }
        ensures refused { MatchResult result (λ _. step_refusal (job_at (jobs_of self.old.run) job) ≡ None)
            (IsRefusal (step_refusal (job_at (jobs_of self.old.run) job))) }
        ensures unchanged { OnErr result (IsSome (step_refusal (job_at (jobs_of self.old.run) job)) → self.new ≡ self.old) }
    {
        if let Some(error) = self.world.refusal(job) {
            return Err(error);
        }
        self.publish_left(rt)?;
        Ok(())
    }

    // Submits a call, as `submit` does, and tells a pass of the run.
    pub(crate) fn submit_for(
        &mut self,
        pass: &mut Pass<J>,
        call: Call,
    ) -> Result<JobId, SubmitRefused>
        ensures ok { IfOk result (λ job. (pass.new.run ≡ and_call self.old.run call) × (job ≡ length self.old.run.calls + 1)) }
        ensures refused { MatchResult result (λ _. submit_refusal self.old.run call ≡ None) (λ r. IsRefusal (submit_refusal self.old.run call) r.error) }
        ensures call { IfErr result (λ r. r.call ≡ call) }
        ensures own { GoesOn pass.old.run pass.new.run }
        ensures history { pass.new.history ≡ pass.old.history }
        ensures same { OnErr result (pass.new ≡ pass.old) }
    {
        let job = self.submit(call)?;
        self.tell_run(pass);
        Ok(job)
    }

    /// Submits a call, as `World::submit` does.
    pub fn submit(&mut self, call: Call) -> Result<JobId, SubmitRefused>
        ensures ok { IfOk result (λ job. (self.new.run ≡ and_call self.old.run call) × (job ≡ length self.old.run.calls + 1)) }
        ensures effects { OnOk result (effects_of self.new.run ≡ effects_of self.old.run) }
        ensures refused { MatchResult result (λ _. submit_refusal self.old.run call ≡ None) (λ r. IsRefusal (submit_refusal self.old.run call) r.error) }
        ensures unchanged { OnErr result (self.new ≡ self.old) }
        ensures call { IfErr result (λ r. r.call ≡ call) }
        ensures theorem { OnOk result (Interleaves (trace_of self.new.run)) }
        ensures published { self.new.published ≡ self.old.published }
    {
        self.world.submit(call)
    }

    /// A copy of the bytes of the message of a unique name, in new or cur of any folder. None where there is no such message.
    pub fn read(&self, alloc: Global, unique: &[u8]) -> Result<Option<Bytes>, StoreError>
        ensures { IfOk result (λ bytes. bytes ≡ option_map (λ (e : Entry). e.bytes) (finmap.get (mailbox_of (dirs_of self.now.run)) unique.now)) }
    {
        // A field is looked at, so that what the type keeps is known here.
        let _kept = &self.journal;
        let Some(bytes) = self.world.read(unique) else {
            return Ok(None);
        };
        Ok(Some(Bytes::copied(alloc, bytes)?))
    }

    /// Makes the next directory call of a job, publishes its effect, and tells the pass of the run and of all effects so far.
    ///
    /// It is refused as `World::step` is. Behind the checks an effect that is left from before is published first: where memory for that is
    /// refused, it answers `NoMemory` and no directory call is made.
    pub fn step<R: Wait>(
        &mut self,
        rt: &R,
        pass: &mut Pass<J>,
        job: JobId,
        now: u64,
        own: Option<u64>,
    ) -> Result<StoreStep, CoreError>
        ensures held { IsPrefix pass.old.history pass.new.history }
        ensures goes { GoesOn pass.old.run self.old.run }
        ensures run { OnOk result (pass.new.run ≡ self.new.run) }
        ensures own { GoesOn pass.old.run pass.new.run }
        ensures refused { MatchResult result (λ _. step_refusal (job_at (jobs_of self.old.run) job) ≡ None)
            (IsRefusal (step_refusal (job_at (jobs_of self.old.run) job))) }
        ensures same_run { OnErr result (self.new.run ≡ self.old.run) }
        ensures same_pass { OnErr result (pass.new ≡ pass.old) }
        ensures legal { IsLegalFrom J.opening pass.new.history }
        // An effect that was left from before is published, or is still left.
        ensures left { OnErr result ((self.new.published ≡ self.old.published) ⊎ (self.new.published ≡ effects_of self.old.run)) }
        // Where the job isn't there, or has its answer, nothing is published either.
        ensures unchanged { OnErr result (IsSome (step_refusal (job_at (jobs_of self.old.run) job)) → self.new ≡ self.old) }
        ensures event { IfOk result (λ s. self.new.run ≡ and_event self.old.run (occurrence job now own (is_fault s.out.reply))) }
        ensures shows { IfOk result (λ s. ShowsStep self.old.run self.new.run (occurrence job now own (is_fault s.out.reply)) s.out) }
        ensures news { IfOk result (λ s. Tells s.news s.out.effect self.new job pass.old.history pass.new.history) }
        ensures told { IfOk result (λ s. IsTold s.news s.out.answer job pass.old.history pass.new.history) }
    {
        self.world.interleaves();
        pass.is_legal();
        if let Err(error) = self.make_ready(rt, job) {
            self.covers(pass);
            return Err(error);
        }
        let out = self.advance(pass, job, now, own)?;
        if !out.effect {
            self.tell(pass);
            return Ok(StoreStep {
                out,
                news: News::NoEffect,
            });
        }
        if self.publish_left(rt).is_err() {
            return Ok(StoreStep {
                out,
                news: News::Later,
            });
        }
        self.tell(pass);
        Ok(StoreStep {
            out,
            news: News::Told,
        })
    }

    /// Publishes an effect that memory refused before, and tells the pass of the run and of all effects: nothing is left unpublished. It takes
    /// no step of a job. Refused `NoMemory`, and then nothing has changed.
    pub fn catch_up<R: Wait>(&mut self, rt: &R, pass: &mut Pass<J>) -> Result<(), StoreError>
        ensures run { self.new.run ≡ self.old.run }
        ensures all { OnOk result ((self.new.published ≡ effects_of self.new.run) × (pass.new.history ≡ self.new.published)) }
        ensures run_told { OnOk result (pass.new.run ≡ self.new.run) }
        ensures held { IsPrefix pass.old.history pass.new.history }
        ensures own { GoesOn pass.old.run pass.new.run }
        ensures legal { IsLegalFrom J.opening pass.new.history }
        ensures unchanged { OnErr result ((self.new ≡ self.old) × (pass.new ≡ pass.old)) }
    {
        self.lags();
        pass.is_legal();
        self.publish_left(rt)?;
        self.covers(pass);
        self.tell(pass);
        self.tell_run(pass);
        Ok(())
    }

    fn publish_left<R: Wait>(&mut self, rt: &R) -> Result<(), AllocError>
        ensures run { self.new.run ≡ self.old.run }
        ensures published { MatchResult result (λ _. self.new.published ≡ effects_of self.old.run) (λ _. self.new.published ≡ self.old.published) }
    {
        if self.writer.published().front().len() >= self.world.effects().len() as u64 {
            return Ok(());
        }
        self.world.interleaves();
        post(
            self.alloc,
            self.journal.front(),
            &mut self.writer,
            self.world.effects(),
        )?;
        publish(&mut self.writer, rt)
    }
}
