// The store that threads share.
ghost use Rattle.std.specs.Prelude.{◌≡◌, ◌≢◌, ◌⊎◌, ◌<◌, ◌≤◌, length, None, IsTrue, IfOk, IfErr, OnOk, OnErr, MatchBool, MatchResult};
ghost use mathlib.Core.List.{IsPrefix};
ghost use Rattle.md_dirs.specs.declared.paths.Place.TheVariants.{New};
ghost use Rattle.md_jobs.specs.declared.error.CoreError.TheVariants as core;
ghost use Rattle.md_core.specs.Runs.{effects_of};
ghost use Rattle.md_view.specs.Named.{named_of};
ghost use Rattle.md_store.specs.declared.error.ListError.TheVariants as refusal;
ghost use Rattle.md_store.specs.Calling.{RefusesSince, plain_refusal, IsWhy};
ghost use Rattle.md_store.specs.Listing.{IsLegalFrom, read_at, Lists, Finishes, ShowsLast};
ghost use Rattle.md_store.specs.Locks.{SubmitsSince, RefusesCall, ReadsSince, HoldsAll, IsNews, IsTold, TellsSince};
ghost use Rattle.md_store.specs.Ongoing.{IsSince, GoesOn};

use crate::error::{ListError, StoreError};
use crate::locked::Locked;
use crate::naming::Naming;
use crate::pass::Pass;
use crate::reading::FirstReading;
use crate::step::StoreStep;
use crossbeam_utils::Backoff;
use md_core::{Call, CoreError, JobId, SubmitRefused, World};
use md_dirs::{Bytes, Dirs};
use md_view::Entry;
use std::alloc::Global;
use std::sync::{Mutex, MutexGuard, Wait};

/// How often a thread tries the lock before it sleeps.
const MOST_TRIES: u32 = 128;

/// How often a thread waits between two tries: for a moment at first, and then it yields the processor.
const PAUSES: u32 = 32;

/// A store that threads share: a world inside a lock, and what of it is published. Each caller has a pass of the same naming type.
pub struct Store<D: Dirs, J: Naming> {
    pub(crate) lock: Mutex<Locked<D, J>>,
}

impl<D: Dirs, J: Naming> Store<D, J> {
    /// Lends the store inside its lock, so that a caller submits, steps and reads under one lock, with clauses that say exactly what each does;
    /// `Locked::lags` says what is known of it at first. It waits until the lock is free, and other threads wait until the guard is let go, by
    /// `MutexGuard::unlock`. Listings need no lock.
    ///
    /// A thread tries for a while, some milliseconds at most, before it sleeps: who sleeps is woken long after the lock is free. It tries
    /// seldom, so that the thread that has the lock mostly takes it again, with all that a step needs still in its caches.
    pub fn lock<R: Wait>(&self, rt: &R) -> MutexGuard<'_, Locked<D, J>> {
        let backoff = Backoff::new();
        for _ in 0..MOST_TRIES {
            if let Some(guard) = self.lock.try_lock() {
                return guard;
            }
            for _ in 0..PAUSES {
                backoff.snooze();
            }
        }
        self.lock.lock(rt)
    }

    /// Submits a call, and gives the number of its job. It is refused as `World::submit` is, and a call that is refused comes back. The clauses
    /// speak of some run that goes on from the opening; those of `call` speak of the store's own.
    pub fn submit<R: Wait>(&self, rt: &R, call: Call) -> Result<JobId, SubmitRefused>
        ensures job { IfOk result (λ job. SubmitsSince J.begun call job) }
        ensures call { IfErr result (λ r. r.call ≡ call) }
        ensures refused { MatchResult result
            (λ _. plain_refusal J.opening.folders call ≡ None)
            (λ r. IsWhy call (plain_refusal J.opening.folders call) r.error) }
        ensures why { IfErr result (λ r. RefusesCall J.begun call r.error) }
    {
        let mut guard = self.lock(rt);
        guard.lags();
        let made = guard.submit(call);
        MutexGuard::unlock(guard);
        made
    }

    /// Makes the next directory call of a job, publishes its effect, and tells the pass of the run behind that step, and of all effects so far;
    /// where memory for publishing runs out, the news is `Later`, and the pass is told of no effect.
    ///
    /// `now` and `own` are in seconds. The store's clock becomes `now` where that is greater; `own` is the moment by the clock of the job's
    /// host, and a job without one goes by the store's. Refused `NoJob`, `Answered`, or `NoMemory`: then no directory call was made, and the
    /// pass holds what it held. After `NoMemory` an effect that was left from before may have been published.
    pub fn step<R: Wait>(
        &self,
        rt: &R,
        pass: &mut Pass<J>,
        job: JobId,
        now: u64,
        own: Option<u64>,
    ) -> Result<StoreStep, CoreError>
        ensures step { IfOk result (λ s. TellsSince J.begun job now own s pass.old pass.new) }
        ensures held { IsPrefix pass.old.history pass.new.history }
        ensures own { GoesOn pass.old.run pass.new.run }
        ensures news { IfOk result (λ s. IsNews s.news s.out.effect pass.old.history pass.new.history) }
        ensures told { IfOk result (λ s. IsTold s.news s.out.answer job pass.old.history pass.new.history) }
        ensures legal { IsLegalFrom J.opening pass.new.history }
        ensures refused { OnErr result (pass.new ≡ pass.old) }
        ensures no_job { IfErr result (λ e. e ≡ core.NoJob → (job ≡ 0) ⊎ (length J.begun.calls < job)) }
        ensures error { IfErr result (λ e. (e ≡ core.NoJob) ⊎ (e ≡ core.Answered) ⊎ (e ≡ core.NoMemory)) }
        ensures why { IfErr result (RefusesSince J.begun pass.old.run job) }
    {
        let mut guard = self.lock(rt);
        guard.lags();
        md_core::laws::each_call_has_its_job();
        let made = guard.step(rt, pass, job, now, own);
        MutexGuard::unlock(guard);
        made
    }

    /// Publishes an effect that memory refused before, and tells the pass of the run and of all effects so far. It takes no step of a job.
    /// Refused `NoMemory`, and then the pass holds what it held.
    pub fn catch_up<R: Wait>(&self, rt: &R, pass: &mut Pass<J>) -> Result<(), StoreError>
        ensures held { IsPrefix pass.old.history pass.new.history }
        ensures own { GoesOn pass.old.run pass.new.run }
        ensures all { OnOk result (HoldsAll pass.new) }
        ensures legal { IsLegalFrom J.opening pass.new.history }
        ensures unchanged { OnErr result (pass.new ≡ pass.old) }
    {
        let mut guard = self.lock(rt);
        guard.lags();
        let made = guard.catch_up(rt, pass);
        MutexGuard::unlock(guard);
        made
    }

    /// A copy of the bytes of the message of a unique name, in new or cur of any folder: they are whole, as they were delivered, copied, or
    /// there at the opening. None where there is no such message. The clause speaks of some run that goes on from the opening.
    pub fn read<R: Wait>(
        &self,
        rt: &R,
        alloc: Global,
        unique: &[u8],
    ) -> Result<Option<Bytes>, StoreError>
        ensures { IfOk result (λ bytes. ReadsSince J.begun unique.now bytes) }
    {
        let guard = self.lock(rt);
        guard.lags();
        md_core::laws::worlds_show_their_traces();
        let read = guard.read(alloc, unique);
        MutexGuard::unlock(guard);
        read
    }

    /// Lists a folder, in order of unique name: its new as of one moment, joined with its cur as of a later one. It takes no lock, and shows
    /// at least what the pass has seen or was told of. It never waits, but whoever publishes waits, under the lock, until it has read what it
    /// reads, so a slow listing holds up steps. Refused `Closed`, else `NoFolder`, else `NoMemory`; the pass then holds no less than before.
    pub fn list(
        &self,
        alloc: Global,
        pass: &mut Pass<J>,
        folder: u32,
    ) -> Result<Vec<Entry>, ListError>
        ensures held { IsPrefix pass.old.history pass.new.history }
        ensures own { pass.new.run ≡ pass.old.run }
        ensures entries { IfOk result (λ v. Lists folder J.opening pass.old.history pass.new.history v.items) }
        ensures folder { OnOk result (folder < J.opening.folders) }
        ensures no_folder { IfErr result (λ e. e ≡ refusal.NoFolder → J.opening.folders ≤ folder) }
        ensures no_memory { IfErr result (λ e. e ≡ refusal.NoMemory → folder < J.opening.folders) }
    {
        let first = self.first(alloc, pass, folder)?;
        self.second(alloc, pass, &first)
    }

    /// Reads new of a folder: the first half of a listing. It never waits, and whoever publishes waits until it has read; between the two
    /// halves nobody waits. Refused as `list` is; the pass then holds what it held.
    pub fn first(
        &self,
        alloc: Global,
        pass: &mut Pass<J>,
        folder: u32,
    ) -> Result<FirstReading<J>, ListError>
        ensures held { IsPrefix pass.old.history pass.new.history }
        ensures own { pass.new.run ≡ pass.old.run }
        ensures legal { IsLegalFrom J.opening pass.new.history }
        ensures folder { OnOk result (folder < J.opening.folders) }
        ensures no_folder { IfErr result (λ e. e ≡ refusal.NoFolder → J.opening.folders ≤ folder) }
        ensures no_memory { IfErr result (λ e. e ≡ refusal.NoMemory → folder < J.opening.folders) }
        ensures unchanged { OnErr result (pass.new ≡ pass.old) }
        ensures entries { IfOk result (λ f. (f.folder ≡ folder) × (f.history ≡ pass.new.history) × (f.entries ≡ read_at folder New J.opening pass.new.history)) }
    {
        let held = pass.front().again();
        let entries = pass.read(alloc, folder, None, &held)?;
        Ok(FirstReading::new(folder, entries, pass.front().again()))
    }

    /// Reads cur of the folder of a first reading, and joins the two: the second half of a listing. Any pass of the store may do so: it is
    /// told of the history of the first reading, so that cur is never older than new. It never waits, and whoever publishes waits until it has
    /// read and joined. Refused as `list` is; the pass then holds what it held.
    pub fn second(
        &self,
        alloc: Global,
        pass: &mut Pass<J>,
        first: &FirstReading<J>,
    ) -> Result<Vec<Entry>, ListError>
        ensures held { IsPrefix pass.old.history pass.new.history }
        ensures own { pass.new.run ≡ pass.old.run }
        ensures legal { IsLegalFrom J.opening pass.new.history }
        ensures folder { OnOk result (first.now.folder < J.opening.folders) }
        ensures no_folder { IfErr result (λ e. e ≡ refusal.NoFolder → J.opening.folders ≤ first.now.folder) }
        ensures no_memory { IfErr result (λ e. e ≡ refusal.NoMemory → first.now.folder < J.opening.folders) }
        ensures unchanged { OnErr result (pass.new ≡ pass.old) }
        ensures told { OnOk result (IsPrefix first.now.history pass.new.history) }
        ensures entries { IfOk result (λ v. Finishes J.opening first.now pass.new.history v.items) }
    {
        md_core::laws::legal_histories_keep_messages_out_of_new();
        first.is_read();
        let held = pass.front().longer(first.front());
        pass.read(alloc, first.folder(), Some(first.entries()), &held)
    }

    /// The world, as `close` gives it, and whether a pass holds all effects of it; it holds no others. Where it does, what was listed with the
    /// pass when it held as many is what the folder shows at the end.
    #[tactic(auto, using(crate::proofs::Last::shows_last))]
    pub fn close_with<R: Wait>(self, rt: &R, pass: &Pass<J>) -> (World<D>, bool)
        ensures since { IsSince J.begun result.0 }
        ensures image { named_of result.0.image ≡ J.opening }
        ensures covers { IsPrefix pass.now.history (effects_of result.0) }
        ensures all { MatchBool result.1 (pass.now.history ≡ effects_of result.0) (pass.now.history ≢ effects_of result.0) }
        ensures goes { GoesOn pass.now.run result.0 }
        ensures shown { IsTrue result.1 → ShowsLast J.opening pass.now.history result.0 }
    {
        let Store { lock } = self;
        let mut locked = lock.into_inner();
        let all = locked.is_held(pass);
        let world = locked.close(rt);
        world.interleaves();
        (world, all)
    }

    /// The world, once the threads that used the store have ended. It waits for listings that are being read.
    pub fn close<R: Wait>(self, rt: &R) -> World<D>
        ensures since { IsSince J.begun result }
        ensures image { named_of result.image ≡ J.opening }
    {
        let Store { lock } = self;
        lock.into_inner().close(rt)
    }
}
