//! New jobs.
ghost use Rattle.std.specs.Prelude.{◌≡◌, ◌+◌, ◌&&◌, ◌||◌, None, not, length, vec_len, vec_capacity, MatchResult, IfOk, IfErr, OnOk, OnErr, ◌<◌};
ghost use Rattle.md_core.specs.Runs.{and_call, effects_of, IsRefusal};
ghost use Rattle.std.specs.Str.{bytes_eq};
ghost use Rattle.md_core.specs.Mailbox.{HasOnePath};
ghost use Rattle.md_core.specs.Submitting.{submit_refusal};
ghost use Rattle.md_core.specs.Gathering.{Covers, KeepsTried, KeepsUsed, holds, is_used_before};
ghost use Rattle.md_used.specs.Used.{is_among};
ghost use Rattle.md_core.specs.Interleaving.{Interleaves};
ghost use Rattle.md_core.specs.Tracing.{trace_of};

use crate::jobs::job::Job;
use crate::world::World;
use crate::world::log::make_room;
use crate::world::looking::names::{names_in, use_tmp};
use crate::world::reading::holds_name;
use md_dirs::Dirs;
use md_jobs::{Call, CoreError, JobId};
use md_used::Used;
use std::alloc::{AllocError, Global};

/// A call that was not submitted, and why.
#[derive(Debug, Drop)]
pub struct SubmitRefused {
    pub error: CoreError,
    pub call: Call,
}

// Gathers all names of the directories, at the first call that makes one: so later calls need no look in each folder.
fn gather<D: Dirs>(alloc: Global, dirs: &D, used: &mut Used) -> Result<(), AllocError>
    requires { Covers (D.device dirs.now).state used.old }
    ensures since { used.new.since ≡ used.old.since }
    ensures covers { Covers (D.device dirs.now).state used.new }
{
    if used.were.is_none() {
        used.were = Some(names_in(alloc, dirs)?);
    }
    Ok(())
}

// Uses the name that a call makes, unless it is used already. Each name is hashed once, since a new one is asked for as it is added.
fn make_name<D: Dirs>(
    alloc: Global,
    dirs: &D,
    used: &mut Used,
    name: &[u8],
) -> Result<bool, AllocError>
    requires one { HasOnePath (D.device dirs.now).state }
    requires covers { Covers (D.device dirs.now).state used.old }
    ensures covers { Covers (D.device dirs.now).state used.new }
    ensures free { IfOk result (λ is_free. is_free ≡ not (is_used_before (D.device dirs.now).state used.old name.now)) }
    ensures ok { IfOk result (λ is_free. (u : _) → is_among u used.new.since ≡ (is_free && bytes_eq name.now u || is_among u used.old.since)) }
    ensures err { OnErr result (used.new.since ≡ used.old.since) }
{
    if holds_name(dirs, used, name) {
        return Ok(false);
    }
    gather(alloc, dirs, used)?;
    used.since.insert(name)
}

// Uses the name of a message that an expunge may take away, if the directories use it.
fn take_name<D: Dirs>(dirs: &D, used: &mut Used, name: &[u8]) -> Result<(), AllocError>
    requires one { HasOnePath (D.device dirs.now).state }
    requires covers { Covers (D.device dirs.now).state used.old }
    ensures were { used.new.were ≡ used.old.were }
    ensures ok { OnOk result ((u : _) → is_among u used.new.since
        ≡ (bytes_eq name.now u && holds (D.device dirs.now).state u || is_among u used.old.since)) }
    ensures err { OnErr result (used.new.since ≡ used.old.since) }
{
    if !used.since.contains(name) && holds_name(dirs, used, name) {
        used.since.insert(name)?;
    }
    Ok(())
}

// Uses the name that a call makes, if nothing uses it, and those that it may take away: what directories use later is told by these and by
// a look.
fn keep_names<D: Dirs>(
    alloc: Global,
    dirs: &D,
    used: &mut Used,
    call: &Call,
) -> Result<bool, AllocError>
    requires one { HasOnePath (D.device dirs.now).state }
    requires covers { Covers (D.device dirs.now).state used.old }
    ensures ok { IfOk result (KeepsTried (D.device dirs.now).state call.now used.old used.new) }
    ensures err { OnErr result (KeepsUsed (D.device dirs.now).state used.old used.new) }
{
    used.merge()?;
    match call {
        Call::Deliver { unique, .. } => make_name(alloc, dirs, used, unique.as_slice()),
        Call::Copy { fresh, .. } => make_name(alloc, dirs, used, fresh.as_slice()),
        Call::Expunge { unique, .. } => {
            take_name(dirs, used, unique.as_slice())?;
            Ok(true)
        }
        Call::Clean { folder } => {
            use_tmp(alloc, dirs, *folder, &mut used.since)?;
            Ok(true)
        }
        Call::Seen { .. } | Call::Flag { .. } | Call::Move { .. } => Ok(true),
    }
}

// Makes room for the job, and uses the names of its call, unless the one that it makes is used.
fn prepare<D: Dirs>(
    alloc: Global,
    dirs: &D,
    jobs: &mut Vec<Job>,
    used: &mut Used,
    call: &Call,
) -> Result<bool, AllocError>
    requires one { HasOnePath (D.device dirs.now).state }
    requires covers { Covers (D.device dirs.now).state used.old }
    ensures jobs { jobs.new.items ≡ jobs.old.items }
    ensures room { OnOk result (vec_len jobs.new < vec_capacity jobs.new) }
    ensures ok { IfOk result (KeepsTried (D.device dirs.now).state call.now used.old used.new) }
    ensures err { OnErr result (KeepsUsed (D.device dirs.now).state used.old used.new) }
{
    make_room(jobs)?;
    keep_names(alloc, dirs, used, call)
}

impl<D: Dirs> World<D> {
    /// Submits a call, and gives the number of its job. The name of a delivery, and that of a copy, is used from then on, until the world
    /// settles.
    ///
    /// It is refused, in this order, as `NoFolder`, `SameFolder`, `BadUnique`, `BadTries`, `BadChunk`, `BodyTooLong`, `TooManyJobs`,
    /// `NameUsed` and `NoMemory`. After a refusal nothing has changed, and the call comes back.
    ///
    /// The first delivery or copy gathers the names of all folders, unless `load` did. A clean copies the names in tmp of its folder.
    pub fn submit(&mut self, call: Call) -> Result<JobId, SubmitRefused>
        ensures ok { IfOk result (λ job. (self.new ≡ and_call self.old call) × (job ≡ length self.old.calls + 1)) }
        ensures effects { OnOk result (effects_of self.new ≡ effects_of self.old) }
        ensures refused { MatchResult result (λ _. submit_refusal self.old call ≡ None) (λ r. IsRefusal (submit_refusal self.old call) r.error) }
        ensures unchanged { OnErr result (self.new ≡ self.old) }
        ensures call { IfErr result (λ r. r.call ≡ call) }
        ensures theorem { OnOk result (Interleaves (trace_of self.new)) }
    {
        if let Err(error) = self.check_call(&call) {
            return Err(SubmitRefused { error, call });
        }
        let prepared = prepare(
            self.alloc,
            &self.dirs,
            &mut self.jobs,
            &mut self.used,
            &call,
        );
        let Ok(true) = prepared else {
            let error = self.late_refusal(&call);
            return Err(SubmitRefused { error, call });
        };
        self.jobs.push_reserved(Job::new(self.alloc, call));
        Ok(self.jobs.len() as u64)
    }
}
