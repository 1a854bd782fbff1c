//! Jobs that are run to their answers.
ghost use Rattle.std.specs.Prelude.{◌≡◌, ◌<◌, ◌++◌, ◌∷◌, [], IfOk, IfErr, OnErr};
ghost use Rattle.std.specs.Option.{option_to_list};
ghost use Rattle.md_dirs.specs.Rows.{row_named};
ghost use Rattle.md_jobs.specs.Machines.Clean.{new_cleaning, cleaning_turn};
ghost use Rattle.md_jobs.specs.Machines.Deliver.{new_delivery, delivery_turn};
ghost use Rattle.md_jobs.specs.Machines.Errand.{new_errand, errand_turn};
ghost use Rattle.md_jobs.specs.Requests.{request_view};
ghost use Rattle.md_jobs.specs.Tasks.Views.Errands.{errand_view};
ghost use Rattle.md_system.specs.Exchanges.{exchange, Ran, Began};
ghost use Rattle.md_system.specs.Steps.{Steps};

use crate::logged::Logged;
use crate::system::System;
use md_dirs::{Bytes, Row};
use md_jobs::{
    Answer, Cleaning, CoreError, Delivery, DirReply, Errand, LEAST_SECONDS, Purpose, Request,
};
use std::alloc::{AllocError, Global};
use std::collections::VecDeque;

// Effects name the job that had them. Here each job is alone.
const JOB: u64 = 1;

/// Runs an errand on the message of a unique name to its answer. It looks again up to `tries` times, at least once, where the name was gone
/// by the time of the act. Refused only when out of memory, between two calls: the errand has had no effect then.
pub fn run_errand<S: System>(
    alloc: Global,
    system: &mut Logged<S>,
    folder: u32,
    unique: Bytes,
    purpose: Purpose,
    tries: u64,
) -> Result<Answer, CoreError>
    ensures ran { IfOk result (λ answer. Ran (λ e at. errand_turn JOB e) (new_errand folder unique purpose tries)
        system.old.log.entries system.new.log.entries answer) }
    ensures memory { IfErr result (λ e. e ≡ CoreError.NoMemory) }
    ensures began { OnErr result (Began (λ e at. errand_turn JOB e) (new_errand folder unique purpose tries)
        system.old.log.entries system.new.log.entries) }
{
    let mut errand = Errand::new(alloc, folder, unique, purpose, tries);
    loop {
        if let Some(answer) = step_errand(alloc, system, &mut errand)? {
            return Ok(answer);
        }
    }
}

// Makes the next call of an errand, and gives its answer, if it has one now.
fn step_errand<S: System>(
    alloc: Global,
    system: &mut Logged<S>,
    errand: &mut Errand,
) -> Result<Option<Answer>, CoreError>
    ensures steps { IfOk result (λ answer. Steps (λ e at. errand_turn JOB e) (errand_view errand.old)
        system.old.log.entries system.new.log.entries answer (errand_view errand.new)) }
    ensures memory { IfErr result (λ e. e ≡ CoreError.NoMemory) }
    ensures kept { OnErr result (system.new.log.entries ≡ system.old.log.entries) }
{
    let mut effects = Vec::new(alloc);
    effects.reserve(1)?;
    let ready = errand.ask(alloc)?;
    system.read_clock();
    let request = errand.request(&ready);
    let unique = errand.unique.as_slice();
    let (reply, row) = look_or_act(alloc, system, &request, unique, &errand.purpose)?;
    let turned = errand.take(alloc, JOB, ready, reply, row, &mut effects);
    Ok(turned.out.answer)
}

// Makes a call of an errand, and keeps of a reading the row of the message alone.
fn look_or_act<S: System>(
    alloc: Global,
    system: &mut Logged<S>,
    request: &Request<'_>,
    unique: &[u8],
    purpose: &Purpose,
) -> Result<(DirReply, Option<Row>), AllocError>
    ensures made { IfOk result (λ heard. system.new.log.entries ≡ system.old.log.entries
        ++ exchange (request_view request.now) system.old.second heard.0 (option_to_list heard.1) ∷ []) }
    ensures row { IfOk result (λ heard. heard.1 ≡ row_named unique.now (option_to_list heard.1)) }
    ensures kept { OnErr result (system.new.log.entries ≡ system.old.log.entries) }
{
    match request {
        Request::List { folder, place } => system.find(alloc, *folder, *place, unique, purpose),
        _ => Ok((system.make(alloc, request)?, None)),
    }
}

/// Delivers a message under a unique name that was never used, in pieces of `chunk` bytes, at least 1. Refused only when out of memory,
/// between two calls: its file may be left in tmp then, and the message may be in new.
pub fn deliver<S: System>(
    alloc: Global,
    system: &mut Logged<S>,
    folder: u32,
    unique: Bytes,
    body: Bytes,
    chunk: u64,
) -> Result<Answer, CoreError>
    requires { 0 < chunk }
    ensures ran { IfOk result (λ answer. Ran (delivery_turn JOB) (new_delivery folder unique body chunk)
        system.old.log.entries system.new.log.entries answer) }
    ensures memory { IfErr result (λ e. e ≡ CoreError.NoMemory) }
    ensures began { OnErr result (Began (delivery_turn JOB) (new_delivery folder unique body chunk)
        system.old.log.entries system.new.log.entries) }
{
    let mut delivery = Delivery::new(folder, unique, body, chunk);
    loop {
        if let Some(answer) = step_delivery(alloc, system, &mut delivery)? {
            return Ok(answer);
        }
    }
}

// Makes the next call of a delivery, and gives its answer, if it has one now.
fn step_delivery<S: System>(
    alloc: Global,
    system: &mut Logged<S>,
    delivery: &mut Delivery,
) -> Result<Option<Answer>, CoreError>
    ensures steps { IfOk result (λ answer. Steps (delivery_turn JOB) delivery.old
        system.old.log.entries system.new.log.entries answer delivery.new) }
    ensures memory { IfErr result (λ e. e ≡ CoreError.NoMemory) }
    ensures kept { OnErr result (system.new.log.entries ≡ system.old.log.entries) }
{
    let mut effects = Vec::new(alloc);
    effects.reserve(1)?;
    let at = system.read_clock();
    let ready = delivery.ask(alloc, at)?;
    let reply = system.make(alloc, &delivery.request(&ready))?;
    let turned = delivery.take(JOB, ready, reply, &mut effects);
    Ok(turned.out.answer)
}

/// Removes files of tmp that were not used for 36 hours. Refused only when out of memory, between two calls: it may have removed some of
/// them then.
pub fn clean<S: System>(
    alloc: Global,
    system: &mut Logged<S>,
    folder: u32,
) -> Result<Answer, CoreError>
    ensures ran { IfOk result (λ answer. Ran (λ c at. cleaning_turn c at.own) (new_cleaning folder)
        system.old.log.entries system.new.log.entries answer) }
    ensures memory { IfErr result (λ e. e ≡ CoreError.NoMemory) }
    ensures began { OnErr result (Began (λ c at. cleaning_turn c at.own) (new_cleaning folder)
        system.old.log.entries system.new.log.entries) }
{
    let mut cleaning = Cleaning::new(folder);
    if let Some(answer) = step_cleaning(alloc, system, &mut cleaning)? {
        return Ok(answer);
    }
    loop {
        if let Some(answer) = step_cleaning(alloc, system, &mut cleaning)? {
            return Ok(answer);
        }
    }
}

// Makes the next call of a clean, and gives its answer, if it has one now.
fn step_cleaning<S: System>(
    alloc: Global,
    system: &mut Logged<S>,
    cleaning: &mut Cleaning,
) -> Result<Option<Answer>, CoreError>
    ensures steps { IfOk result (λ answer. Steps (λ c at. cleaning_turn c at.own) cleaning.old
        system.old.log.entries system.new.log.entries answer cleaning.new) }
    ensures memory { IfErr result (λ e. e ≡ CoreError.NoMemory) }
    ensures kept { OnErr result (system.new.log.entries ≡ system.old.log.entries) }
{
    system.read_clock();
    let (reply, old) = match cleaning.request() {
        Request::List { folder, .. } => system.find_old(alloc, folder, LEAST_SECONDS)?,
        request => (system.make(alloc, &request)?, VecDeque::new(alloc)),
    };
    let turned = cleaning.take(reply, old);
    Ok(turned.out.answer)
}
