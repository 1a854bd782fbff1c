//! Jobs whose directory calls their callers make, behind handles.
ghost use Rattle.std.specs.Prelude.{⊤, ◌≡◌, ◌⊎◌, Some, None, Ok, Err, MatchResult};
ghost use Rattle.md_core.specs.Runs.{answer_of};
ghost use Rattle.md_script.specs.declared.error.PlayKind.TheVariants.{NoMemory};
ghost use Rattle.md_ffi.specs.Beginning.{begun, Begins};
ghost use Rattle.md_driven.specs.Driving.{ask_refusal, asked_at, hear_refusal, requested, with_row, LaysAsked};
ghost use Rattle.md_ffi.specs.Doing.{free_number, OnOpen};
ghost use Rattle.md_ffi.specs.Handled.{Goes, TakesOr, Unless};
ghost use Rattle.md_driven.specs.Shown.{answer_shown, reply_at};
ghost use Rattle.md_driven.specs.declared.refusal.Refusal.TheVariants.{Kind};

use crate::asked::{Asked, Brought, call_of};
use crate::checks::refusal_alone;
use crate::driven_handle::DrivenHandle;
use md_driven::{AnswerShown, Driven, Refusal, RequestShown, StepShown, reply_of, status};
use md_script::PlayKind;
use std::alloc::{AllocError, Global};

// The job of a call.
#[tactic(auto, unfolding(crate::specs::Beginning::begun))]
fn begin(alloc: Global, asked: &Asked, brought: Brought<'_>) -> Result<Box<Driven>, Refusal>
    ensures { MatchResult result
        (λ driven. begun asked.now brought.entry.unique.now brought.entry.first.now brought.entry.second.now ≡ Ok driven.value)
        (λ e. (e ≡ Kind NoMemory) ⊎ (begun asked.now brought.entry.unique.now brought.entry.first.now brought.entry.second.now ≡ Err e)) }
{
    let call = call_of(alloc, asked, brought)?;
    if let Some(error) = refusal_alone(&call) {
        return Err(Refusal::Kind(PlayKind::from(error)));
    }
    let driven = Driven::new(alloc, call);
    Ok(Box::new(alloc, driven).map_err(|_| AllocError)?)
}

/// Opens a handle over the job of a call, of which no step was taken. What the handle held is let go first.
///
/// Refused as `call_of` is, then `SameFolder`, `BadUnique`, `BadTries` and `BadChunk`, and out of memory. The handle is closed then.
#[unsafe(no_mangle)]
pub extern "C" fn md_ffi_drive(
    alloc: Global,
    asked: &Asked,
    unique: &[u8],
    first: &[u8],
    second: &[u8],
    handle: &mut DrivenHandle,
) -> u32
    ensures { Begins (begun asked.now unique.now first.now second.now) handle.new.slot.held result }
{
    let _old = handle.take(alloc);
    let brought = Brought {
        unique,
        first,
        second,
    };
    match begin(alloc, asked, brought) {
        Ok(driven) => {
            handle.hold(driven);
            0
        }
        Err(refusal) => refusal.number(),
    }
}

/// Asks for the job's next call, at a second by the caller's clock. Refused `Closed`; `Answered`; and `Asked`, where the reply to a call is
/// waited for. The job is as it was then.
#[unsafe(no_mangle)]
pub extern "C" fn md_ffi_driven_ask(alloc: Global, handle: &mut DrivenHandle, second: u64) -> u32
    ensures { OnOpen handle.old.slot.held handle.new.slot.held result ⊤
        (λ old new. Unless (ask_refusal old) old new result (new ≡ asked_at second old)) }
{
    let Some(mut driven) = handle.take(alloc) else {
        return Refusal::Closed.number();
    };
    let outcome = driven.ask(alloc, second);
    handle.hold(driven);
    status(outcome)
}

/// Shows the call that was asked for, as often as wanted: lays its bytes into `out`, which are its name and then its second name or what it
/// adds, and sets `shown`, and `length` to how many bytes they are. The job stays as it is.
///
/// Refused `Closed`, `NotAsked` and out of memory, with all three as they were; and `Room`, with `shown` and `length` set.
#[unsafe(no_mangle)]
pub extern "C" fn md_ffi_driven_request(
    alloc: Global,
    handle: &mut DrivenHandle,
    shown: &mut RequestShown,
    out: &mut [u8],
    length: &mut usize,
) -> u32
    ensures same { handle.new.slot.held ≡ handle.old.slot.held }
    ensures shown { OnOpen handle.old.slot.held handle.new.slot.held result
        ((shown.new ≡ shown.old) × (out.new ≡ out.old) × (length.new ≡ length.old))
        (λ job _. LaysAsked (requested job) shown.old shown.new out.old out.new length.old length.new result) }
{
    let Some(driven) = handle.take(alloc) else {
        return Refusal::Closed.number();
    };
    let outcome = driven.show(alloc, shown, out, length);
    handle.hold(driven);
    status(outcome)
}

/// Tells the job one row of the reading that it asked for: a name, and the stamp in seconds and the size in bytes of its file. Rows play no
/// part in any other call. Refused `Closed`, `NotAsked`, and out of memory. The job is as it was then.
#[unsafe(no_mangle)]
pub extern "C" fn md_ffi_driven_row(
    alloc: Global,
    handle: &mut DrivenHandle,
    name: &[u8],
    stamp: u64,
    size: u64,
) -> u32
    ensures { OnOpen handle.old.slot.held handle.new.slot.held result ⊤
        (λ old new. Goes (hear_refusal old) old new result (new ≡ with_row (record { name = name.now; stamp = stamp; size = size }) old)) }
{
    let Some(mut driven) = handle.take(alloc) else {
        return Refusal::Closed.number();
    };
    let outcome = driven.hear(alloc, name, stamp, size);
    handle.hold(driven);
    status(outcome)
}

/// Tells the job what was replied to the call that it asked for: the job goes on by that and by the rows that it was told, and `step` shows
/// what this came to.
///
/// Refused `Closed`; `BadReply`, of a number that is no reply's; `NotAsked`; and out of memory, where the reply is still waited for. Then
/// the job is as it was, and so is `step`.
#[unsafe(no_mangle)]
pub extern "C" fn md_ffi_driven_take(
    alloc: Global,
    handle: &mut DrivenHandle,
    reply: u32,
    step: &mut StepShown,
) -> u32
    ensures { OnOpen handle.old.slot.held handle.new.slot.held result (step.new ≡ step.old)
        (λ old new. TakesOr (reply_at reply) old new step.old step.new result) }
{
    let Some(mut driven) = handle.take(alloc) else {
        return Refusal::Closed.number();
    };
    let Some(replied) = reply_of(reply) else {
        handle.hold(driven);
        return Refusal::BadReply.number();
    };
    let taken = driven.take(alloc, replied);
    handle.hold(driven);
    match taken {
        Ok(out) => {
            *step = StepShown::of(out);
            0
        }
        Err(refusal) => refusal.number(),
    }
}

/// The answer of the job, if it has one. Refused `Closed`, with `answer` as it was.
#[unsafe(no_mangle)]
pub extern "C" fn md_ffi_driven_answer(
    alloc: Global,
    handle: &mut DrivenHandle,
    answer: &mut AnswerShown,
) -> u32
    ensures same { handle.new.slot.held ≡ handle.old.slot.held }
    ensures answer { OnOpen handle.old.slot.held handle.new.slot.held result (answer.new ≡ answer.old)
        (λ job _. (result ≡ 0) × (answer.new ≡ answer_shown (answer_of (Some job.standing)))) }
{
    let Some(driven) = handle.take(alloc) else {
        return Refusal::Closed.number();
    };
    *answer = AnswerShown::of(driven.answer());
    handle.hold(driven);
    0
}

/// Closes a handle, and lets go what it held. Refused `Closed` where it is closed.
#[unsafe(no_mangle)]
pub extern "C" fn md_ffi_driven_free(alloc: Global, handle: &mut DrivenHandle) -> u32
    ensures closed { handle.new.slot.held ≡ None }
    ensures status { result ≡ free_number handle.old.slot.held }
{
    match handle.take(alloc) {
        Some(_driven) => 0,
        None => Refusal::Closed.number(),
    }
}
