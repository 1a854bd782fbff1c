//! Many calls in one.
ghost use Rattle.std.specs.Prelude.{◌≡◌, ◌+◌, ◌≤◌, ◌<◌, Ok, Err, IfOk, MatchResult, length};
ghost use Rattle.md_ffi.specs.Doing.{OnHeld};
ghost use Rattle.md_ffi.specs.Records.{asked_in, cut, eight_at, four_at, record_in, recorded, CallsAll};
ghost use Rattle.md_driven.specs.declared.refusal.Refusal.TheVariants.{BadRecord};

use crate::asked::{Asked, Brought};
use crate::handle::Handle;
use crate::jobs::call;
use md_core::World;
use md_dirs::IndexDirs;
use md_driven::{AnswerShown, Refusal};
use std::alloc::Global;

// A record: what is asked, the bytes that it brings, and what follows it.
#[derive(Clone, Copy)]
struct Record<'a> {
    asked: Asked,
    brought: Brought<'a>,
    rest: &'a [u8],
}

/// The first bytes, so many, and the rest.
pub(crate) fn cut(bytes: &[u8], count: u64) -> Result<(&[u8], &[u8]), Refusal>
    ensures cut { MatchResult result
        (λ parts. cut count bytes.now ≡ Ok (parts.0.now, parts.1.now))
        (λ e. (cut count bytes.now ≡ Err BadRecord) × (e ≡ BadRecord)) }
    ensures count { IfOk result (λ parts. length parts.0.now ≡ count) }
    ensures all { IfOk result (λ parts. length parts.0.now + length parts.1.now ≡ length bytes.now) }
{
    if count > bytes.len() as u64 {
        return Err(Refusal::BadRecord);
    }
    Ok(bytes.split_at(count as usize))
}

/// The number in 4 bytes at a place.
pub(crate) fn four_at(bytes: &[u8], at: usize) -> u32
    requires { at + 4 ≤ length bytes.now }
    ensures { result ≡ four_at at bytes.now }
{
    let (front, _rest) = bytes[at..].split_first_chunk::<4>().unwrap();
    u32::from_le_bytes(*front)
}

/// The number in 8 bytes at a place.
pub(crate) fn eight_at(bytes: &[u8], at: usize) -> u64
    requires { at + 8 ≤ length bytes.now }
    ensures { result ≡ eight_at at bytes.now }
{
    let (front, _rest) = bytes[at..].split_first_chunk::<8>().unwrap();
    u64::from_le_bytes(*front)
}

// What a record's head asks.
fn asked_in(head: &[u8]) -> Asked
    requires { 48 ≤ length head.now }
    ensures { result ≡ asked_in head.now }
{
    Asked {
        kind: four_at(head, 0),
        folder: four_at(head, 4),
        to: four_at(head, 8),
        reserved: 0,
        number: eight_at(head, 40),
    }
}

// The first record of bytes.
#[tactic(auto, unfolding(crate::specs::Records::record_in))]
fn read_record(bytes: &[u8]) -> Result<Record<'_>, Refusal>
    ensures record { MatchResult result
        (λ r. record_in bytes.now ≡ Ok (recorded r.asked r.brought.unique.now r.brought.first.now r.brought.second.now r.rest.now))
        (λ e. (record_in bytes.now ≡ Err BadRecord) × (e ≡ BadRecord)) }
    ensures shorter { IfOk result (λ r. length r.rest.now < length bytes.now) }
{
    let (head, rest) = cut(bytes, 48)?;
    let (unique, rest) = cut(rest, eight_at(head, 16))?;
    let (first, rest) = cut(rest, eight_at(head, 24))?;
    let (second, rest) = cut(rest, eight_at(head, 32))?;
    let brought = Brought {
        unique,
        first,
        second,
    };
    Ok(Record {
        asked: asked_in(head),
        brought,
        rest,
    })
}

// Makes the calls of records until one has no answer, and says how many have one.
fn run(
    alloc: Global,
    world: &mut World<IndexDirs>,
    records: &[u8],
    now: u64,
    answers: &mut [AnswerShown],
    done: &mut usize,
) -> u32
    ensures { CallsAll now records.now world.old world.new answers.old answers.new done.new result }
{
    *done = 0;
    let mut left = records;
    while !left.is_empty() {
        if *done == answers.len() {
            return Refusal::Room.number();
        }
        let next = match read_record(left) {
            Ok(record) => record,
            Err(refusal) => return refusal.number(),
        };
        match call(alloc, world, &next.asked, next.brought, now, None) {
            Ok(answer) => answers[*done] = AnswerShown::of(Some(answer)),
            Err(unanswered) => return unanswered.number(),
        }
        *done += 1;
        left = next.rest;
    }
    0
}

/// Makes the calls of records, each as `md_ffi_call` does, at one moment in seconds, until one has no answer or none is left. `done` is set
/// to how many have one, and each of these has its answer in `answers`, whose rest is as it was.
///
/// Refused `Closed`, with `done` 0; `Room` where a record is left and `answers` is full; `BadRecord` where what is left is no whole record;
/// and as `md_ffi_call`, which leaves the world as it was before that call, or that call's job without its answer.
#[unsafe(no_mangle)]
pub extern "C" fn md_ffi_calls(
    alloc: Global,
    handle: &mut Handle,
    records: &[u8],
    now: u64,
    answers: &mut [AnswerShown],
    done: &mut usize,
) -> u32
    ensures { OnHeld handle.old.slot.held handle.new.slot.held result ((done.new ≡ 0) × (answers.new ≡ answers.old))
        (λ old new. CallsAll now records.now old new answers.old answers.new done.new result) }
{
    *done = 0;
    let Some(mut held) = handle.take(alloc) else {
        return Refusal::Closed.number();
    };
    let status = run(alloc, &mut held.world, records, now, answers, done);
    handle.hold(held);
    status
}
