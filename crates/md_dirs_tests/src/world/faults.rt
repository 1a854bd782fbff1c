//! Calls over directories of which one call fails, by their steps and in one.
use super::scene::{Failing, Scene, plays};
use super::{NOW, called, has_names, letter, submitted};
use DirCall::{Append, Create, Link, List, Rename, Unlink};
use md_core::Answer::{Cleaned, Delivered};
use md_core::{Answer, Call, CoreError, DirCall, DirReply};
use md_dirs::Place::{Cur, New, Tmp};
use md_dirs::{Bytes, Place};
use md_name::Flags;
use std::alloc::{AllocError, Global};
use std::process::Abort;

/// What is done over directories of which one call fails.
#[derive(Clone, Copy, PartialEq, Eq)]
pub(super) enum Act {
    Deliver,
    Flag,
    Clean,
}

// A call of an act, where the call at a number fails, and whether it is this one.
type Made = (Act, u64, DirCall, DirReply);

const DELIVER: Act = Act::Deliver;

const DONE: DirReply = DirReply::Ok;

const FAULT: DirReply = DirReply::Fault;

// The calls of each act where its first, second, .. call fails, and at last where none does.
static CALLS: [Made; 37] = [
    (DELIVER, 1, Create, FAULT),
    (DELIVER, 2, Create, DONE),
    (DELIVER, 2, Append(4), FAULT),
    (DELIVER, 2, Unlink, DONE),
    (DELIVER, 3, Create, DONE),
    (DELIVER, 3, Append(4), DONE),
    (DELIVER, 3, Append(2), FAULT),
    (DELIVER, 3, Unlink, DONE),
    (DELIVER, 4, Create, DONE),
    (DELIVER, 4, Append(4), DONE),
    (DELIVER, 4, Append(2), DONE),
    (DELIVER, 4, Link, FAULT),
    (DELIVER, 4, Unlink, DONE),
    (DELIVER, 5, Create, DONE),
    (DELIVER, 5, Append(4), DONE),
    (DELIVER, 5, Append(2), DONE),
    (DELIVER, 5, Link, DONE),
    (DELIVER, 5, Unlink, FAULT),
    (DELIVER, 6, Create, DONE),
    (DELIVER, 6, Append(4), DONE),
    (DELIVER, 6, Append(2), DONE),
    (DELIVER, 6, Link, DONE),
    (DELIVER, 6, Unlink, DONE),
    (Act::Flag, 1, List(Cur), FAULT),
    (Act::Flag, 2, List(Cur), DONE),
    (Act::Flag, 2, Rename, FAULT),
    (Act::Flag, 3, List(Cur), DONE),
    (Act::Flag, 3, Rename, DONE),
    (Act::Clean, 1, List(Tmp), FAULT),
    (Act::Clean, 2, List(Tmp), DONE),
    (Act::Clean, 2, Unlink, FAULT),
    (Act::Clean, 3, List(Tmp), DONE),
    (Act::Clean, 3, Unlink, DONE),
    (Act::Clean, 3, Unlink, FAULT),
    (Act::Clean, 4, List(Tmp), DONE),
    (Act::Clean, 4, Unlink, DONE),
    (Act::Clean, 4, Unlink, DONE),
];

// What an act is answered, how many effects it has, and the names that it leaves in tmp, new and cur. The name in new makes a delivery one;
// what a clean removed before a fault stays removed.
type End = (Answer, usize, &'static str, &'static str, &'static str);

fn end(act: Act, at: u64) -> End {
    match (act, at) {
        (Act::Deliver, 5) => (Delivered, 1, "u", "u", ""),
        (Act::Deliver, 6) => (Delivered, 1, "", "u", ""),
        (Act::Deliver, _) => (Answer::Fault, 0, "", "", ""),
        (Act::Flag, 3) => (Answer::Flags(Flags::empty()), 1, "", "", "u:2,"),
        (Act::Flag, _) => (Answer::Fault, 0, "", "", "u:2,S"),
        (Act::Clean, 4) => (Cleaned(2), 0, "", "", ""),
        (Act::Clean, 3) => (Answer::Fault, 0, "y", "", ""),
        (Act::Clean, _) => (Answer::Fault, 0, "x y", "", ""),
    }
}

// The call of an act. The flag change takes S away.
fn call_of(alloc: Global, act: Act) -> Result<Call, AllocError> {
    match act {
        Act::Deliver => letter(alloc, 0, "u"),
        Act::Flag => Ok(Call::Flag {
            folder: 0,
            unique: Bytes::copied(alloc, b"u")?,
            add: Flags::empty(),
            remove: Flags::parse(b"S").unwrap_or(Flags::empty()),
            tries: 1,
        }),
        Act::Clean => Ok(Call::Clean { folder: 0 }),
    }
}

// The answer of job 1, whose steps are to make these calls and get these replies.
fn stepped(world: &mut Failing, act: Act, at: u64) -> Result<Option<Answer>, CoreError> {
    for (made, number, call, reply) in &CALLS {
        if *made == act && *number == at {
            let out = world.step(1, NOW, None)?;
            if out.call != *call || out.reply != *reply {
                return Ok(None);
            }
        }
    }
    Ok(world.answer(1))
}

fn answered(
    alloc: Global,
    world: &mut Failing,
    act: Act,
    at: u64,
    is_called: bool,
) -> Result<Option<Answer>, CoreError> {
    let call = call_of(alloc, act)?;
    if is_called {
        return Ok(Some(called(world, call, NOW)?));
    }
    submitted(world, call)?;
    stepped(world, act, at)
}

// After a call that ended in a fault the next one is answered as ever.
fn goes_on(alloc: Global, world: &mut Failing) -> Result<bool, CoreError> {
    let jobs = world.jobs();
    let answer = called(world, letter(alloc, 0, "v")?, NOW)?;
    Ok(jobs == 1 && answer == Delivered && has_names(world, Place::New, "v"))
}

/// Whether an act, in one call or by its steps, is answered as it should be, and leaves these names.
pub(super) fn acts(
    alloc: Global,
    world: &mut Failing,
    act: Act,
    at: u64,
    is_called: bool,
) -> Result<bool, CoreError> {
    let (answer, effects, tmp, new, cur) = end(act, at);
    let is_right = answered(alloc, world, act, at, is_called)? == Some(answer)
        && has_names(world, Tmp, tmp)
        && has_names(world, New, new)
        && has_names(world, Cur, cur)
        && world.effects().len() == effects;
    if answer == Answer::Fault {
        return Ok(is_right && goes_on(alloc, world)?);
    }
    Ok(is_right)
}

// Plays an act where its first, second, .. call fails, and at last where none does.
fn acts_up_to(rt: &impl Abort, alloc: Global, act: Act, most: u64) {
    for at in 1..=most {
        plays(rt, alloc, Scene::Steps(act, at));
        plays(rt, alloc, Scene::Call(act, at));
    }
}

#[test]
fn a_fault_undoes_a_delivery_or_leaves_it_delivered(rt: HostRuntime) {
    acts_up_to(&rt, rt.alloc(), Act::Deliver, 6);
}

#[test]
fn a_fault_leaves_the_flags(rt: HostRuntime) {
    acts_up_to(&rt, rt.alloc(), Act::Flag, 3);
}

#[test]
fn a_fault_ends_a_clean(rt: HostRuntime) {
    acts_up_to(&rt, rt.alloc(), Act::Clean, 4);
}

#[test]
fn a_fault_alone_is_a_fault(rt: HostRuntime) {
    assert!(rt;
        DirReply::Fault.is_fault()
            && !DirReply::Ok.is_fault()
            && !DirReply::Exists.is_fault()
            && !DirReply::NotFound.is_fault()
    );
}
