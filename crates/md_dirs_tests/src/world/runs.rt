//! Runs of events, and a call that comes back.
use super::scene::{Failing, Scene, plays};
use super::{NOW, has_names, letter, submitted};
use md_core::{Answer, Call, CallError, Change, CoreError, Effect, Event, RunStop};
use md_dirs::Place;
use std::alloc::Global;

// A step of job 1, by the clock.
const EVENT: Event = Event {
    job: 1,
    now: 1000,
    own: None,
};

static EVENTS: [Event; 6] = [EVENT; 6];

fn is_delivery(effect: &Effect) -> bool {
    let is_add = match &effect.change {
        Change::Add {
            folder,
            place: Place::New,
            name,
            size,
        } => *folder == 0 && name.as_slice() == b"u".as_slice() && *size == 6,
        _ => false,
    };
    effect.job == 1 && effect.answer == Answer::Delivered && is_add
}

fn is_one_delivery(effects: &[Effect]) -> bool {
    effects.len() == 1 && is_delivery(&effects[0])
}

// Whether a world has taken the five steps of its delivery.
fn has_run(world: &Failing) -> bool {
    world.log() == &EVENTS[..5]
        && is_one_delivery(world.effects())
        && has_names(world, Place::New, "u")
        && has_names(world, Place::Tmp, "")
        && world.jobs() == 1
        && world.folders() == 1
}

// Whether a run is refused at its sixth event. A step that lacks memory leaves the log, the effects and the answer: the fourth is the effect.
fn is_stopped(world: &Failing, stop: RunStop) -> Result<bool, CoreError> {
    let is_kept = world.log().len() == stop.at && world.effects().len() == usize::from(stop.at > 3);
    match stop.error {
        CoreError::Answered => Ok(is_kept && stop.at == 5 && has_run(world)),
        CoreError::NoMemory if is_kept && world.answer(1).is_none() => Err(CoreError::NoMemory),
        _ => Ok(false),
    }
}

/// A run of so many events of one delivery stops at the sixth.
pub(super) fn stops(alloc: Global, world: &mut Failing, count: usize) -> Result<bool, CoreError> {
    submitted(world, letter(alloc, 0, "u")?)?;
    let is_whole = count == 5;
    match world.run(if is_whole { &EVENTS[..5] } else { &EVENTS }) {
        Ok(()) => Ok(is_whole && has_run(world)),
        Err(stop) => Ok(is_stopped(world, stop)? && !is_whole),
    }
}

#[test]
fn a_run_stops_at_its_first_refusal(rt: HostRuntime) {
    plays(&rt, rt.alloc(), Scene::Run(5));
    plays(&rt, rt.alloc(), Scene::Run(6));
}

// Whether a call is in its refusal, as it was made.
fn is_given_back(error: &CallError) -> bool {
    match error {
        CallError::Refused(refused) => {
            refused.error == CoreError::NoFolder
                && matches!(
                    refused.call,
                    Call::Deliver {
                        folder: 2,
                        chunk: 4,
                        ..
                    }
                )
        }
        CallError::NoMemory { .. } => false,
    }
}

/// A call that is refused, and comes back.
pub(super) fn gives_back(alloc: Global, world: &mut Failing) -> Result<bool, CoreError> {
    let is_back = match world.call(letter(alloc, 2, "u")?, NOW, None).err() {
        Some(error) => is_given_back(&error),
        None => false,
    };
    Ok(is_back && world.jobs() == 0 && world.log().is_empty())
}

#[test]
fn a_refused_call_comes_back(rt: HostRuntime) {
    plays(&rt, rt.alloc(), Scene::Refused);
}
