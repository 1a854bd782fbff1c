//! What C sees of answers and steps.
ghost use Rattle.std.specs.Prelude.{◌≡◌};
ghost use Rattle.md_dirs.specs.Path.{place_index};
ghost use Rattle.md_driven.specs.Shown.{answer_shown, call_number, call_value, place_at, reply_at, reply_number, step_shown};

use md_core::{Answer, DirCall, DirReply, StepOut};
use md_dirs::Place;

/// How a job ended: a number, 0 for no answer yet, and the flags or the count that the answer has, else 0.
#[repr(C)]
#[derive(Clone, Copy)]
pub struct AnswerShown {
    pub kind: u64,
    pub value: u64,
}

/// What a step did.
#[repr(C)]
#[derive(Clone, Copy)]
pub struct StepShown {
    pub call: u32,
    pub reply: u32,
    /// The bytes of an append, or the place of a listing, else 0.
    pub value: u64,
    /// 1 where the step is its job's effect, else 0.
    pub effect: u64,
    pub answer: AnswerShown,
}

/// The number of a place.
pub fn place_number(place: Place) -> u32
    ensures { result ≡ place_index place }
{
    match place {
        Place::Tmp => 0,
        Place::New => 1,
        Place::Cur => 2,
    }
}

/// The place of a number, if it is one's.
pub fn place_of(number: u32) -> Option<Place>
    ensures { result ≡ place_at number }
{
    match number {
        0 => Some(Place::Tmp),
        1 => Some(Place::New),
        2 => Some(Place::Cur),
        _ => None,
    }
}

impl AnswerShown {
    /// What is shown of an answer, or that there is none yet.
    pub fn of(answer: Option<Answer>) -> AnswerShown
        ensures { result ≡ answer_shown answer }
    {
        let Some(answer) = answer else {
            return AnswerShown { kind: 0, value: 0 };
        };
        let (kind, value) = match answer {
            Answer::Delivered => (1, 0),
            Answer::Flags(flags) => (2, flags.bits()),
            Answer::Moved => (3, 0),
            Answer::Expunged => (4, 0),
            Answer::Copied => (5, 0),
            Answer::Cleaned(count) => (6, count),
            Answer::NotThere => (7, 0),
            Answer::NotTrashed => (8, 0),
            Answer::OtherInfo => (9, 0),
            Answer::Lost => (10, 0),
            Answer::TimedOut => (11, 0),
            Answer::TmpGone => (12, 0),
            Answer::NameTaken => (13, 0),
            Answer::Fault => (14, 0),
        };
        AnswerShown { kind, value }
    }
}

fn call_shown(call: DirCall) -> (u32, u64)
    ensures { (result.0 ≡ call_number call) × (result.1 ≡ call_value call) }
{
    match call {
        DirCall::Create => (1, 0),
        DirCall::Append(count) => (2, count),
        DirCall::Link => (3, 0),
        DirCall::Rename => (4, 0),
        DirCall::Unlink => (5, 0),
        DirCall::List(place) => (6, place_number(place) as u64),
    }
}

fn reply_shown(reply: DirReply) -> u32
    ensures { result ≡ reply_number reply }
{
    match reply {
        DirReply::Ok => 1,
        DirReply::Exists => 2,
        DirReply::NotFound => 3,
        DirReply::Fault => 4,
    }
}

/// The reply of a number, if it is one's.
pub fn reply_of(number: u32) -> Option<DirReply>
    ensures { result ≡ reply_at number }
{
    match number {
        1 => Some(DirReply::Ok),
        2 => Some(DirReply::Exists),
        3 => Some(DirReply::NotFound),
        4 => Some(DirReply::Fault),
        _ => None,
    }
}

impl StepShown {
    /// What is shown of a step.
    pub fn of(step: StepOut) -> StepShown
        ensures { result ≡ step_shown step }
    {
        let (call, value) = call_shown(step.call);
        StepShown {
            call,
            reply: reply_shown(step.reply),
            value,
            effect: u64::from(step.effect),
            answer: AnswerShown::of(step.answer),
        }
    }
}
