//! What one turn of a job gave.
ghost use Rattle.std.specs.Prelude.{◌≡◌, ◌<◌, ◌++◌, ◌∷◌, [], vec_len, vec_capacity, IfOk, IfErr, OnErr, Some, None, false, true};
ghost use Rattle.md_jobs.specs.Turn.{reply_from};

use crate::answer::Answer;
use crate::effect::Effect;
use crate::error::CoreError;
use crate::snapshot::Snapshot;
use crate::step::{DirCall, DirReply, StepOut};
use md_dirs::DirError;

/// What a turn shows, and for contracts alone the effect, where it was one. The effect itself goes to the effects so far, so that it is
/// moved once.
#[derive(Drop)]
pub struct Turned {
    pub out: StepOut,
    pub effect: Snapshot<Option<Effect>>,
}

impl Turned {
    /// A turn that is no effect.
    pub(crate) fn plain(call: DirCall, reply: DirReply, answer: Option<Answer>) -> Turned
        ensures out { result.out ≡ record { call = call; reply = reply; answer = answer; effect = false } }
        ensures effect { result.effect.value ≡ None }
    {
        let out = StepOut {
            call,
            reply,
            answer,
            effect: false,
        };
        Turned {
            out,
            effect: Snapshot::of(&None),
        }
    }

    /// A turn that is the effect of a job which goes on, or ends with this answer. There is room for the effect.
    pub(crate) fn acted(
        call: DirCall,
        reply: DirReply,
        answer: Option<Answer>,
        effect: Effect,
        effects: &mut Vec<Effect>,
    ) -> Turned
        requires { vec_len effects.old < vec_capacity effects.old }
        ensures out { result.out ≡ record { call = call; reply = reply; answer = answer; effect = true } }
        ensures effect { result.effect.value ≡ Some effect }
        ensures pushed { effects.new.items ≡ effects.old.items ++ effect ∷ [] }
    {
        let out = StepOut {
            call,
            reply,
            answer,
            effect: true,
        };
        let effect = Some(effect);
        let snapshot = Snapshot::of(&effect);
        if let Some(effect) = effect {
            effects.push_reserved(effect);
        }
        Turned {
            out,
            effect: snapshot,
        }
    }
}

/// What the directories answered. Out of memory is handed on: no step was taken.
pub(crate) fn reply_of(answer: Result<(), DirError>) -> Result<DirReply, CoreError>
    ensures ok { IfOk result (λ reply. reply_from answer ≡ Some reply) }
    ensures err { IfErr result (λ e. e ≡ CoreError.NoMemory) }
    ensures no_memory { OnErr result (answer ≡ Err DirError.NoMemory) }
{
    match answer {
        Ok(()) => Ok(DirReply::Ok),
        Err(DirError::Exists) => Ok(DirReply::Exists),
        Err(DirError::NotFound) => Ok(DirReply::NotFound),
        Err(DirError::Fault) => Ok(DirReply::Fault),
        Err(DirError::NoMemory) => Err(CoreError::NoMemory),
    }
}
