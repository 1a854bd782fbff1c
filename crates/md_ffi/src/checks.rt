//! What is checked of a call that a caller drives: what a world checks, but for what only its directories and its log tell.
ghost use Rattle.std.specs.Prelude.{◌≡◌};
ghost use Rattle.md_ffi.specs.Beginning.{alone_refusal, delivery_refusal, look_up_refusal};
ghost use Rattle.md_core.specs.Submitting.{bad_tries};

use md_core::{Call, CoreError};
use md_name::is_unique_name;

/// The most tries of a call.
const MOST_TRIES: u64 = 16;

fn is_bad_tries(tries: u64) -> bool
    ensures { result ≡ bad_tries tries }
{
    tries == 0 || tries > MOST_TRIES
}

// Why a call is refused that looks for one message.
fn refusal_of_look_up(unique: &[u8], tries: u64) -> Option<CoreError>
    ensures { result ≡ look_up_refusal unique.now tries }
{
    if !is_unique_name(unique) {
        return Some(CoreError::BadUnique);
    }
    is_bad_tries(tries).then_some(CoreError::BadTries)
}

// Why a delivery is refused.
fn refusal_of_delivery(unique: &[u8], chunk: u64) -> Option<CoreError>
    ensures { result ≡ delivery_refusal unique.now chunk }
{
    if !is_unique_name(unique) {
        return Some(CoreError::BadUnique);
    }
    (chunk == 0).then_some(CoreError::BadChunk)
}

/// Why a call is refused, if it is.
pub(crate) fn refusal_alone(call: &Call) -> Option<CoreError>
    ensures { result ≡ alone_refusal call.now }
{
    match call {
        Call::Deliver { unique, chunk, .. } => refusal_of_delivery(unique.as_slice(), *chunk),
        Call::Seen { unique, tries, .. }
        | Call::Flag { unique, tries, .. }
        | Call::Expunge { unique, tries, .. } => refusal_of_look_up(unique.as_slice(), *tries),
        Call::Move {
            folder,
            unique,
            to,
            tries,
        } => {
            if to == folder {
                return Some(CoreError::SameFolder);
            }
            refusal_of_look_up(unique.as_slice(), *tries)
        }
        Call::Copy {
            unique,
            fresh,
            tries,
            ..
        } => {
            if !is_unique_name(fresh.as_slice()) {
                return Some(CoreError::BadUnique);
            }
            refusal_of_look_up(unique.as_slice(), *tries)
        }
        Call::Clean { .. } => None,
    }
}
