//! What errors print.
use super::scene::{Scene, plays};
use CoreError::{
    Answered, BadChunk, BadName, BadTries, BadUnique, BodyTooLong, DuplicateUnique, LongUnique,
    NameUsed, NoFolder, NoJob, NoMemory, SameFolder, TooManyJobs,
};
use md_core::{Call, CallError, CoreError, SubmitRefused, Unanswered};
use std::alloc::Global;

static ERRORS: [CoreError; 14] = [
    BadName,
    LongUnique,
    DuplicateUnique,
    NameUsed,
    NoFolder,
    SameFolder,
    BadUnique,
    BadTries,
    BadChunk,
    TooManyJobs,
    BodyTooLong,
    NoJob,
    Answered,
    NoMemory,
];

static TEXTS: &str = "bad name
long unique
duplicate unique
name used
no folder
same folder
bad unique
bad tries
bad chunk
too many jobs
body too long
no job
answered
no memory
";

/// Whether each error prints its line.
pub(super) fn are_told(alloc: Global) -> Result<bool, CoreError> {
    let mut texts = String::new(alloc);
    for error in &ERRORS {
        texts.push_str(format!(in alloc; "{error}\n")?.as_str())?;
    }
    Ok(texts.as_str() == TEXTS)
}

/// Whether refused settles and calls have their texts.
pub(super) fn refusals_are_told(alloc: Global) -> Result<bool, CoreError> {
    let settle = Unanswered(12);
    let lack = CallError::NoMemory { job: 7 };
    let refused = CallError::Refused(SubmitRefused {
        error: NoFolder,
        call: Call::Clean { folder: 2 },
    });
    let texts = format!(in alloc; "{settle}, {lack}, {refused}")?;
    Ok(texts.as_str() == "job 12 has no answer, no memory amid the steps of job 7, no folder")
}

#[test]
fn errors_have_their_texts(rt: HostRuntime) {
    plays(&rt, rt.alloc(), Scene::Texts);
    plays(&rt, rt.alloc(), Scene::Refusals);
}
