//! Why a job on a disk has not done what it was for.
ghost use Rattle.std.specs.Prelude.{◌≡◌};
ghost use Rattle.md_maildirs.specs.Causes.{trouble_of as trouble_by, trouble_caused as caused_by, trouble_of_refusal, trouble_told as told_by, errand_told};
ghost use Rattle.md_command.specs.Failures.{failed};

use md_command::{Failure, Trouble};
use md_disk::Cause;
use md_jobs::{Answer, CoreError};
use std::alloc::Global;
use std::io::ErrorKind;

/// Why a job that ended with this answer has not done what it was for, if it has not.
pub(crate) fn trouble_of(answer: Answer) -> Option<Trouble>
    ensures { result ≡ trouble_by answer }
{
    match answer {
        Answer::Delivered
        | Answer::Flags(_)
        | Answer::Moved
        | Answer::Expunged
        | Answer::Copied
        | Answer::Cleaned(_) => None,
        Answer::NotThere => Some(Trouble::NotThere),
        Answer::NotTrashed => Some(Trouble::NotTrashed),
        Answer::OtherInfo => Some(Trouble::OtherInfo),
        Answer::Lost => Some(Trouble::Lost),
        Answer::TimedOut => Some(Trouble::TimedOut),
        Answer::TmpGone => Some(Trouble::TmpGone),
        Answer::NameTaken => Some(Trouble::NameTaken),
        Answer::Fault => Some(Trouble::Fault),
    }
}

/// Why a job was not run. They are refused only when out of memory.
pub(crate) fn refused(error: CoreError) -> Failure
    ensures { result ≡ failed (trouble_of_refusal error) }
{
    match error {
        CoreError::NoMemory => Failure::from(Trouble::NoMemory),
        _ => Failure::from(Trouble::Fault),
    }
}

/// What a cause of the system is to a command. Any other is a call that failed.
pub(crate) fn trouble_caused(cause: Cause) -> Trouble
    ensures { result ≡ caused_by cause }
{
    match cause {
        Cause::System(ErrorKind::PermissionDenied) => Trouble::NoRights,
        Cause::System(ErrorKind::OutOfMemory) => Trouble::NoMemory,
        Cause::NotText => Trouble::NotText,
        Cause::NotAFile => Trouble::NotAFile,
        Cause::TwoNames => Trouble::TwoNames,
        Cause::NoDirectory => Trouble::NoMaildir,
        Cause::NoMessage => Trouble::NotThere,
        Cause::NameTaken => Trouble::NameTaken,
        Cause::Lost => Trouble::Lost,
        _ => Trouble::Fault,
    }
}

/// The trouble of a job on a disk: a fault is its cause.
pub(crate) fn trouble_told(trouble: Trouble, cause: Option<Cause>) -> Trouble
    ensures { result ≡ told_by trouble cause }
{
    match (trouble, cause) {
        (Trouble::Fault, Some(cause)) => trouble_caused(cause),
        _ => trouble,
    }
}

/// The trouble of a job on a disk, of which a fault is its cause: by name where the cause has one, and else with what the system said.
pub(crate) fn failure_caused(alloc: Global, trouble: Trouble, cause: Option<Cause>) -> Failure
    ensures { result.trouble ≡ told_by trouble cause }
{
    let told = trouble_told(trouble, cause);
    let said = match (told, cause) {
        (Trouble::Fault, Some(cause)) => format!(in alloc; "{cause}").ok(),
        _ => None,
    };
    Failure {
        trouble: told,
        cause: said,
        path: None,
    }
}

/// The same of an errand, which never gets a message to another file system, however often it is tried.
pub(crate) fn errand_failure(alloc: Global, trouble: Trouble, cause: Option<Cause>) -> Failure
    ensures { result.trouble ≡ errand_told trouble cause }
{
    match (trouble, cause) {
        (Trouble::Fault, Some(Cause::System(ErrorKind::CrossesDevices))) => {
            Failure::from(Trouble::OtherSystem)
        }
        _ => failure_caused(alloc, trouble, cause),
    }
}
