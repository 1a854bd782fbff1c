//! Old files of tmp, taken away.
use crate::boxes::maildirs;
use crate::causes::{failure_caused, refused, trouble_of};
use md_command::{Failure, Host, Session, Status};
use md_system::clean;

/// Takes away files of tmp that were not used for 36 hours ("Using maildir format"). Refused where there is no such maildir, and as the
/// clean of `md_system` is answered.
pub fn cleaned<R: Host>(session: &Session<'_, R>, maildir: &str) -> Result<Status, Failure> {
    let mut disk = maildirs(session, &[maildir])?;
    match trouble_of(clean(session.alloc, &mut disk, 0).map_err(refused)?) {
        None => Ok(Status::Done),
        Some(trouble) => Err(failure_caused(session.alloc, trouble, disk.system.cause())),
    }
}
