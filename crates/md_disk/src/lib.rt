//! Maildirs on a disk, as a system on which `md_system` runs jobs.
#![tactic(auto)]

mod calls;
mod cause;
mod checking;
mod disk;
mod error;
mod listing;
mod maildir;
mod message;
mod names;
mod naming;
mod paths;
mod reading;

pub use calls::Calls;
pub use cause::Cause;
pub use checking::check_folders;
pub use disk::Disk;
pub use listing::list_folder;
pub use maildir::{has_cur, is_maildir, make_maildir};
pub use naming::{Namer, host_name};
pub use paths::Folders;
