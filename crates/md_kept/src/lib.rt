//! The directories that programs share, as a history leaves them, in tables: which file each path names, what is kept of files, messages
//! and paths of tmp, and what a call does to them.
#![tactic(auto)]

mod change;
mod directory;
mod drafts;
mod few;
mod files;
mod messages;
mod paths;
mod replies;
mod table;

pub use change::{Change, Named, is_cur, is_message, is_new, is_tmp, message_of};
pub use directory::Directory;
pub use drafts::Drafts;
pub use files::Files;
pub use messages::Messages;
pub use paths::{Paths, number_of};
pub use table::{Table, Taken};
