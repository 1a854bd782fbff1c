//! The names of the files of a maildir.
//!
//! A name in `new` or `cur` is a unique name and, after a colon, the info: `1000.M5P7Q1.host:2,FS` is
//! the message `1000.M5P7Q1.host`, flagged and seen. This crate reads such names, writes them, makes
//! unique names for new messages, and keeps the flags of a message as a set of letters in one word.
//! The rules are those of maildir(5) of qmail and of "Using maildir format".
#![tactic(auto)]

pub mod blocks;
mod bytes;
mod error;
mod file_name;
mod flags;
mod info;
pub mod laws;
mod short;
mod unique;

pub use bytes::Bytes;
pub use error::NameError;
pub use file_name::FileName;
pub use flags::Flags;
pub use info::{Info, colon_after, first_colon, is_message, split, unique_part, with_flags};
pub use short::Short;
pub use unique::{UniqueParts, holds_separator, holds_terminator, is_unique_name, make_unique};
