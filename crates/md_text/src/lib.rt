//! What a line of text is made of, in scripts and in logs: words, numbers, flags, escapes, and the names of folders and of a maildir's
//! directories.
//!
//! Where a word isn't what is asked for, nothing is read; each language says for itself how it refuses the line.
#![tactic(auto)]

mod escapes;
mod flags;
mod folders;
mod numbers;
mod places;
mod words;

pub use escapes::{push_escaped, unescape};
pub use flags::flags_from;
pub use folders::Folders;
pub use numbers::{number, short_number};
pub use places::{place_from, place_text};
pub use words::{Rest, cut, is_passed_over, word};
