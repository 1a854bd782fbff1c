//! The names that directories use up, looked up by their hash, and what is wrong with a name before a world begins with it.
#![tactic(auto)]

mod seen;
mod used;

pub use seen::{MOST_UNIQUE_BYTES, Seen, is_bad};
pub use used::{NameSet, Used, UsedNames};
