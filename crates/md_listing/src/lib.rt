//! Listings of folders: what new and cur show, and one list of both.
//!
//! A listing reads new first and cur after it, and jobs may take steps between the two.
#![tactic(auto)]

mod comparing;
mod entry;
mod error;
mod listing;
mod merging;
mod owned;
mod read;

pub use entry::{Entry, EntryRef, copied, lend};
pub use error::ViewError;
pub use listing::{BegunListing, list, list_lent};
pub use merging::{Entries, Listing, join, join_lent};
pub use read::{lent_reading, reading};
