//! Listings of folders, which are those of `md_listing`: `laws` says what such a listing is good for.
//!
//! Where the world itself is behind a lock, a listing reads the names of a store. They begin as the names of a world, and the change of
//! each effect is made in them too: by vectors (`Names`) or by trees (`TreeNames`).
#![tactic(auto)]

pub mod laws;
mod names;

pub use md_listing::{
    BegunListing, Entries, Entry, EntryRef, Listing, ViewError, copied, join, join_lent, lend,
    lent_reading, list, list_lent, reading,
};
pub use names::{EntryTree, Names, NamesIn, TreeNames};
