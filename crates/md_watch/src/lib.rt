//! A watch on what programs that share maildirs do: which clauses of the law, and of those that are owed beside it, each step breaks
//! (docs/LAW.md).
//!
//! `Watch` goes with a history from step to step: what it keeps is what the monitor of `md_monitor` keeps, in tables.
#![tactic(auto)]

mod broken;
mod claims;
mod flagged;
mod listings;
mod marks;
mod memory;
mod presences;
mod readings;
mod spells;
mod watch;

pub use broken::Broken;
pub use watch::{OpenReading, Presence, Watch};
