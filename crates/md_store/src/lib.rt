//! A store that threads share: one lock for those that step jobs, and none for those that list.
//!
//! The lock protects a world and the writer of what is published: the names of the store, and the history of effects that led to them.
//! Each caller has a `Pass`, which holds a beginning of that one history: what the caller has seen, or was told of. A step of a job tells the
//! pass of what is published, and a listing enters it without the lock.
#![tactic(auto)]

mod book;
mod calling;
mod error;
mod locked;
mod naming;
mod opening;
mod pass;
mod reading;
mod rule;
mod shown;
mod step;
mod store;
mod writing;

pub use calling::CallError;
pub use error::{ListError, OpenError, StoreError};
pub use locked::Locked;
pub use naming::Naming;
pub use opening::{OpenRefused, Prepared, prepare};
pub use pass::Pass;
pub use reading::FirstReading;
pub use step::{News, StoreStep};
pub use store::Store;
