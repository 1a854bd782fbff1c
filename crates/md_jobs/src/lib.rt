//! Jobs on directories of mail as machines: what callers ask, the one directory call that each job makes next, and how its answer comes
//! about.
//!
//! A job is driven in one of two ways. `turn` makes its next call of directories in memory (`Dirs`), and goes on by the reply. A program
//! that makes the calls itself, of a disk say, takes three steps for each: `ask` makes the call ready, `request` lends it with its paths,
//! and `take` goes on by what was replied. (A clean has no `ask`.) The job owns its names and its body, a request borrows them, and the
//! caller owns the list of effects. All memory is taken before the call, by `ask` and by the room that the caller makes for one effect: so
//! `take` refuses nothing, and after a refusal nothing has changed. After a listing the caller needs memory for the row or the names that it
//! hands to `take`.
//!
//! A reply is any `DirReply`: POSIX's EEXIST and ENOENT have replies of their own, and each other error is `Fault`. What holds of a job
//! whatever is replied is in `laws`.
#![tactic(auto)]

mod answer;
mod call;
mod cleaning;
mod deliver;
mod effect;
mod errand;
mod error;
pub mod laws;
mod purpose;
mod refusal;
mod request;
mod snapshot;
mod spot;
mod step;
mod turn;

pub use answer::Answer;
pub use call::{Call, JobId};
pub use cleaning::{Cleaning, LEAST_SECONDS};
pub use deliver::{Delivery, DeliveryReady};
pub use effect::{Change, Effect};
pub use errand::{Errand, ErrandReady};
pub use error::CoreError;
pub use purpose::{Decision, Purpose};
pub use request::{PathRef, Request};
pub use snapshot::Snapshot;
pub use step::{DirCall, DirReply, Event, Moment, StepOut};
pub use turn::Turned;
