//! Jobs on directories of mail: one directory call of one job at a step, and the log of the steps.
#![tactic(auto)]

mod jobs;
pub mod laws;
mod world;

pub use jobs::task::Task;
pub use md_jobs::{
    Answer, Call, Change, CoreError, DirCall, DirReply, Effect, Event, JobId, Moment, StepOut,
};
pub use world::World;
pub use world::call::CallError;
pub use world::load::LoadRefused;
pub use world::run::RunStop;
pub use world::settle::{SettleRefused, Unanswered};
pub use world::submit::SubmitRefused;
