//! The runs of a script, over any reader and writer: its play, the index of its messages, and its jobs on threads; which of them the words
//! of a command line name, and what words are answered with that a program's options don't take.
#![tactic(auto)]

mod advice;
mod complaining;
mod fault;
mod indexing;
mod performing;
mod threads;
mod words;

pub use advice::{Advice, explained};
pub use complaining::complaint;
pub use fault::RunFault;
pub use performing::perform;
pub use words::{MOST_THREADS, MOST_WORKERS, Run, run_named};
