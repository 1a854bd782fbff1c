//! The judging of a log for a program's words, and its findings as they are printed.
#![tactic(auto)]

mod blame;
mod fault;
mod json;
mod judging;
pub mod laws;
mod lines;
mod page;
mod shown;
mod summary;
mod text;
mod words;

pub use judging::judged;
pub use words::{Judging, read_judging};
