//! The log of a script's directory calls, in the language of docs/JUDGE.md.
#![tactic(auto)]

mod answers;
mod noted;
mod rows;
mod steps;
mod text;
mod tracing;

pub use tracing::trace;
