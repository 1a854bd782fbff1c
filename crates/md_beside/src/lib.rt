//! Our jobs beside other programs: the laws, each the contract of a function that does nothing, and the clauses that each call relies on.
#![tactic(auto)]

pub mod laws;
mod relied;

pub use relied::relied_on;
