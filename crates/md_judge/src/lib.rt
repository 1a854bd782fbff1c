//! A judge of the directory calls that mail programs made in maildirs: which steps break the law, and what programs owe each other.
//!
//! `judge_log` reads a log in one pass, and gives a finding for each clause of the law that a step breaks, or the first line that is wrong.
//! The log's language and the law are in docs/JUDGE.md.
#![tactic(auto)]

mod clauses;
mod grade;
mod log;
mod order;
mod remarks;
mod session;
mod stretch;

pub use grade::{GRADES, Grade};
pub use log::{Finding, judge_log};
pub use md_log::{Clause, LAW, LineFault, LogFault, OWED};
pub use session::Session;
