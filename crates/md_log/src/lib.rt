//! The language of a judge's logs: which directory calls programs made in maildirs, one line for each, and what they told their users.
//!
//! The page docs/JUDGE.md has the language. This crate reads its lines: `read_line` gives what a line says, or why it is none.
#![tactic(auto)]

mod clause;
mod error;
mod folders;
mod line;
mod names;
mod words;

pub use clause::{CLAUSES, Clause, LAW, OWED};
pub use error::{LineFault, LogFault};
pub use folders::name_folder;
pub use line::{Call, Deed, Line, Naming, Reply, Said, Step, Ticks, read_line};
pub use md_text::Folders;
pub use names::Names;
