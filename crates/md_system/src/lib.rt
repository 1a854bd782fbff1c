//! The jobs of `md_jobs` run over whatever makes the directory calls (`System`): a job makes the calls of its machine and has its machine's
//! answer. Beside it what such a system may tell a job by names that it knows already, what a listing of names shows, and which of them
//! break the format.
#![tactic(auto)]

mod acting;
mod entry;
mod flaw;
mod flaws;
mod found;
mod hints;
mod listed;
mod log;
mod logged;
mod memory;
mod name_flaw;
mod read_ahead;
mod rows;
mod running;
mod seen;
mod shown;
mod system;
mod told;

pub use acting::acts_on;
pub use flaw::{Flaw, FlawKind};
pub use flaws::flaws_of;
pub use found::Found;
pub use hints::{Hint, Hints};
pub use listed::{Listed, joined};
pub use logged::Logged;
pub use memory::{InMemory, Memory};
pub use read_ahead::ReadAhead;
pub use running::{clean, deliver, run_errand};
pub use seen::{InTmp, Seen};
pub use shown::Shown;
pub use system::System;
pub use told::Told;
