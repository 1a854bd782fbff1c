//! The store for C: worlds behind handles, jobs whose directory calls C makes itself, scripts, indexes, judged logs, names and header
//! summaries. `include/deolmutt.h` has the interface.
//!
//! Each exported function here takes references, and the files of `face/` make them of C's pointers, which they test for null first.
#![tactic(auto)]

mod asked;
pub mod calls;
mod checks;
mod driven_handle;
mod driven_slot;
pub mod driving;
pub mod files;
mod handle;
mod held;
pub mod indexing;
pub mod jobs;
pub mod judging;
pub mod keeping;
pub mod load;
mod loose;
pub mod names;
pub mod reading;
mod seed;
pub mod settle;
mod slot;
pub mod version;

pub use asked::{Asked, Own};
pub use driven_handle::DrivenHandle;
pub use driven_slot::DrivenSlot;
pub use handle::Handle;
pub use held::Held;
pub use keeping::RowShown;
pub use md_driven::{AnswerShown, Driven, Refusal, RequestShown, StepShown};
pub use slot::Slot;
