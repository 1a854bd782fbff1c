//! What C sees of the store, and a job whose directory calls C makes itself.
//!
//! Each refusal has a number and a text, each answer, step and directory call is a record of numbers, and bytes go into a buffer of the
//! caller. `Driven` is a job that is asked for its next call, and goes on by the reply.
#![tactic(auto)]

mod driven;
mod refusal;
mod request;
mod room;
mod shown;

pub use driven::Driven;
pub use refusal::{NO_MEMORY, Refusal, status, text_of};
pub use request::RequestShown;
pub use room::{lay, lay_at, lay_front};
pub use shown::{AnswerShown, StepShown, place_number, place_of, reply_of};
