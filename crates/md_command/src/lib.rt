//! What the commands of a program share: how they end, what they say of what failed, and how they read and write.
#![tactic(auto)]

mod escape;
mod failure;
mod files;
mod lines;
mod mistake;
mod number;
mod output;
mod progress;
mod session;
mod status;
mod trouble;

pub use escape::{push_escaped, push_shown, push_string, unescaped};
pub use failure::Failure;
pub use files::{message_of, names_of, open_to_read, opened, path_in};
pub use lines::{Line, Lines, MOST_BYTES, message};
pub use mistake::Mistake;
pub use number::push_number;
pub use output::print;
pub use progress::Progress;
pub use session::{Host, Session};
pub use status::Status;
pub use trouble::Trouble;
