//! The summaries of many messages, made by threads that take a message each as they become free, and given in the messages' order.
#![tactic(auto)]

mod by_workers;
mod deal;
mod error;
mod gate;
mod gather;
mod item;
mod worker;
mod worker_entries;

pub use by_workers::index;
pub use error::IndexError;
pub use gate::{Gate, OpenGate};
pub use item::{Indexed, Message};
