//! Scripts: their lines and words, the commands that these spell, and what a whole script prints over a store, or sets up for another.
#![tactic(auto)]

mod chunk;
mod command;
mod digits;
mod entry_line;
mod error;
mod flags;
mod incoming;
mod indexing;
pub mod laws;
mod lines;
mod listing;
mod observer;
mod player;
mod run;
mod session;
mod setting;
mod setup;
mod sink;
mod source;
mod storage;
mod store;
mod summary;
mod verb;
mod words;

pub use error::{PlayError, PlayKind};
pub use indexing::{bytes_of, folders_text, index_text, list_folder, load, push_indexed, refused};
pub use listing::push_entries;
pub use observer::Observer;
pub use player::{observe, play, play_last, transcript, transcript_over, write_whole};
pub use run::Printed;
pub use setup::{ReadSetup, Setup, image, read_image};
pub use sink::{InMemory, Put, Sink, Writer};
pub use source::{Got, Reader, Source};
pub use storage::{Storage, Watch};
pub use store::{open_store, push_answer_line};
pub use summary::push_summary;
