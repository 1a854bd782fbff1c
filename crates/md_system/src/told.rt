//! What an errand is told without a reading of its own.
use crate::found::Found;
use md_dirs::Bytes;

/// What is told of a look for a message in a place.
#[derive(Drop)]
pub enum Told {
    /// Nothing: the directory is to be read.
    Nothing,
    /// The message is not in this place: a hint in cur is acted on.
    Elsewhere,
    /// The message has this name, by a hint.
    Name(Bytes),
    /// These are the message's names in this place, by a reading that counts.
    Shown(Found<Bytes>),
}
