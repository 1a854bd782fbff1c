//! Messages of which no two are alike, and their index.

use md_index::{Gate, IndexError, Indexed, Message, index};
use std::alloc::Global;
use std::sync::Wait;
use std::thread::Threads;

/// The most messages.
pub(super) const MOST: usize = 100;

// Where the subject begins.
const SUBJECT: usize = 9;

// The header of the last message. Each has one letter less of the subject than the next. Its unique name is its subject.
static HEADER: &[u8] =
    b"Subject: abcdefghijklmnopqrstuvwxyzabcdefghijklmnopqrstuvwxyzabcdefghijklmnopqrstuvwxyzabcdefghijklmnopqrstuv";

// All messages.
fn messages() -> [Message<'static>; MOST] {
    let header = HEADER;
    let mut all = [Message {
        unique: header,
        bytes: header,
    }; MOST];
    for (item, message) in all.iter_mut().enumerate() {
        let bytes = &header[..header.len().min(SUBJECT + 1 + item)];
        *message = Message {
            unique: &bytes[bytes.len().min(SUBJECT)..],
            bytes,
        };
    }
    all
}

// Whether the entry shows the message's unique name and its subject, and nothing else.
fn shows(made: &Indexed, message: &Message<'_>) -> bool {
    let Some(subject) = &made.summary.subject else {
        return false;
    };
    made.unique.as_slice() == message.unique
        && subject.as_slice() == message.unique
        && made.summary.from.is_none()
        && made.summary.message_id.is_none()
        && made.summary.date.is_none()
        && made.summary.seconds.is_none()
}

// Whether each entry shows its message, and there is no other.
fn are_shown(made: &[Indexed], messages: &[Message<'_>]) -> bool {
    for (made, message) in made.iter().zip(messages) {
        if !shows(made, message) {
            return false;
        }
    }
    made.len() == messages.len()
}

/// Whether the index of so many messages is the plain list.
pub(super) fn is_plain<G: Gate, R: Threads + Wait + Sync>(
    rt: &R,
    alloc: Global,
    count: usize,
    workers: usize,
    gate: &G,
) -> Result<bool, IndexError> {
    let messages = messages();
    let messages = &messages[..count.min(MOST)];
    let made = index(rt, alloc, messages, workers, gate)?;
    Ok(are_shown(&made, messages))
}
