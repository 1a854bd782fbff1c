//! Jobs that `md_disk` runs, in memory and on real maildirs: what a proof can't see is that they succeed where memory is there, and that what
//! the system replies is what the machines take it for. A scene is a table of steps, so that the proof knows the few functions that take one.
//! Each scene is played twice, of which one refused allocation ends one at most.
mod act;
mod beside;
mod causes;
mod checks;
mod counting;
mod faults;
mod hints;
mod jobs;
mod keeping;
mod messages;
mod readings;
mod real;
mod scene;
mod step;

use md_dirs::Bytes;
use md_jobs::CoreError;
use md_name::Flags;
use std::alloc::{AllocError, Global};
use std::process::Abort;

// What is delivered.
const BODY: &[u8] = b"hello\n";

// A name that is no text is written so.
const HIGH: &str = "HIGH";

fn name_of(text: &str) -> &[u8] {
    if text == HIGH {
        b"\xff"
    } else {
        text.as_bytes()
    }
}

fn copied(alloc: Global, text: &str) -> Result<Bytes, AllocError> {
    Bytes::copied(alloc, name_of(text))
}

fn flags(letters: &str) -> Flags {
    Flags::parse(letters.as_bytes()).unwrap_or(Flags::empty())
}

// Both were right, or memory was wanting for one of them.
fn are_right(rt: &impl Abort, one: Result<bool, CoreError>, two: Result<bool, CoreError>) {
    let is_right = match (one, two) {
        (Ok(one), Ok(two)) => one && two,
        (Ok(right), Err(_)) | (Err(_), Ok(right)) => right,
        _ => false,
    };
    assert!(rt; is_right);
}
