//! The index of a folder.
use anyhow::Result;
use md_core::World;
use md_dirs::IndexDirs;
use md_index::{Indexed, Message, OpenGate, index};
use md_view::{Entry, list};
use std::alloc::{AllocError, Global};
use std::sync::Wait;
use std::thread::Threads;

/// The header summaries of a folder's messages, in order of unique name, made by four threads.
pub fn index_folder<R: Threads + Wait + Sync>(
    rt: &R,
    alloc: Global,
    world: &World<IndexDirs>,
    folder: u32,
) -> Result<Vec<Indexed>> {
    let entries = list(alloc, world, folder)?;
    let messages = messages(alloc, world, &entries)?;
    Ok(index(rt, alloc, &messages, 4, &OpenGate)?)
}

// The messages of a listing, lent.
fn messages<'a>(
    alloc: Global,
    world: &'a World<IndexDirs>,
    entries: &'a [Entry],
) -> Result<Vec<Message<'a>>, AllocError> {
    let mut messages = Vec::new(alloc);
    for entry in entries {
        let unique = entry.unique.as_slice();
        if let Some(bytes) = world.read(unique) {
            messages.push(Message { unique, bytes })?;
        }
    }
    Ok(messages)
}
