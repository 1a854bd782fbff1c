//! A name made and split.
use anyhow::Result;
use md_name::{Flags, UniqueParts, make_unique, split, with_flags};
use std::alloc::Global;

/// The file name of a seen message: the one that this process delivers after so many others, in this second.
pub fn seen_name(alloc: Global, sec: u64, count: u64) -> Result<Vec<u8>> {
    let parts = UniqueParts {
        sec,
        micro: 5,
        pid: 7,
        count,
        host: b"mx.example.org",
    };
    let unique = make_unique(alloc, parts)?;
    Ok(with_flags(alloc, &unique, Flags::parse(b"S")?)?)
}

/// Whether a file name says that its message is seen.
pub fn is_seen(name: &[u8]) -> bool {
    match split(name) {
        Some((_unique, info)) => info.flags().is_some_and(|flags| flags.has(b'S')),
        None => false,
    }
}
