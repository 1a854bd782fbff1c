//! Header fields of one message.
use anyhow::Result;
use md_head::{header_fields, summary};
use md_name::Bytes;
use std::alloc::Global;

/// The subject of a message, unfolded. A message without one has none.
pub fn subject(alloc: Global, message: &[u8]) -> Result<Option<Bytes>> {
    let fields = header_fields(message);
    Ok(fields.subject.map(|body| body.value(alloc)).transpose()?)
}

/// Whether a message was written before this second since 1970-01-01 00:00:00 UTC. No answer where it has no date that can be read.
pub fn is_older(alloc: Global, message: &[u8], second: i64) -> Result<Option<bool>> {
    let seconds = summary(alloc, message)?.seconds;
    Ok(seconds.map(|written| written < second))
}
