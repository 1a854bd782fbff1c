//! What a caller may have done around each summary.

/// Calls around the making of each entry, in the thread that makes it. `item` is the message's place in the list, from 0.
///
/// A gate may hold a thread up, so an index returns only if the gate's calls do. Where memory ran out, an item may pass twice.
pub trait Gate: Sync {
    /// Called before the entry is made.
    fn before(&self, item: usize);

    /// Called after the entry was made or refused.
    fn after(&self, item: usize);
}

/// The gate that does nothing.
#[derive(Clone, Copy, Debug)]
pub struct OpenGate;

impl Gate for OpenGate {
    fn before(&self, _item: usize) {}

    fn after(&self, _item: usize) {}
}
