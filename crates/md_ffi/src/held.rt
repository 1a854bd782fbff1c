//! What is behind a handle.
use md_core::World;
use md_dirs::IndexDirs;

/// What is behind a handle: a world over directories in memory.
#[derive(Drop)]
pub struct Held {
    pub(crate) world: World<IndexDirs>,
}
