//! Directories of mail files: the atomic calls on them, as a trait; plain and hashed directories in memory; and directories
//! of which one call fails.
#![tactic(auto)]

mod calls;
mod changes;
mod count;
mod fail_at;
mod files;
mod finding;
mod hashing;
mod hooked;
mod image;
mod index;
pub mod laws;
mod name_key;
mod old;
mod paths;
mod plain;
mod rows;
mod slots;

pub use calls::{DirError, Dirs};
pub use count::Count;
pub use fail_at::FailAt;
pub use hashing::HashSeed;
pub use hooked::{Called, Hook, Hooked};
pub use image::ImageFile;
pub use index::IndexDirs;
pub use md_name::{Bytes, FileName};
pub use name_key::NameKey;
pub use paths::{File, Path, Place};
pub use plain::PlainDirs;
pub use rows::{Row, RowRef, is_named};
