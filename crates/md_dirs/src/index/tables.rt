//! The two tables of a directory.
use crate::hashing::HashSeed;
use crate::index::named::Named;
use crate::name_key::NameKey;
use indexmap::{IndexMap, IndexSet};

/// Names with the numbers of their files, one for each unique part, hashed under it.
pub(crate) type Table<'a> = IndexSet<Named<'a>, HashSeed>;

/// The names that stand beside the table, hashed whole, each with the number of its file.
pub(crate) type Others = IndexMap<NameKey<'static>, usize, HashSeed>;
