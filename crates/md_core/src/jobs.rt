//! The jobs of a world, over their machines.
pub(crate) mod job;
pub mod task;
