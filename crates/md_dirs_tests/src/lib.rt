//! Tests of `md_dirs`, and of the worlds of `md_core` over them.
#![tactic(auto)]

#[cfg(test)]
mod tests;
#[cfg(test)]
mod world;
