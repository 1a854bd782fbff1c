//! Tests of jobs that `md_disk` runs, in memory and on real maildirs.
#![tactic(auto)]

#[cfg(test)]
mod tests;
