//! Tests of `md_view` and `md_store`.
#![tactic(auto)]

#[cfg(test)]
mod tests;
