//! Tests of `md_script`, `md_index` and `md_name`.
#![tactic(auto)]

#[cfg(test)]
mod tests;
