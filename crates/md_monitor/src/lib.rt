//! A monitor of the law (`md_law`), as a function: what it keeps of a history, step by step, and by that which clauses a step breaks. There
//! is no code here that runs: the function is a definition, and what is proved of it is in `laws`.
#![tactic(auto)]

pub mod laws;
