//! Small facts that the standard library lacks and that several crates prove with: of tests, orders, options and lists, of the entries of a
//! finite map, and of what a map has at a key that was put or dropped. There is no code here.
#![tactic(auto)]
