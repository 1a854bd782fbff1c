//! The law of programs that share maildirs: what no step of a lawful history does. There is no code here: the definitions are in specs/, and
//! stand on what the lines of a log say (`md_log`).
#![tactic(auto)]
