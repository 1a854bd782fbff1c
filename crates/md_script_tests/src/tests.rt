//! What no contract says, and what no built program shows.

mod meetings;
mod messages;
mod names;
mod observed;
mod plays;
mod setups;
mod texts;
