//! The commands on maildirs of a disk, by the jobs of `md_jobs`, beside any other programs that keep to the format.
#![tactic(auto)]

mod acting;
mod boxes;
mod causes;
mod change;
mod checking;
mod cleaning;
mod delivering;
mod key;
mod mailbox;
mod messages;
mod names;
mod row;
mod showing;

pub use acting::{Act, acted};
pub use boxes::make;
pub use change::{Change, parse_change, parse_letters};
pub use checking::checked;
pub use cleaning::cleaned;
pub use delivering::{Delivering, MailSource, delivered};
pub use names::is_folder;
pub use row::Shape;
pub use showing::{listed, read};
