//! A finding, as it is printed.
use md_judge::Grade;

/// A line of a log, who took its step, the step's call as the log spells it, the clause that it breaks, what that costs,
/// and why it is wrong.
#[derive(Clone, Copy)]
pub(crate) struct Shown<'a> {
    pub(crate) line: u64,
    pub(crate) actor: &'a [u8],
    pub(crate) call: &'a [u8],
    pub(crate) clause: &'static str,
    pub(crate) grade: Grade,
    pub(crate) why: &'static str,
    /// The earlier line that the finding goes back to.
    pub(crate) before: Option<u64>,
}
