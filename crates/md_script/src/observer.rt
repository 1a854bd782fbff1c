//! What looks on while a script is played.
ghost use Rattle.md_core.specs.Runs.{Run};
ghost use Rattle.md_script.specs.Observing.{IsOpened, IsTaken};

use crate::storage::Storage;
use md_core::{Call, Event, StepOut, World};

/// What is shown each thing that the lines of a script do to a store, as soon as it is done. It answers nothing, and the store is only lent
/// to it: what lines print and which of them is refused is the same for each observer. One that lacks memory has to keep that to itself, for
/// the program to ask in the end.
pub trait Observer<D: Storage>: Drop {
    /// The line of this number is to be run. Lines that are passed over aren't shown. A line that is refused is the last.
    fn line(&mut self, number: u64);

    /// A folder was named.
    fn folder(&mut self, name: &[u8]);

    /// The store was opened.
    fn opened(&mut self, world: &World<D>)
        requires { IsOpened world.now };

    /// A call is to be submitted: it becomes the next job, or the line is refused.
    fn submits(&mut self, call: &Call);

    /// A step was taken, and left the store as it is lent: its event, its directory call with the reply, and the answer, if it gave one.
    fn stepped(&mut self, world: &World<D>, event: Event, out: &StepOut)
        requires { (before : Run) × IsTaken before world.now event out.now };
}

/// No observer: it does nothing, and holds nothing.
#[derive(Drop)]
pub(crate) struct Unobserved;

impl<D: Storage> Observer<D> for Unobserved {
    fn line(&mut self, _number: u64) {}

    fn folder(&mut self, _name: &[u8]) {}

    fn opened(&mut self, _world: &World<D>) {}

    fn submits(&mut self, _call: &Call) {}

    fn stepped(&mut self, _world: &World<D>, _event: Event, _out: &StepOut) {}
}
