//! Many steps.
ghost use Rattle.std.specs.Prelude.{OnOk, IfErr};
ghost use Rattle.md_core.specs.Worlds.{TakesAll, StopsAt};
ghost use Rattle.md_core.specs.Interleaving.{Interleaves};
ghost use Rattle.md_core.specs.Tracing.{trace_of};

use crate::world::World;
use md_dirs::Dirs;
use md_jobs::{CoreError, Event};

/// Where a run of steps stopped: the place in the list, from 0, and the refusal of the step.
#[derive(Clone, Copy, Debug, PartialEq, Eq)]
pub struct RunStop {
    pub at: usize,
    pub error: CoreError,
}

impl<D: Dirs> World<D> {
    /// Takes steps, one after another, until one is refused, as `step` refuses: `NoJob`, `Answered` or `NoMemory`. The events before it were
    /// taken, and none after it.
    pub fn run(&mut self, events: &[Event]) -> Result<(), RunStop>
        ensures taken { OnOk result (TakesAll events.now self.old self.new) }
        ensures stopped { IfErr result (λ stop. StopsAt events.now stop.at stop.error self.old self.new) }
        ensures theorem { Interleaves (trace_of self.new) }
    {
        self.interleaves();
        for (at, event) in events.iter().enumerate() {
            if let Err(error) = self.step(event.job, event.now, event.own) {
                return Err(RunStop { at, error });
            }
        }
        Ok(())
    }
}
