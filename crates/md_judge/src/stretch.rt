//! Steps with ticks that follow one another in a log, and wait for an order.
ghost use Rattle.std.specs.Prelude.{◌≡◌, ◌↔◌, [], Some, false, IsTrue, IfOk, IfSome, OnOk, length, slice_get, unwrap_or};
ghost use Rattle.md_judge.specs.Placed.{AddsWaiting, TakesAt, KeepsTicks, ticks_of};

use md_log::{Step, Ticks};
use std::alloc::{AllocError, Global};

#[derive(Drop)]
pub(crate) struct Waiting {
    pub(crate) step: Step,
    pub(crate) text: Vec<u8>,
}

/// The steps that wait, their lines, and whether a step of this or an earlier stretch was placed elsewhere than it stands.
#[derive(Drop)]
pub(crate) struct Stretch {
    steps: Vec<Option<Waiting>>,
    lines: Vec<usize>,
    moved: bool,
}

impl Stretch {
    pub(crate) fn new(alloc: Global) -> Self
        ensures waits { result.steps.items ≡ [] }
        ensures lines { result.lines.items ≡ [] }
        ensures moved { result.moved ≡ false }
    {
        Stretch {
            steps: Vec::new(alloc),
            lines: Vec::new(alloc),
            moved: false,
        }
    }

    pub(crate) fn is_empty(&self) -> bool
        ensures { IsTrue result ↔ (self.now.steps.items ≡ []) }
    {
        self.steps.is_empty()
    }

    /// Whether each step so far was placed where it stands.
    pub(crate) fn is_in_order(&self) -> bool
        ensures { IsTrue result ↔ (self.now.moved ≡ false) }
    {
        !self.moved
    }

    pub(crate) fn steps(&self) -> &[Option<Waiting>]
        ensures { result.now ≡ self.now.steps.items }
    {
        self.steps.as_slice()
    }

    /// The line of a waiting step, by its number from 0.
    pub(crate) fn line(&self, at: usize) -> u64
        ensures { result ≡ unwrap_or (slice_get self.now.lines.items at) 0 }
    {
        self.lines.get(at).copied().unwrap_or(0) as u64
    }

    pub(crate) fn add(
        &mut self,
        alloc: Global,
        line: usize,
        step: Step,
        text: &[u8],
    ) -> Result<(), AllocError>
        ensures { OnOk result (AddsWaiting line step self.old self.new) }
    {
        let waiting = wait(alloc, step, text)?;
        self.steps.push(Some(waiting))?;
        self.lines.push(line)?;
        Ok(())
    }

    fn ticks(&self, at: usize) -> Option<Ticks>
        ensures { result ≡ ticks_of (slice_get self.now.steps.items at) }
    {
        match self.steps.get(at) {
            Some(Some(waiting)) => waiting.step.ticks,
            _ => None,
        }
    }

    /// Whether an order has as many numbers as steps wait, and none of these comes before one that had returned before it began. So it is
    /// in each order that is found: the judge doesn't go by what a search says.
    pub(crate) fn allows(&self, order: &[usize]) -> bool
        ensures many { IsTrue result → length order.now ≡ length self.now.steps.items }
        ensures ticks { IsTrue result → KeepsTicks self.now.steps.items order.now }
    {
        let mut latest = 0;
        for at in order {
            if let Some(ticks) = self.ticks(*at) {
                if ticks.end < latest {
                    return false;
                }
                latest = latest.max(ticks.begin);
            }
        }
        order.len() == self.steps.len()
    }

    /// Takes a waiting step, by its number from 0, unless it was taken.
    pub(crate) fn take(&mut self, at: usize) -> Option<Waiting>
        ensures had { IfSome result (λ w. slice_get self.old.steps.items at ≡ Some (Some w)) }
        ensures takes { TakesAt at self.old self.new }
        ensures moved { self.new.moved ≡ self.old.moved }
    {
        self.steps.get_mut(at)?.take()
    }

    pub(crate) fn place(&mut self, moment: u64, line: u64)
        ensures moved { self.new.moved ≡ false → (moment ≡ line) × (self.old.moved ≡ false) }
        ensures steps { self.new.steps ≡ self.old.steps }
        ensures lines { self.new.lines ≡ self.old.lines }
    {
        if moment != line {
            self.moved = true;
        }
    }

    pub(crate) fn clear(&mut self)
        ensures steps { self.new.steps.items ≡ [] }
        ensures lines { self.new.lines.items ≡ [] }
        ensures moved { self.new.moved ≡ self.old.moved }
    {
        self.steps.clear();
        self.lines.clear();
    }
}

/// A step that waits, with the text of its line.
fn wait(alloc: Global, step: Step, text: &[u8]) -> Result<Waiting, AllocError>
    ensures { IfOk result (λ w. w.step ≡ step) }
{
    let text = Vec::from_slice(alloc, text)?;
    Ok(Waiting { step, text })
}
