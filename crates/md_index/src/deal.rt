//! How the numbers of the messages are dealt out: a deque of them, from which each worker steals.
ghost use Rattle.std.specs.Prelude.{◌≡◌, ◌+◌, ◌++◌, [], IfOk};
ghost use Rattle.crossbeam_deque.specs.Handles.{worker_port, worker_view};
ghost use Rattle.md_index.specs.Deal.{hand, IsDealt};

use crossbeam_deque::protocol::{Outcome, Protocol};
use crossbeam_deque::{Stealer, Worker};
use std::alloc::{AllocError, Global};
use std::collections::LinkedList;

/// What a seat at the deque has pushed and taken: how many numbers, from 0, and which. No value of it is made.
pub(crate) struct Hand {
    pub pushed: u64,
    pub taken: LinkedList<usize>,
}

/// The rule of the deque: the numbers taken and left are those that were pushed, each once, and each taken one is in one hand.
pub(crate) struct Deals;

impl Protocol<usize, Hand> for Deals {
    ghost holds = { IsDealt };

    ghost first = { hand 0 [] };

    ghost guest = { hand 0 [] };
}

/// The owner pushed the next number.
pub(crate) struct Pushed;

impl Outcome<usize, Hand> for Pushed {
    ghost then = { λ before numbers after. after ≡ hand (before.pushed + 1) before.taken };
}

/// A thief took a number.
pub(crate) struct Took;

impl Outcome<usize, Hand> for Took {
    ghost then = { λ before numbers after. after ≡ hand before.pushed (before.taken ++ numbers) };
}

pub(crate) type Owner = Worker<usize, Global, Hand, Deals>;

pub(crate) type Thief = Stealer<usize, Global, Hand, Deals>;

/// A deque with the numbers below `count`.
pub(crate) fn dealt(alloc: Global, count: usize) -> Result<Owner, AllocError>
    ensures { IfOk result (λ owner. (worker_port owner ≡ 0) × (worker_view owner ≡ hand count [])) }
{
    let mut owner = Owner::fifo_as(alloc, count)?;
    for next in 0..count {
        owner.push_as::<Pushed>(next).map_err(|_| AllocError)?;
    }
    Ok(owner)
}
