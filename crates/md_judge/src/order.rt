//! An order of steps whose calls overlap, in which directories give their replies.

ghost use Rattle.md_judge.specs.Placed.{IsUnplaced};

mod asked;
mod left;
mod numbers;
mod places;
mod search;
mod trial;

use crate::stretch::Waiting;
use asked::mark_alone;
use md_log::LineFault;
use md_watch::Watch;
use numbers::Numbers;
use search::{Search, Way};
use std::alloc::{AllocError, Global};
use trial::Trial;

#[derive(Clone, Copy)]
pub(crate) enum Unplaced {
    NoMemory,
    NoOrder,
    TooManyOrders,
}

impl Unplaced {
    pub(crate) fn fault(self) -> LineFault
        ensures { IsUnplaced result }
    {
        match self {
            Unplaced::NoMemory => LineFault::NoMemory,
            Unplaced::NoOrder => LineFault::NoOrder,
            Unplaced::TooManyOrders => LineFault::TooManyOrders,
        }
    }
}

impl From<AllocError> for Unplaced {
    fn from(_: AllocError) -> Self {
        Unplaced::NoMemory
    }
}

/// Why no order was found, and the number of the step that has no place.
#[derive(Clone, Copy)]
pub(crate) struct NoOrder {
    pub(crate) step: usize,
    pub(crate) why: Unplaced,
}

impl From<AllocError> for NoOrder {
    fn from(_: AllocError) -> Self {
        no_memory(0)
    }
}

/// The numbers of steps in an order in which the directories give their replies, after the steps that the watch took. It takes about
/// n log n and n times the calls in flight where the order of the log nearly does, and gives up after 110,000 tries and 144 more for each
/// step.
pub(crate) fn order<'a>(
    alloc: Global,
    watch: &'a Watch,
    steps: &'a [Option<Waiting>],
) -> Result<Vec<usize>, NoOrder> {
    let mut numbers = Numbers::new(alloc, watch);
    for (at, waiting) in steps.iter().enumerate() {
        if let Some(Waiting { step, .. }) = waiting {
            numbers.add(step).map_err(|_| no_memory(at))?;
        }
    }
    mark_alone(alloc, numbers.steps.as_mut_slice())?;
    find_order(&numbers)
}

fn no_memory(step: usize) -> NoOrder {
    let why = Unplaced::NoMemory;
    NoOrder { step, why }
}

/// Takes the order of the log if that will do. Else it searches on the wide way, which goes by the order of the log, and if that takes too
/// many tries on the narrow one.
fn find_order(numbers: &Numbers<'_>) -> Result<Vec<usize>, NoOrder> {
    if goes_straight(numbers)? {
        return Ok((0..numbers.steps.len()).collect(numbers.alloc)?);
    }
    let found = Search::new(numbers, Way::Wide)?.find();
    match found {
        Err(
            NoOrder {
                why: Unplaced::TooManyOrders,
                ..
            },
        ) => Search::new(numbers, Way::Narrow)?.find(),
        found => found,
    }
}

/// Whether the order of the log will do, and leaves no reading open: that one might better begin earlier.
fn goes_straight(numbers: &Numbers<'_>) -> Result<bool, AllocError> {
    let mut trial = Trial::new(numbers);
    let mut latest = 0;
    for (at, step) in numbers.steps.iter().enumerate() {
        let now = numbers.begin.saturating_add(at);
        if step.ticks.end < latest || trial.misfit(step, now)?.is_some() {
            return Ok(false);
        }
        latest = latest.max(step.ticks.begin);
        trial.make(step, now)?;
    }
    let begun = Some(numbers.begin);
    Ok(
        !numbers
            .steps
            .iter()
            .any(|step| step.is_reading() && trial.first(step) >= begun),
    )
}
