//! Steps by numbers, as far as directories answer them, and which of them have to do with one another.
use md_log::{Deed, Naming, Reply, Ticks};
use std::alloc::{AllocError, Global};
use std::collections::BTreeSet;

/// The number of a path.
pub(super) type Name = usize;

/// What stands for the names of a directory: no path has this number.
pub(super) const ALL: Name = usize::MAX;

/// A path: the number of its directory, and its own.
#[derive(Clone, Copy, PartialEq, Eq)]
pub(super) struct Spot {
    pub(super) directory: usize,
    pub(super) name: Name,
}

/// A path and a moment or a step, as sets and maps have them: the directory, the path and the number, in this order.
pub(super) type SpotKey = (usize, Name, usize);

impl Spot {
    pub(super) fn key(self, number: usize) -> SpotKey {
        (self.directory, self.name, number)
    }
}

/// A call, as far as directories answer it.
#[derive(Clone, Copy)]
pub(super) enum Deal {
    At(Deed),
    Between(Naming),
    List,
    Answer,
}

/// A step by numbers, to be placed.
#[derive(Clone, Copy)]
pub(super) struct Asked {
    pub(super) deal: Deal,
    pub(super) reply: Reply,
    /// The paths that it names, where it names one that one twice; of a reading, `ALL` names of its directory.
    pub(super) old: Spot,
    pub(super) new: Spot,
    /// Of a reading: the number of its actor and directory, and where the names that it shows begin and end among those of all readings.
    pub(super) reader: usize,
    pub(super) shown: (usize, usize),
    /// No other reading of the directory by the actor overlaps it.
    pub(super) is_alone: bool,
    pub(super) ticks: Ticks,
}

/// Why a step doesn't fit: what is so of this path, and for some readings also what was read before.
#[derive(Clone, Copy)]
pub(super) struct Misfit {
    pub(super) spot: Spot,
    pub(super) is_of_reading: bool,
}

const NO_SPOT: Spot = Spot {
    directory: usize::MAX,
    name: ALL,
};

/// An answer, which fits everywhere.
pub(super) static ANSWER: Asked = Asked {
    deal: Deal::Answer,
    reply: Reply::Ok,
    old: NO_SPOT,
    new: NO_SPOT,
    reader: 0,
    shown: (0, 0),
    is_alone: true,
    ticks: Ticks { begin: 0, end: 0 },
};

impl Asked {
    /// A call on these paths.
    pub(super) fn on(deal: Deal, reply: Reply, old: Spot, new: Spot) -> Self {
        Asked {
            deal,
            reply,
            old,
            new,
            ..ANSWER
        }
    }

    /// Whether the call makes a path be there or go.
    pub(super) fn is_change(&self) -> bool {
        match self.deal {
            Deal::At(Deed::Create | Deed::Unlink) | Deal::Between(_) => self.reply == Reply::Ok,
            _ => false,
        }
    }

    pub(super) fn is_reading(&self) -> bool {
        matches!(self.deal, Deal::List)
    }

    /// Whether the call changes nothing, so that, made at once where it fits, it leaves each later call as free as before.
    pub(super) fn is_idle(&self) -> bool {
        match self.deal {
            Deal::List => self.is_alone,
            _ => !self.is_change(),
        }
    }

    /// Whether the call may make a path be there or go.
    pub(super) fn may_change(&self, spot: Spot) -> bool {
        match self.deal {
            Deal::Between(Naming::Link) => self.is_change() && self.new == spot,
            _ => self.is_change() && (self.old == spot || self.new == spot),
        }
    }

    /// Whether both are readings of one directory by one actor.
    pub(super) fn is_read_with(&self, other: &Asked) -> bool {
        self.is_reading() && other.is_reading() && self.reader == other.reader
    }

    /// Whether two calls answer and do the same in either order, wherever both can be made.
    pub(super) fn is_apart(&self, other: &Asked) -> bool {
        if self.is_change() || other.is_change() {
            let is_met = meets(self.old, other.old)
                || meets(self.old, other.new)
                || meets(self.new, other.old)
                || meets(self.new, other.new);
            return !is_met;
        }
        !self.is_read_with(other)
    }
}

/// Whether two paths are one, or one of them is of a directory that the other stands for.
fn meets(one: Spot, two: Spot) -> bool {
    one.directory == two.directory && (one.name == two.name || one.name == ALL || two.name == ALL)
}

/// Marks the parts of readings that stand alone. Where two of a reader overlap, none of that reader does. Then two overlap of which one
/// begins next after the other, since no part ends before it begins.
pub(super) fn mark_alone(alloc: Global, steps: &mut [Asked]) -> Result<(), AllocError> {
    let mut parts = BTreeSet::new(alloc);
    for (at, step) in steps.iter().enumerate() {
        if step.is_reading() {
            parts.insert((step.reader, step.ticks.begin, at, step.ticks.end))?;
        }
    }
    let mut mixed = BTreeSet::new(alloc);
    for (part, next) in parts.iter().zip(parts.iter().skip(1)) {
        let ((reader, _, _, end), (next_reader, begin, _, _)) = (*part, *next);
        if reader == next_reader && begin <= end {
            mixed.insert(reader)?;
        }
    }
    for step in steps.iter_mut() {
        step.is_alone = !mixed.contains(&step.reader);
    }
    Ok(())
}
