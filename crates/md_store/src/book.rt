//! The run of a store as tokens, which exist in proofs alone, beside numbers.
//!
//! No value that threads read at different moments can say of itself that it is of one history. A token of a book can: two of one book are
//! beginnings of one list of runs, each of which goes on from the one before it, so the shorter begins the longer.
//!
//! A book of `logbook` gives nobody the sole right to add to its list. But it gives pens: a cell that the book doesn't hold yet is written by
//! one pen alone. So each entry names the pen that made it, which is then used up, and the pen that makes the next. Who has that one has seen
//! all entries, since nobody else can make the next, and so entering a run never fails, and shows that each token is a beginning of it.
ghost use Rattle.std.specs.Prelude.{◌≡◌, ◌⊎◌, [], length, false, IsTrue, IfSome, None, ◌<◌};
ghost use mathlib.Core.List.{IsPrefix};
ghost use Rattle.md_core.specs.Runs.{effects_of};
ghost use Rattle.md_store.specs.Ongoing.{GoesOn};
ghost use Rattle.md_store.specs.Rules.{head_of, run_in, opening_entries, no_entry, first_pen, next_from, IsChained, MayEnter, MakesPen, AddsEntry};
ghost use base.Fml.{ftrue};
ghost use Rattle.std.specs.Coded.{codes};
ghost use Rattle.md_name.specs.contracts.flags.Flags as flags;
ghost use Rattle.md_store.specs.Pages.{Log, Course};
ghost use Rattle.md_dirs.specs.State.{state_code};

use logbook::{Gain, Offer, Opening, Pen, Plain, Play, Rule, Seen, Start, Word};
use md_core::World;
use md_dirs::{Dirs, PlainDirs};
use std::marker::Model;

/// The rule of a book: each entry was made by the pen that the one before names, and that pen is used up; and its run goes on.
pub struct Chained;

impl Rule<Entered, u64> for Chained {
    ghost holds = { λ cells entries. IsChained cells entries };

    ghost first = { [] };

    ghost hinted = { λ n entries. Unit {0} };

    ghost shows = { λ entries. [] };

    ghost keeps = { λ names entries. ftrue };

    ghost moves = { λ ask before after answer. Unit {0} };
}

/// What a thread trades for an entry: nothing.
pub struct NoTrade;

impl Gain<Entered, u64> for NoTrade {
    ghost after = { λ names about answer. ftrue };
}

/// What a book opens with: the run of a world.
struct FirstRun;

impl<D: Dirs> Opening<World<D>, Entered> for FirstRun {
    ghost log = { λ count world. opening_entries world };
}

/// A step that makes a pen.
struct MakePen;

impl Play<Entered, u64> for MakePen {
    ghost then = { MakesPen };
}

/// A step that asks for no entry.
impl Plain<(), Entered, u64> for MakePen {
    ghost ask = { λ nothing. no_entry };

    ghost state = { λ nothing. None };
}

/// A step that enters the run of a world.
struct AddEntry;

impl Play<Entered, u64> for AddEntry {
    ghost then = { AddsEntry };
}

impl<D: Dirs> Plain<(&World<D>, &Pen, &Pen), Entered, u64> for AddEntry {
    ghost ask = { λ x. record { world = x.0.now; by = x.1.now.nib.key; next = x.2.now.nib.key } };

    ghost state = { λ x. None };
}

type Head = Word<Entered, u64, Chained>;

type Reached = Seen<Entered, u64, Chained>;

type Update = Offer<Entered, u64, Chained, NoTrade>;

// Makes a pen, which makes one entry, and says what the head had: 0 where this is the first.
fn new_pen(head: &Head, seen: &mut Reached) -> (u64, Pen)
    requires { head.now ≡ head_of seen.old.book }
    ensures seen { (seen.new.book ≡ seen.old.book) × IsPrefix seen.old.log seen.new.log }
    ensures pen { (result.1.book ≡ seen.old.book) × MayEnter result.1.nib }
    ensures first { result.0 ≡ 0 → result.1.nib.key ≡ first_pen }
{
    let mut offer: Update = seen.plain::<NoTrade, (), MakePen>(&());
    let mut pen = seen.no_pen();
    let found = head.compare_exchange::<MakePen, NoTrade>(0, 1, seen, &mut offer, &mut pen);
    // The pen makes an entry once the word that it makes is there.
    let _word: Head = Word::tracked(0, &mut pen);
    (found, pen)
}

/// The effects of a beginning of a store's run, and how many there are. Contracts see its book and the effects.
#[derive(Drop)]
pub struct Front {
    count: u64,
    seen: Reached,
}

impl Model for Front {
    ghost Value = { Log };

    ghost coded = { Prim.hlevel (codes, flags.the_row.coded) };

    ghost view = { λ f. record { book = f.seen.book; log = effects_of (run_in f.seen.log) } };

    ghost invariant = { λ f. (f.count ≡ length (effects_of (run_in f.seen.log))) × (0 < length f.seen.log) };
}

impl Front {
    pub fn len(&self) -> u64
        ensures { result ≡ length self.now.log }
    {
        self.count
    }

    pub fn again(&self) -> Front
        ensures { result ≡ self.now }
    {
        Front {
            count: self.count,
            seen: self.seen.again(),
        }
    }

    /// Whether the other, of the same book, has as many effects or more. Then it begins with these.
    pub fn begins(&self, other: &Front) -> bool
        requires { other.now.book ≡ self.now.book }
        ensures yes { IsTrue result → IsPrefix self.now.log other.now.log }
        ensures no { (result ≡ false) → IsPrefix other.now.log self.now.log }
    {
        // What both have seen, for the proof alone: the two are beginnings of it.
        let mut both = self.seen.again();
        let _ = self.count;
        let _ = other.count;
        both.learn(&other.seen);
        if self.count <= other.count {
            return true;
        }
        false
    }

    /// The longer of two fronts of one book. Both begin it.
    pub fn longer(&self, other: &Front) -> Front
        requires { other.now.book ≡ self.now.book }
        ensures one { (result ≡ self.now) ⊎ (result ≡ other.now) }
        ensures this { IsPrefix self.now.log result.log }
        ensures that { IsPrefix other.now.log result.log }
    {
        if self.begins(other) {
            other.again()
        } else {
            self.again()
        }
    }
}

/// A beginning of a store's run, and how many calls and events it has. Contracts see its book and that run.
#[derive(Drop)]
pub struct Moment {
    calls: u64,
    events: u64,
    seen: Reached,
}

impl Model for Moment {
    ghost Value = { Course };

    ghost coded = { Prim.hlevel (codes, state_code, flags.the_row.coded) };

    ghost view = { λ m. record { book = m.seen.book; run = run_in m.seen.log } };

    ghost invariant = { λ m. (m.calls ≡ length (run_in m.seen.log).calls) × (m.events ≡ length (run_in m.seen.log).events) × (0 < length m.seen.log) };
}

impl Moment {
    pub fn again(&self) -> Moment
        ensures { result ≡ self.now }
    {
        Moment {
            calls: self.calls,
            events: self.events,
            seen: self.seen.again(),
        }
    }

    /// The later of two moments of one book. Its run goes on from both.
    pub fn later(&self, other: &Moment) -> Moment
        requires { other.now.book ≡ self.now.book }
        ensures one { (result ≡ self.now) ⊎ (result ≡ other.now) }
        ensures this { GoesOn self.now.run result.run }
        ensures that { GoesOn other.now.run result.run }
    {
        // What both have seen, for the proof alone: the two are beginnings of it.
        let mut both = self.seen.again();
        both.learn(&other.seen);
        if self.calls > other.calls {
            return self.again();
        }
        if self.events > other.events {
            return self.again();
        }
        other.again()
    }
}

/// A book that has no owner yet. Contracts see the book and the run that it opens with.
#[derive(Drop)]
pub struct Blank {
    head: Head,
    seen: Reached,
}

impl Model for Blank {
    ghost Value = { Course };

    ghost coded = { Prim.hlevel (codes, state_code, flags.the_row.coded) };

    ghost view = { λ b. record { book = b.seen.book; run = run_in b.seen.log } };

    ghost invariant = { λ b. (b.head ≡ head_of b.seen.book) × (b.seen.log ≡ opening_entries (run_in b.seen.log)) };
}

impl Blank {
    /// Opens a book for the run of a world.
    pub fn open<D: Dirs>(world: &World<D>) -> Blank
        ensures { result.run ≡ world.now }
    {
        let (seen, mut pens) = Seen::open_row::<World<D>, FirstRun>(world, Start::alone(), 1);
        Blank {
            head: Word::tracked(0, &mut pens.take()),
            seen,
        }
    }

    /// The book, for its one owner. None where it has an owner, which never comes.
    pub fn owned(self) -> Option<Journal>
        requires { effects_of self.run ≡ [] }
        ensures { IfSome result (λ o. o ≡ self) }
    {
        let Blank { head, mut seen } = self;
        let before = seen.again();
        let (found, pen) = new_pen(&head, &mut seen);
        if found != 0 {
            return None;
        }
        Some(Journal {
            head,
            pen,
            count: 0,
            seen: before,
        })
    }
}

/// The run as far as it was entered, and the sole right to enter more. Contracts see the book and that run.
#[derive(Drop)]
pub struct Journal {
    head: Head,
    // It makes the next entry.
    pen: Pen,
    count: u64,
    seen: Reached,
}

impl Model for Journal {
    ghost Value = { Course };

    ghost coded = { Prim.hlevel (codes, state_code, flags.the_row.coded) };

    ghost view = { λ o. record { book = o.seen.book; run = run_in o.seen.log } };

    ghost invariant = { λ o. (o.head ≡ head_of o.seen.book) × (o.pen.book ≡ o.seen.book) × MayEnter o.pen.nib
        × (o.pen.nib.key ≡ next_from 0 o.seen.log) × (o.count ≡ length (effects_of (run_in o.seen.log))) × (0 < length o.seen.log) };
}

impl Journal {
    pub fn front(&self) -> Front
        ensures { (result.book ≡ self.now.book) × (result.log ≡ effects_of self.now.run) }
    {
        Front {
            count: self.count,
            seen: self.seen.again(),
        }
    }

    /// The run, as far as it was entered, which is that of a world.
    pub fn moment<D: Dirs>(&self, world: &World<D>) -> Moment
        requires { self.now.run ≡ world.now }
        ensures { result ≡ self.now }
    {
        Moment {
            calls: world.jobs(),
            events: world.log().len() as u64,
            seen: self.seen.again(),
        }
    }

    /// Enters the run of a world, which goes on from what was entered. No front or moment of the book has more than was entered before.
    pub fn enter<D: Dirs>(&mut self, world: &World<D>, front: &Front, moment: &Moment)
        requires book { (front.now.book ≡ self.old.book) × (moment.now.book ≡ self.old.book) }
        requires goes { GoesOn self.old.run world.now }
        ensures book { self.new.book ≡ self.old.book }
        ensures run { self.new.run ≡ world.now }
        ensures covers { IsPrefix front.now.log (effects_of self.old.run) }
        ensures from { GoesOn moment.now.run self.old.run }
    {
        let (_found, next) = new_pen(&self.head, &mut self.seen.again());
        let mut both = self.seen.again();
        both.learn(&front.seen);
        both.learn(&moment.seen);
        let mut offer: Update = both.plain::<NoTrade, (&World<D>, &Pen, &Pen), AddEntry>(&(
            world, &self.pen, &next,
        ));
        let _found = self
            .head
            .compare_exchange::<AddEntry, NoTrade>(0, 0, &mut both, &mut offer, &mut self.pen);
        self.pen = next;
        self.count = world.effects().len() as u64;
        self.seen = both;
    }
}

/// A run, as a world has it, the pen that entered it, and the pen that enters the next. No value of it is made.
pub struct Entered {
    pub world: World<PlainDirs>,
    pub by: u64,
    pub next: u64,
}
