// How a store is opened: its passes, and the writer of what is published.
ghost use Rattle.std.specs.Prelude.{◌≡◌, ◌<◌, ◌≤◌, ◌⊎◌, [], length, drop, All, IfOk, IfErr, MatchResult};
ghost use Rattle.left_right.specs.Sides.{view};
ghost use Rattle.md_view.specs.Named.{named_of, AreMessages};
ghost use Rattle.md_store.specs.declared.error.OpenError.TheVariants as refusal;
ghost use Rattle.md_store.specs.Locks.{IsFresh, Ready};
ghost use Rattle.md_core.specs.Stepping.{IsRun};
ghost use Rattle.md_store.specs.Pages.{new_to};
ghost use Rattle.md_store.specs.Publishing.{knower};
ghost use Rattle.std.specs.Coded.{codes};
ghost use Rattle.md_dirs.specs.State.{state_code};
ghost use Rattle.md_name.specs.contracts.flags.Flags as flags;

use crate::book::{Blank, Front, Moment};
use crate::error::OpenError;
use crate::locked::Locked;
use crate::naming::Naming;
use crate::pass::Pass;
use crate::rule::{Seats, StoreWriter};
use crate::shown::Shown;
use crate::store::Store;
use crate::writing::publish;
use md_core::World;
use md_dirs::Dirs;
use md_view::TreeNames;
use std::alloc::{AllocError, Global};
use std::marker::Model;
use std::sync::{Mutex, Wait};

/// The most callers of a store.
const MOST_PASSES: usize = 64;

/// A world that was not opened, and why.
#[derive(Drop)]
pub struct OpenRefused<D: Dirs> {
    pub error: OpenError,
    pub world: World<D>,
}

/// A world with no event yet, and a book for its run. `open` makes a store of it under a name.
pub struct Prepared<D: Dirs> {
    world: World<D>,
    passes: usize,
    blank: Blank,
}

impl<D: Dirs> Model for Prepared<D> {
    ghost Value = { Ready };

    ghost coded = { Prim.hlevel (codes, state_code, flags.the_row.coded) };

    ghost view = { λ p. record { run = p.world; book = p.blank.book; passes = p.passes } };

    ghost invariant = { λ p. IsFresh p.world × (0 < p.passes) × (p.passes ≤ 64) × (p.blank.run ≡ p.world) };
}

/// Makes a store of a world ready to be opened, with 1 to 64 passes; else it is refused `BadPasses`. Calls may have been submitted.
pub fn prepare<D: Dirs>(world: World<D>, passes: usize) -> Result<Prepared<D>, OpenRefused<D>>
    requires { IsFresh world }
    ensures world { MatchResult result (λ p. (p.run ≡ world) × (p.passes ≡ passes)) (λ e. e.world ≡ world) }
    ensures refused { MatchResult result (λ _. (0 < passes) × (passes ≤ 64)) (λ e. (e.error ≡ refusal.BadPasses) × ((passes ≡ 0) ⊎ (64 < passes))) }
{
    if passes == 0 || passes > MOST_PASSES {
        let error = OpenError::BadPasses;
        return Err(OpenRefused { error, world });
    }
    let blank = Blank::open(&world);
    Ok(Prepared {
        world,
        passes,
        blank,
    })
}

impl<D: Dirs> Prepared<D> {
    /// Opens the store, with as many passes as were asked for. The naming type names its run, its opening names and its book: it is picked
    /// where this is called, in a function that is generic over it. Refused `NoMemory`, or `NoReader` where a pass is refused its reader; the
    /// world comes back. It would answer `NoMemory`, too, where the book had an owner already, which never comes.
    pub fn open<J: Naming, R: Wait>(
        self,
        rt: &R,
        alloc: Global,
    ) -> Result<(Store<D, J>, Vec<Pass<J>>), OpenRefused<D>>
        requires begun { self.run ≡ J.begun }
        requires named { (named_of self.run.image ≡ J.opening) × (self.book ≡ J.book) }
        ensures passes { IfOk result (λ r. (length r.1.items ≡ self.passes) × All (λ p. p ≡ new_to self.run) r.1.items) }
        ensures refused { IfErr result (λ e. (e.world ≡ self.run) × ((e.error ≡ refusal.NoMemory) ⊎ (e.error ≡ refusal.NoReader))) }
    {
        let Prepared {
            world,
            passes,
            blank,
        } = self;
        let error = OpenError::NoMemory;
        let Some(journal) = blank.owned() else {
            return Err(OpenRefused { error, world });
        };
        let (front, moment) = (journal.front(), journal.moment(&world));
        world.interleaves();
        let Ok(mut writer) = writer_of(rt, alloc, &world, &front, passes) else {
            return Err(OpenRefused { error, world });
        };
        match seats::<J>(alloc, &mut writer, &front, &moment, passes) {
            Ok(all) => {
                let locked = Locked::new(alloc, world, journal, writer);
                let lock = Mutex::new(locked);
                Ok((Store { lock }, all))
            }
            Err(error) => {
                drop(writer.take(rt));
                Err(OpenRefused { error, world })
            }
        }
    }
}

fn page<D: Dirs>(alloc: Global, world: &World<D>, front: &Front) -> Result<Shown, AllocError>
    requires { IsFresh world.now }
    ensures page { IfOk result (λ p. (p.names ≡ named_of world.now.image) × (p.front ≡ front.now)) }
    ensures messages { IfOk result (λ p. AreMessages p.names) }
{
    let Ok(names) = TreeNames::of(alloc, world) else {
        return Err(AllocError);
    };
    names.are_messages();
    Ok(Shown::new(names, front.again()))
}

// The writer of the names that a world has now, which knows them.
fn writer_of<D: Dirs, R: Wait>(
    rt: &R,
    alloc: Global,
    world: &World<D>,
    front: &Front,
    passes: usize,
) -> Result<StoreWriter, AllocError>
    requires world { IsFresh world.now }
    requires passes { (0 < passes) × (passes ≤ 64) }
    requires front { front.now.log ≡ [] }
    ensures shown { IfOk result (λ w. w.desk.shown.value.front ≡ front.now) }
    ensures seat { IfOk result (λ w. (view w.desk.place ≡ knower (named_of world.now.image) w.desk.shown.value) × (drop w.behind w.log.items ≡ [])) }
{
    let first = page(alloc, world, front)?;
    let second = page(alloc, world, front)?;
    let mut writer = StoreWriter::new(alloc, first, second, passes)?;
    match publish(&mut writer, rt) {
        Ok(()) => Ok(writer),
        Err(error) => {
            drop(writer.take(rt));
            Err(error)
        }
    }
}

// A pass that knows which store it is of.
fn seat<J: Naming>(
    writer: &mut StoreWriter,
    front: &Front,
    moment: &Moment,
) -> Result<Pass<J>, AllocError>
    requires seat { view writer.old.desk.place ≡ knower J.opening writer.old.desk.shown.value }
    requires named { (writer.old.desk.shown.value.front.book ≡ J.book) × (front.now.book ≡ J.book) }
    requires front { front.now.log ≡ [] }
    requires moment { (moment.now.book ≡ J.book) × (moment.now.run ≡ J.begun) × IsRun J.begun }
    ensures kept { (writer.new.desk.shown ≡ writer.old.desk.shown) × (view writer.new.desk.place ≡ view writer.old.desk.place) }
    ensures log { (writer.new.log ≡ writer.old.log) × (writer.new.behind ≡ writer.old.behind) }
    ensures pass { IfOk result (λ p. p ≡ new_to J.begun) }
{
    let mut reader = writer.factory().reader()?;
    reader.learn::<Seats>(writer.tell::<Seats>());
    Ok(Pass::new(reader, front.again(), moment.again()))
}

fn seats<J: Naming>(
    alloc: Global,
    writer: &mut StoreWriter,
    front: &Front,
    moment: &Moment,
    count: usize,
) -> Result<Vec<Pass<J>>, OpenError>
    requires seat { view writer.old.desk.place ≡ knower J.opening writer.old.desk.shown.value }
    requires named { (writer.old.desk.shown.value.front.book ≡ J.book) × (front.now.book ≡ J.book) }
    requires front { front.now.log ≡ [] }
    requires moment { (moment.now.book ≡ J.book) × (moment.now.run ≡ J.begun) × IsRun J.begun }
    ensures kept { (writer.new.desk.shown ≡ writer.old.desk.shown) × (view writer.new.desk.place ≡ view writer.old.desk.place) }
    ensures log { (writer.new.log ≡ writer.old.log) × (writer.new.behind ≡ writer.old.behind) }
    ensures passes { IfOk result (λ v. (length v.items ≡ count) × All (λ p. p ≡ new_to J.begun) v.items) }
    ensures refused { IfErr result (λ e. (e ≡ refusal.NoMemory) ⊎ (e ≡ refusal.NoReader)) }
{
    let Ok(mut all) = Vec::with_capacity(alloc, count) else {
        return Err(OpenError::NoMemory);
    };
    for made in 0..count {
        prove!(all.len() == made);
        let Ok(pass) = seat::<J>(writer, front, moment) else {
            return Err(OpenError::NoReader);
        };
        if all.push(pass).is_err() {
            return Err(OpenError::NoMemory);
        }
    }
    Ok(all)
}
