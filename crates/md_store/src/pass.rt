// Passes, and listings that take no lock.
ghost use Rattle.std.specs.Prelude.{◌≡◌, ◌<◌, ◌≤◌, ◌⊎◌, true, false, length, IsTrue, IfOk, IfErr, IfSome, OnOk, OnErr, option_map};
ghost use mathlib.Core.List.{IsPrefix};
ghost use Rattle.left_right.specs.Sides.{view as seat_view};
ghost use Rattle.md_view.specs.Named.{AreMessages};
ghost use Rattle.md_listing.specs.Readings.{IsInOrder};
ghost use Rattle.md_store.specs.declared.error.ListError.TheVariants as refusal;
ghost use Rattle.md_store.specs.Listing.{named_after, IsLegalFrom, seen_in, IsLooked, Sees};
ghost use Rattle.md_core.specs.Stepping.{IsRun};
ghost use Rattle.md_store.specs.Ongoing.{IsSince, GoesOn};
ghost use Rattle.md_store.specs.Publishing.{IsOf};
ghost use Rattle.std.specs.Coded.{codes};
ghost use Rattle.md_name.specs.contracts.flags.Flags as flags;
ghost use Rattle.md_dirs.specs.State.{state_code};
ghost use Rattle.md_store.specs.Pages.{Held};

use crate::book::{Front, Moment};
use crate::error::ListError;
use crate::naming::Naming;
use crate::rule::{Learning, StoreReader};
use crate::shown::Shown;
use core::mem::replace_with;
use md_dirs::Place;
use md_view::{Entry, TreeNames};
use std::alloc::{AllocError, Global};
use std::marker::{Model, PhantomData};

/// A caller's token: a reader, the history that the caller has seen or was told of, and the run of the store as far as it was told of that.
/// Contracts see that history, legal from the names at the opening, and that run, a beginning of the store's own.
///
/// A pass of another store can't be given to a call: a naming type names one store, so that pass has another type. Nor can one that was
/// dropped: it was moved away. What it held is lost, unless another pass has learned it, and nobody gets its seat.
#[derive(Drop)]
pub struct Pass<J: Naming> {
    reader: StoreReader,
    front: Front,
    moment: Moment,
    of: PhantomData<J>,
}

impl<J: Naming> Model for Pass<J> {
    ghost Value = { Held };

    ghost coded = { Prim.hlevel (codes, state_code, flags.the_row.coded) };

    ghost view = { λ p. record { history = p.front.log; run = p.moment.run } };

    ghost invariant = { λ p. IsOf J.opening J.book (seat_view p.reader.place) × (p.front.book ≡ J.book) × IsLegalFrom J.opening p.front.log
        × (p.moment.book ≡ J.book) × IsSince J.begun p.moment.run × IsRun p.moment.run };
}

impl<J: Naming> Pass<J> {
    pub(crate) fn new(reader: StoreReader, front: Front, moment: Moment) -> Pass<J>
        requires named { IsOf J.opening J.book (seat_view reader.place) × (front.book ≡ J.book) × (moment.book ≡ J.book) }
        requires legal { IsLegalFrom J.opening front.log }
        requires run { IsSince J.begun moment.run × IsRun moment.run }
        ensures { (result.history ≡ front.log) × (result.run ≡ moment.run) }
    {
        Pass {
            reader,
            front,
            moment,
            of: PhantomData,
        }
    }

    /// How many effects it holds.
    pub fn len(&self) -> u64
        ensures { result ≡ length self.now.history }
    {
        self.front.len()
    }

    /// What the type keeps: its history is legal from the names at the opening, and its run goes on from the one at the opening.
    pub fn is_legal(&self)
        ensures legal { IsLegalFrom J.opening self.now.history }
        ensures since { IsSince J.begun self.now.run }
        ensures run { IsRun self.now.run }
    {
        // A field is looked at, so that what the type keeps is known here.
        let _kept = &self.front;
    }

    /// Whether it holds no more than another pass: then the other begins with all that it holds, and otherwise it with all of the other's.
    pub fn begins(&self, other: &Pass<J>) -> bool
        ensures yes { IsTrue result → IsPrefix self.now.history other.now.history }
        ensures no { (result ≡ false) → IsPrefix other.now.history self.now.history }
    {
        self.front.begins(&other.front)
    }

    /// Tells the pass of all that another holds, as a caller that was sent word by another may do: the next listing begins with that.
    pub fn learn_from(&mut self, other: &Pass<J>)
        ensures held { IsPrefix self.old.history self.new.history }
        ensures told { IsPrefix other.now.history self.new.history }
        ensures one { (self.new.history ≡ self.old.history) ⊎ (self.new.history ≡ other.now.history) }
        ensures legal { IsLegalFrom J.opening self.new.history }
        ensures own { GoesOn self.old.run self.new.run × GoesOn other.now.run self.new.run }
    {
        other.is_legal();
        let moment = self.moment.later(&other.moment);
        self.learn(&other.front);
        self.know(moment);
    }

    pub(crate) fn front(&self) -> &Front
        ensures { (result.now.log ≡ self.now.history) × (result.now.book ≡ J.book) }
    {
        &self.front
    }

    pub(crate) fn moment(&self) -> &Moment
        ensures { (result.now.run ≡ self.now.run) × (result.now.book ≡ J.book) }
    {
        &self.moment
    }

    /// Tells the pass of the run of its store, which goes on from the one that it holds.
    pub(crate) fn know(&mut self, moment: Moment)
        requires book { moment.book ≡ J.book }
        requires run { IsSince J.begun moment.run × IsRun moment.run }
        ensures { (self.new.history ≡ self.old.history) × (self.new.run ≡ moment.run) }
    {
        self.moment = moment;
    }

    /// Tells the pass of a legal history.
    pub(crate) fn learn(&mut self, front: &Front)
        requires book { front.now.book ≡ J.book }
        requires legal { IsLegalFrom J.opening front.now.log }
        ensures held { IsPrefix self.old.history self.new.history }
        ensures told { IsPrefix front.now.log self.new.history }
        ensures one { (self.new.history ≡ self.old.history) ⊎ (self.new.history ≡ front.now.log) }
        ensures legal { IsLegalFrom J.opening self.new.history }
        ensures run { self.new.run ≡ self.old.run }
    {
        self.front = self.front.longer(front);
    }

    /// What is published now of a folder, behind all of a history: its new, or the join of a first reading with its cur. It takes no lock.
    pub(crate) fn read(
        &mut self,
        alloc: Global,
        folder: u32,
        first: Option<&[Entry]>,
        held: &Front,
    ) -> Result<Vec<Entry>, ListError>
        requires order { IfSome first (λ entries. IsInOrder entries.now) }
        requires book { held.now.book ≡ J.book }
        ensures held { OnOk result (IsPrefix held.now.log self.new.history) }
        ensures legal { IsLegalFrom J.opening self.new.history }
        ensures run { self.new.run ≡ self.old.run }
        ensures messages { OnOk result (AreMessages J.opening) }
        ensures folder { OnOk result (folder < J.opening.folders) }
        ensures no_folder { IfErr result (λ e. e ≡ refusal.NoFolder → J.opening.folders ≤ folder) }
        ensures no_memory { IfErr result (λ e. e ≡ refusal.NoMemory → folder < J.opening.folders) }
        ensures entries { IfOk result (λ v. v.items ≡ seen_in (option_map (λ entries. entries.now) first.entry) folder (named_after J.opening self.new.history).names) }
        ensures err { OnErr result (self.new ≡ self.old) }
    {
        let (entries, seen) = replace_with(
            &mut self.reader,
            (alloc, folder, first, held),
            entered,
        )?;
        self.front = seen;
        Ok(entries)
    }
}

fn entered(
    reader: StoreReader,
    x: (Global, u32, Option<&[Entry]>, &Front),
) -> (StoreReader, Result<(Vec<Entry>, Front), ListError>)
    requires seat { ((seat_view reader.place).opened ≡ true) × (x.3.now.book ≡ (seat_view reader.place).held.book) }
    requires order { IfSome x.2 (λ entries. IsInOrder entries.now) }
    ensures kept { IsOf (seat_view reader.place).opening (seat_view reader.place).held.book (seat_view result.0.place) }
    ensures entries { IfOk result.1 (λ r.
        Sees (seat_view reader.place) x.entry.3.now.log x.entry.1 (option_map (λ entries. entries.now) x.entry.2) r.0.items r.1) }
    ensures no_folder { IfErr result.1 (λ e. e ≡ refusal.NoFolder → (seat_view reader.place).opening.folders ≤ x.entry.1) }
    ensures no_memory { IfErr result.1 (λ e. e ≡ refusal.NoMemory → x.entry.1 < (seat_view reader.place).opening.folders) }
{
    match reader.enter_as::<Learning>() {
        Ok(reading) => {
            let looked = look(reading.get(), x.0, x.1, x.2, x.3);
            (reading.leave(), looked)
        }
        Err(reader) => (reader, Err(ListError::Closed)),
    }
}

// What a page shows of a folder, where it begins with what is held.
fn look(
    shown: &Shown,
    alloc: Global,
    folder: u32,
    first: Option<&[Entry]>,
    held: &Front,
) -> Result<(Vec<Entry>, Front), ListError>
    requires book { held.now.book ≡ shown.now.front.book }
    requires order { IfSome first (λ entries. IsInOrder entries.now) }
    ensures ok { IfOk result (λ r. IsLooked shown.now held.now.log folder (option_map (λ entries. entries.now) first.entry) r.0.items r.1) }
    ensures no_folder { IfErr result (λ e. e ≡ refusal.NoFolder → shown.now.names.folders ≤ folder) }
    ensures no_memory { IfErr result (λ e. e ≡ refusal.NoMemory → folder < shown.now.names.folders) }
{
    let front = shown.front();
    if !held.begins(front) {
        return Err(ListError::Closed);
    }
    let names = shown.names();
    if folder >= names.folders() {
        return Err(ListError::NoFolder);
    }
    let entries = seen(alloc, names, folder, first)?;
    Ok((entries, front.again()))
}

fn seen(
    alloc: Global,
    names: &TreeNames,
    folder: u32,
    first: Option<&[Entry]>,
) -> Result<Vec<Entry>, AllocError>
    requires { IfSome first (λ entries. IsInOrder entries.now) }
    ensures { IfOk result (λ all. all.items ≡ seen_in (option_map (λ entries. entries.now) first.entry) folder names.now.names) }
{
    match first {
        None => names.read(alloc, folder, Place::New),
        Some(new) => names.join_cur(alloc, new, folder),
    }
}
