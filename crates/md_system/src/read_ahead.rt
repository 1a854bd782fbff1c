//! What one reading of a folder tells many errands.
ghost use Rattle.std.specs.Prelude.{◌≡◌, ℕ, List, false, true, IfOk, IfSome, IsTrue, Some, slice_get};
ghost use Rattle.md_jobs.specs.declared.purpose.Purpose.{Purpose as PurposeView};
ghost use Rattle.md_system.specs.Hints.{IsActedOn, MayTell, names_ahead};

use crate::acting::{acts_on, looks_on};
use crate::found::Found;
use crate::shown::Shown;
use crate::told::Told;
use md_dirs::{Bytes, Place, is_named};
use md_jobs::Purpose;
use std::alloc::{AllocError, Global};

/// What new and cur of a folder showed.
#[derive(Drop)]
pub struct ReadAhead {
    pub folder: u32,
    pub news: Shown,
    pub curs: Shown,
    /// Whether both rested, and errands run that were asked for before.
    pub counts: bool,
}

impl ReadAhead {
    /// Nothing was read.
    pub(crate) fn nothing(alloc: Global) -> ReadAhead
        ensures { result.counts ≡ false }
    {
        ReadAhead {
            folder: 0,
            news: Shown::nothing(alloc),
            curs: Shown::nothing(alloc),
            counts: false,
        }
    }

    /// What an errand is told that looks in a place for a message. A name is told once. Refused only when out of memory, and then nothing
    /// has changed.
    pub(crate) fn tell(
        &mut self,
        alloc: Global,
        place: Place,
        unique: &[u8],
        purpose: &Purpose,
    ) -> Result<Told, AllocError>
        ensures told { IfOk result (MayTell self.old purpose.now place unique.now) }
        ensures kept { self.new ≡ self.old }
    {
        if self.counts {
            self.tell_shown(alloc, place, unique)
        } else {
            self.tell_hint(alloc, place, unique, purpose)
        }
    }

    /// The names of a message are told no more.
    pub(crate) fn forget(&mut self, unique: &[u8])
        ensures { self.new ≡ self.old }
    {
        self.news.forget(unique);
        self.curs.forget(unique);
    }

    // What a reading that counts showed. An errand whose message another one was told is told nothing: it may have another name by now.
    #[tactic(auto, using(crate::proofs::Positions::one_shown))]
    fn tell_shown(&mut self, alloc: Global, place: Place, unique: &[u8]) -> Result<Told, AllocError>
        requires { self.old.counts ≡ true }
        ensures told { IfOk result (λ told. (purpose : PurposeView) → MayTell self.old purpose place unique.now told) }
        ensures kept { self.new ≡ self.old }
    {
        match self.shown(place).find(unique) {
            Found::One(at) => match self.take(alloc, place, at)? {
                Some(name) => Ok(Told::Shown(Found::One(name))),
                None => Ok(Told::Nothing),
            },
            Found::None if is_told(&self.news, unique) || is_told(&self.curs, unique) => {
                Ok(Told::Nothing)
            }
            Found::None => Ok(Told::Shown(Found::None)),
            Found::Many => Ok(Told::Shown(Found::Many)),
        }
    }

    // What an errand acts on.
    fn tell_hint(
        &mut self,
        alloc: Global,
        place: Place,
        unique: &[u8],
        purpose: &Purpose,
    ) -> Result<Told, AllocError>
        ensures told { IfOk result (MayTell self.old purpose.now place unique.now) }
        ensures kept { self.new ≡ self.old }
    {
        match self.shown(place).find(unique) {
            Found::One(at) if self.is_acted_on(place, at, unique, purpose) => {
                match self.take(alloc, place, at)? {
                    Some(name) => Ok(Told::Name(name)),
                    None => Ok(Told::Nothing),
                }
            }
            Found::None if looks_on(purpose, place) && self.is_in_cur(unique, purpose) => {
                Ok(Told::Elsewhere)
            }
            _ => Ok(Told::Nothing),
        }
    }

    // Whether there is one name of a message in cur, and the errand acts on it. It is told that when it looks in cur.
    fn is_in_cur(&self, unique: &[u8], purpose: &Purpose) -> bool {
        match self.curs.find(unique) {
            Found::One(at) => self.is_acted_on(Place::Cur, at, unique, purpose),
            Found::None | Found::Many => false,
        }
    }

    // Whether the name at a position is of the message, no errand was told it, and this one acts on it.
    fn is_acted_on(&self, place: Place, at: usize, unique: &[u8], purpose: &Purpose) -> bool
        ensures { IsTrue result → (name : List ℕ) → slice_get (names_ahead self.now place) at ≡ Some name
            → IsActedOn purpose.now unique.now name }
    {
        match self.shown(place).untold(at) {
            Some(name) => is_named(name.as_slice(), unique) && acts_on(purpose, name.as_slice()),
            None => false,
        }
    }

    fn shown(&self, place: Place) -> &Shown
        ensures { result.now ≡ names_ahead self.now place }
    {
        match place {
            Place::Cur => &self.curs,
            Place::Tmp | Place::New => &self.news,
        }
    }

    // The name at a position, which is told now, unless an errand was told it.
    fn take(&mut self, alloc: Global, place: Place, at: usize) -> Result<Option<Bytes>, AllocError>
        ensures name { IfOk result (λ taken. IfSome taken (λ name. slice_get (names_ahead self.old place) at ≡ Some name)) }
        ensures kept { self.new ≡ self.old }
    {
        match place {
            Place::Cur => self.curs.take(alloc, at),
            Place::Tmp | Place::New => self.news.take(alloc, at),
        }
    }
}

// Whether an errand was told the one name of a message.
fn is_told(shown: &Shown, unique: &[u8]) -> bool {
    match shown.find(unique) {
        Found::One(at) => shown.untold(at).is_none(),
        Found::None | Found::Many => false,
    }
}
