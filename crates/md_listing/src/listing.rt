// A listing whose two readings are made at two moments.
ghost use Rattle.std.specs.Prelude.{◌≡◌, ◌<◌, length, IfOk, IfErr};
ghost use Rattle.md_core.specs.Runs.{dirs_of};
ghost use Rattle.md_listing.specs.Readings.{reading_refusal};
ghost use Rattle.md_listing.specs.Law.{names_at, listing_of, HasBegun, IsGoodListing};

use crate::entry::{Entry, copied};
use crate::error::ViewError;
use crate::merging::Listing;
use crate::owned::Owned;
use crate::read::lent_reading;
use md_core::World;
use md_dirs::{Dirs, Place};
use std::alloc::Global;

/// A listing of a folder that has begun: new was read, and cur is still to be read. Jobs may take steps until then.
///
/// New comes first because messages go from new to cur and never back: one that goes to cur between the two readings is in both, and with
/// the readings the other way round it would be in neither.
#[derive(Debug, Drop)]
pub struct BegunListing {
    pub folder: u32,
    /// How many steps the world had taken when new was read.
    pub begun: usize,
    /// The entries of new, in order of unique name.
    new: Owned,
}

impl BegunListing {
    /// Reads new of a folder. It is refused as `reading` is. Call `World::arrange` first: if the names aren't in order, each reading sorts
    /// them anew.
    pub fn begin<D: Dirs>(
        alloc: Global,
        world: &World<D>,
        folder: u32,
    ) -> Result<BegunListing, ViewError>
        ensures begun { IfOk result (λ listing. HasBegun world.now listing) }
        ensures folder { IfOk result (λ listing. listing.folder ≡ folder) }
        ensures there { IfOk result (λ _. folder < (dirs_of world.now).folders) }
        ensures moment { IfOk result (λ listing. listing.begun ≡ length world.now.events) }
        ensures refusal { IfErr result (λ error. error ≡ reading_refusal (dirs_of world.now) folder) }
    {
        world.interleaves();
        let new = lent_reading(alloc, world, folder, Place::New)?;
        let new = Owned::copied(alloc, &new)?;
        let begun = world.log().len();
        Ok(BegunListing { folder, begun, new })
    }

    /// Reads cur, at the same or a later moment of the same world, and joins the two. By the listing law the result shows each unique name
    /// as it was in the folder at some moment between the two readings. It is refused as `reading` is. Call `World::arrange` first, as for
    /// `begin`.
    pub fn finish<D: Dirs>(&self, alloc: Global, world: &World<D>) -> Result<Vec<Entry>, ViewError>
        requires { HasBegun world.now self.now }
        ensures entries { IfOk result (λ all. all.items ≡ listing_of (names_at world.now) self.now.folder self.now.begun (length world.now.events)) }
        ensures folder { IfOk result (λ _. self.now.folder < (dirs_of world.now).folders) }
        ensures law { IfOk result (λ all. IsGoodListing (names_at world.now) self.now.folder self.now.begun (length world.now.events) all.items) }
        ensures refusal { IfErr result (λ error. error ≡ reading_refusal (dirs_of world.now) self.now.folder) }
    {
        let all = self.finish_lent(alloc, world)?.into_vec(alloc)?;
        Ok(copied(alloc, &all)?)
    }

    /// The same, each entry lent by this listing or by the world: no name is copied. Call `World::arrange` first, as for `begin`.
    pub fn finish_lent<'a, D: Dirs>(
        &'a self,
        alloc: Global,
        world: &'a World<D>,
    ) -> Result<Listing<'a>, ViewError>
        requires { HasBegun world.now self.now }
        ensures entries { IfOk result (λ listing. listing ≡ listing_of (names_at world.now) self.now.folder self.now.begun (length world.now.events)) }
        ensures folder { IfOk result (λ _. self.now.folder < (dirs_of world.now).folders) }
        ensures law { IfOk result (λ listing. IsGoodListing (names_at world.now) self.now.folder self.now.begun (length world.now.events) listing) }
        ensures refusal { IfErr result (λ error. error ≡ reading_refusal (dirs_of world.now) self.now.folder) }
    {
        world.interleaves();
        md_core::laws::names_show_their_directories();
        md_core::laws::legal_histories_keep_messages_out_of_new();
        let cur = lent_reading(alloc, world, self.folder, Place::Cur)?;
        let new = self.new.lent(alloc)?;
        Ok(Listing::of(new, cur))
    }
}

/// The listing of a folder whose readings are made at one moment: its messages now, by unique name. It is refused as `reading` is. Call
/// `World::arrange` first: if the names aren't in order, each reading sorts them anew.
pub fn list<D: Dirs>(alloc: Global, world: &World<D>, folder: u32) -> Result<Vec<Entry>, ViewError>
    ensures entries { IfOk result (λ all. all.items ≡ listing_of (names_at world.now) folder (length world.now.events) (length world.now.events)) }
    ensures folder { IfOk result (λ _. folder < (dirs_of world.now).folders) }
    ensures refusal { IfErr result (λ error. error ≡ reading_refusal (dirs_of world.now) folder) }
{
    let all = list_lent(alloc, world, folder)?.into_vec(alloc)?;
    Ok(copied(alloc, &all)?)
}

/// The same, each entry lent by the world: no name is copied. Call `World::arrange` first, as for `list`.
pub fn list_lent<'a, D: Dirs>(
    alloc: Global,
    world: &'a World<D>,
    folder: u32,
) -> Result<Listing<'a>, ViewError>
    ensures entries { IfOk result (λ listing. listing ≡ listing_of (names_at world.now) folder (length world.now.events) (length world.now.events)) }
    ensures folder { IfOk result (λ _. folder < (dirs_of world.now).folders) }
    ensures refusal { IfErr result (λ error. error ≡ reading_refusal (dirs_of world.now) folder) }
{
    world.interleaves();
    let new = lent_reading(alloc, world, folder, Place::New)?;
    let cur = lent_reading(alloc, world, folder, Place::Cur)?;
    Ok(Listing::of(new, cur))
}
