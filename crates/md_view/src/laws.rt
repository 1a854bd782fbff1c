//! What a listing is good for, and which changes fit the names of a store. A law is a function that does nothing, whose caller may rely on it.
ghost use Rattle.std.specs.Prelude.{◌≡◌, ◌≤◌, List, true};
ghost use Rattle.md_core.specs.History.{names_of, names_after, IsAllowedAfter, IsLegal};
ghost use Rattle.md_core.specs.Mailbox.{mailbox_of};
ghost use Rattle.md_core.specs.Runs.{Run, dirs_of};
ghost use Rattle.md_core.specs.Stepping.{IsRun};
ghost use Rattle.md_jobs.specs.declared.effect.Effect.{Effect as EffectSeen};
ghost use Rattle.md_listing.specs.declared.listing.BegunListing.{BegunListing};
ghost use Rattle.md_listing.specs.Law.{names_at, names_after_first, listing_of, IsGoodListing, HasBegun, Continues};
ghost use Rattle.md_view.specs.Named.{Named, AreMessages, fits};

use md_core::{Effect, World};
use md_dirs::Dirs;

/// The listing law. New of a folder was read at one moment of a world's run, cur at the same or a later one, and the two were joined. Then
/// the listing shows each unique name as it was in the folder at some moment from the one to the other, there or not there; a message that
/// is in the folder at both moments is listed; and none is listed twice.
pub fn a_listing_is_good<D: Dirs>(world: &World<D>, folder: u32, read_new: usize, read_cur: usize)
    requires { read_new ≤ read_cur }
    ensures { IsGoodListing (names_at world.now) folder read_new read_cur (listing_of (names_at world.now) folder read_new read_cur) }
{
    world.interleaves();
    md_core::laws::names_show_their_directories();
    md_core::laws::legal_histories_keep_messages_out_of_new();
}

/// The same for whoever sees effects alone, and no steps: the moments are those of any legal history from the names of a world.
pub fn a_listing_of_histories_is_good<D: Dirs>(
    opening: &World<D>,
    history: &[Effect],
    folder: u32,
    read_new: usize,
    read_cur: usize,
)
    requires legal { IsLegal (dirs_of opening.now).folders (names_of (mailbox_of (dirs_of opening.now))) history.now }
    requires order { read_new ≤ read_cur }
    ensures { IsGoodListing (names_after_first (names_of (mailbox_of (dirs_of opening.now))) history.now) folder read_new read_cur
        (listing_of (names_after_first (names_of (mailbox_of (dirs_of opening.now))) history.now) folder read_new read_cur) }
{
    md_core::laws::names_show_their_directories();
    md_core::laws::legal_histories_keep_messages_out_of_new();
}

/// A listing that has begun may be finished after any steps of the world's jobs, and after calls that were submitted.
pub fn a_listing_may_wait()
    ensures { (before later : Run) → IsRun before → IsRun later → Continues before later
        → (listing : BegunListing) → HasBegun before listing → HasBegun later listing }
{
    md_core::laws::steps_keep_moments();
    md_core::laws::calls_keep_moments();
}

/// What a legal history allows fits: where a history led to names of messages, the change of every effect that is allowed next fits
/// them, so `Names::apply` makes it.
pub fn what_is_allowed_fits()
    ensures { (opening : Named) (history : List EffectSeen) (next : EffectSeen) → AreMessages (record opening { names = names_after opening.names history })
        → IsAllowedAfter opening.folders opening.names history next → fits (record opening { names = names_after opening.names history }) next.change ≡ true }
{}
