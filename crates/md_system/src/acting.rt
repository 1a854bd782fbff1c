//! What an errand will do with a name that it is told.
ghost use Rattle.std.specs.Prelude.{◌≡◌, ◌↔◌, IsTrue, Some};
ghost use Rattle.md_dirs.specs.declared.paths.Place.TheVariants.{Cur};
ghost use Rattle.md_jobs.specs.declared.purpose.Decision.TheVariants.{Act};
ghost use Rattle.md_jobs.specs.Machines.Purposes.{decide, info_in, place_after, searches};

use md_dirs::Place;
use md_jobs::{Decision, Purpose};

/// Whether an errand acts on a message of this name, by a call that fails where the name is gone. It does not where it refuses the message,
/// or finds it as it should be.
pub fn acts_on(purpose: &Purpose, name: &[u8]) -> bool
    ensures { IsTrue result ↔ (decide purpose.now (info_in name.now) ≡ Act) }
{
    let (decision, _) = purpose.decide(name);
    matches!(decision, Decision::Act)
}

/// Whether an errand that has not found its message in this place looks in cur.
pub(crate) fn looks_on(purpose: &Purpose, place: Place) -> bool
    ensures { IsTrue result ↔ (place_after (searches purpose.now) place ≡ Some Cur) }
{
    matches!(place, Place::New) && matches!(purpose, Purpose::Move { .. } | Purpose::Copy { .. })
}
