//! Listings that have begun, of each folder at most one.
ghost use Rattle.std.specs.Prelude.{◌≡◌, ◌==◌, ◌++◌, ◌∷◌, [], OnOk, OnErr, option_map, not, filter};
ghost use Rattle.std.specs.List.{find};

use md_view::BegunListing;
use std::alloc::AllocError;

/// Keeps a listing in place of an older one of its folder, which goes also where memory runs out.
pub(super) fn keep(kept: &mut Vec<BegunListing>, listing: BegunListing) -> Result<(), AllocError>
    ensures ok { OnOk result (kept.new.items ≡ filter (λ l. not (l.folder == listing.folder)) kept.old.items ++ listing ∷ []) }
    ensures err { OnErr result (kept.new.items ≡ filter (λ l. not (l.folder == listing.folder)) kept.old.items) }
{
    use_up(kept, listing.folder);
    kept.push(listing)?;
    Ok(())
}

/// Lets the listing of a folder go, if one is kept.
pub(super) fn use_up(kept: &mut Vec<BegunListing>, folder: u32)
    ensures { kept.new.items ≡ filter (λ l. not (l.folder == folder)) kept.old.items }
{
    kept.retain(|listing| listing.folder != folder);
}

/// The kept listing of a folder.
pub(super) fn kept_of(kept: &[BegunListing], folder: u32) -> Option<&BegunListing>
    ensures { option_map (λ l. l.now) result ≡ find (λ l. l.folder == folder) kept.now }
{
    kept.iter().find(|listing| listing.folder == folder)
}
