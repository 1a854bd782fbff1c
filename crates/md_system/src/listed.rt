//! What a listing of a folder shows.
ghost use Rattle.std.specs.Prelude.{◌≡◌, IfOk, map, not, filter};
ghost use Rattle.std.specs.List.Sorted.{IsPermutation};
ghost use Rattle.md_name.specs.Names.{unique_of};
ghost use Rattle.md_system.specs.Listings.{IsListing, IsInOrder, has_unique, listed_in, names_of};

use md_dirs::{Bytes, Place};
use md_name::unique_part;
use std::alloc::{AllocError, Global};

/// A message of a listing: where it is, and its whole name.
#[derive(Drop)]
pub struct Listed {
    pub place: Place,
    pub name: Bytes,
}

/// The messages of a folder of which a reading of new and then one of cur showed these names, in order of the bytes of their unique names. A
/// message that both show is where cur shows it. It takes n log n time, and is refused only when out of memory.
pub fn joined(alloc: Global, news: Vec<Bytes>, curs: Vec<Bytes>) -> Result<Vec<Listed>, AllocError>
    ensures { IfOk result (λ listing. IsListing news.items curs.items listing.items) }
{
    let mut listed = placed(alloc, curs, Place::Cur)?;
    let mut unseen = placed(alloc, news, Place::New)?;
    keep_unseen(listed.as_slice(), &mut unseen);
    listed.append(&mut unseen)?;
    sort(&mut listed);
    Ok(listed)
}

// Names of one place, in order.
fn placed(alloc: Global, names: Vec<Bytes>, place: Place) -> Result<Vec<Listed>, AllocError>
    ensures names { IfOk result (λ listed. IsPermutation (map (listed_in place) names.items) listed.items) }
    ensures order { IfOk result (λ listed. IsInOrder listed.items) }
{
    let mut listed = Vec::new(alloc);
    for name in names {
        listed.push(Listed { place, name })?;
    }
    sort(&mut listed);
    Ok(listed)
}

// Takes away the messages that others, which are in order, have too.
fn keep_unseen(others: &[Listed], listed: &mut Vec<Listed>)
    requires { IsInOrder others.now }
    ensures { listed.new.items ≡ filter (λ m. not (has_unique (names_of others.now) (unique_of m.name))) listed.old.items }
{
    listed.retain(|message| !holds(others, message.name.as_slice()));
}

fn sort(listed: &mut Vec<Listed>)
    ensures same { IsPermutation listed.old.items listed.new.items }
    ensures order { IsInOrder listed.new.items }
{
    listed.sort_unstable_by(|a, b| {
        unique_part(a.name.as_slice()).cmp(unique_part(b.name.as_slice()))
    });
}

// Whether messages that are in order have one of this name's unique part.
fn holds(listed: &[Listed], name: &[u8]) -> bool
    requires { IsInOrder listed.now }
    ensures { result ≡ has_unique (names_of listed.now) (unique_of name.now) }
{
    let unique = unique_part(name);
    listed
        .binary_search_by(|entry| unique_part(entry.name.as_slice()).cmp(unique))
        .is_ok()
}
