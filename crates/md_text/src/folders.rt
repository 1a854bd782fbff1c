//! Folders, by their names and their numbers.
ghost use Rattle.std.specs.Prelude.{◌≡◌, ◌<◌, ◌^◌, ◌++◌, ◌∷◌, [], ℕ, List, length, vec_len, Some, None, OnOk, OnErr, IfSome, position, if◌then◌else◌};
ghost use Rattle.std.specs.Option.{option_or};
ghost use Rattle.std.specs.Str.{bytes_eq};
ghost use Rattle.md_dirs.specs.Index.{get_name};
ghost use Rattle.md_text.specs.Folders.{names_of, place_of, ArePlaces};

use indexmap::IndexMap;
use md_dirs::NameKey;
use std::alloc::{AllocError, Global};
use std::marker::Model;

/// How many names are looked at one by one. Where there are more, a look-up by hash costs less.
const FEW: usize = 4;

/// The names of folders, in the order in which they were named, and where each name is, by its hash. Contracts see the list of the names.
#[derive(Drop)]
pub struct Folders {
    alloc: Global,
    names: Vec<Vec<u8>>,
    places: IndexMap<NameKey<'static>, u32>,
}

impl Model for Folders {
    ghost Value = { List (List ℕ) };

    ghost view = { λ f. names_of f.names.items };

    ghost invariant = { λ f. (vec_len f.names < 2 ^ 32) × ArePlaces f.names.items f.places.entries };
}

impl Folders {
    /// No folder.
    pub fn new(alloc: Global) -> Self
        ensures { result ≡ [] }
    {
        Folders {
            alloc,
            names: Vec::new(alloc),
            places: IndexMap::new(alloc),
        }
    }

    /// How many folders there are.
    pub fn count(&self) -> u32
        ensures { result ≡ length self.now }
    {
        self.names.len() as u32
    }

    /// The number of the folder with this name, counted from 0.
    pub fn place(&self, name: &[u8]) -> Option<u32>
        ensures { result ≡ place_of self.now name.now }
    {
        if self.names.len() > FEW {
            return place_by_hash(&self.places, name);
        }
        let at = position(&self.names, name)?;
        Some(at as u32)
    }

    /// The names, in their order. It takes no memory.
    pub fn into_names(self) -> Vec<Vec<u8>>
        ensures { names_of result.items ≡ self }
    {
        self.names
    }

    /// Adds a folder after the others. No memory holds 2^32 of them.
    pub fn add(&mut self, name: &[u8]) -> Result<(), AllocError>
        ensures ok { OnOk result (self.new ≡ self.old ++ name.now ∷ []) }
        ensures err { OnErr result (self.new ≡ self.old) }
    {
        let at = self.count();
        if at == u32::MAX {
            return Err(AllocError);
        }
        self.names.reserve(1)?;
        let held = Vec::from_slice(self.alloc, name)?;
        note_place(&mut self.places, self.alloc, name, at)?;
        self.names.push_reserved(held);
        Ok(())
    }
}

fn position(names: &[Vec<u8>], name: &[u8]) -> Option<usize>
    ensures value { result ≡ position (λ other. bytes_eq other.items name.now) names.now }
    ensures within { IfSome result (λ at. at < length names.now) }
{
    names.iter().position(|other| is_same(other, name))
}

// The number of the folder with this name, by its hash.
fn place_by_hash(places: &IndexMap<NameKey<'static>, u32>, name: &[u8]) -> Option<u32>
    ensures { result ≡ get_name places.now.entries name.now }
{
    let key = NameKey::lent(name);
    places.get(&key).copied()
}

// Says which number the folder with this name has, unless one that came before has the name.
fn note_place(
    places: &mut IndexMap<NameKey<'static>, u32>,
    alloc: Global,
    name: &[u8],
    at: u32,
) -> Result<(), AllocError>
    ensures places { OnOk result ((q : _) → get_name places.new.entries q
        ≡ option_or (get_name places.old.entries q) (if bytes_eq name.now q then Some at else None)) }
    ensures err { OnErr result (places.new.entries ≡ places.old.entries) }
{
    if place_by_hash(places, name).is_some() {
        return Ok(());
    }
    let key = NameKey::owned(Vec::from_slice(alloc, name)?);
    places.insert(key, at)?;
    Ok(())
}

// Whether two names are the same. Those of a script mostly differ in their last byte, which is looked at first.
fn is_same(first: &[u8], second: &[u8]) -> bool
    ensures { result ≡ bytes_eq first.now second.now }
{
    first.last() == second.last() && first == second
}
