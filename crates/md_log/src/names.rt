//! The names of folders, files and messages, as words with escapes spell them.
ghost use Rattle.std.specs.Prelude.{◌≡◌, ◌||◌, List, ℕ, codes};
ghost use Rattle.std.specs.List.{list_any};
ghost use Rattle.std.specs.Option.{option_copied};
ghost use Rattle.std.specs.Str.{bytes_eq};
ghost use Rattle.md_log.specs.Words.{Gives};
ghost use Rattle.md_log.specs.Names.{is_barred, is_name, name_of, unique_name_of, names_at};

use crate::error::LineFault;
use crate::words::word;
use md_dirs::Bytes;
use md_text::{Rest, unescape};
use std::alloc::Global;
use std::marker::Model;

/// The longest name, in bytes.
const LONGEST_NAME: usize = 255;

/// Names, in their order. Contracts see the list of them.
#[derive(Drop)]
pub struct Names {
    names: Vec<Bytes>,
}

impl Model for Names {
    ghost Value = { List (List ℕ) };

    ghost view = { λ n. n.names.items };
}

impl Names {
    /// The names, lent.
    pub fn as_slice(&self) -> &[Bytes]
        ensures { result.now ≡ self.now }
    {
        self.names.as_slice()
    }
}

/// The name that a word with escapes spells: 1 to 255 bytes, no slash, no NUL, and not `.` or `..`.
#[tactic(auto, unfolding(crate::specs::Names::name_of))]
pub(crate) fn name(alloc: Global, word: &[u8]) -> Result<Bytes, LineFault>
    ensures { Gives (λ name. name) result (name_of word.now) }
{
    let bytes = unescape(alloc, true, word)?.ok_or(LineFault::BadEscape)?;
    if !is_name(&bytes) {
        return Err(LineFault::BadName);
    }
    Ok(Bytes::of(bytes))
}

/// The unique name that a word spells: a name with no colon, and no dot in front.
#[tactic(auto, unfolding(crate::specs::Names::unique_name_of))]
pub(crate) fn unique(alloc: Global, word: &[u8]) -> Result<Bytes, LineFault>
    ensures { Gives (λ name. name) result (unique_name_of word.now) }
{
    let bytes = name(alloc, word)?;
    let name = bytes.as_slice();
    if name.starts_with(b".") || name.contains(&b':') {
        return Err(LineFault::BadName);
    }
    Ok(bytes)
}

/// The names in the rest of a line.
pub(crate) fn names_in(alloc: Global, rest: Rest<'_>) -> Result<Names, LineFault>
    ensures { Gives (λ names. names) result (names_at (option_copied rest.entry)) }
{
    let mut names = Vec::new(alloc);
    let mut left = rest;
    while left.is_some() {
        let (word, others) = word(left)?;
        names.push(name(alloc, word)?)?;
        left = others;
    }
    Ok(Names { names })
}

#[tactic(auto, unfolding(crate::specs::Names::is_name))]
fn is_name(name: &[u8]) -> bool
    ensures { result ≡ is_name name.now }
{
    !name.is_empty() && name.len() <= LONGEST_NAME && !is_dots(name) && !has_barred(name)
}

fn is_dots(name: &[u8]) -> bool
    ensures { result ≡ (bytes_eq name.now (codes ".") || bytes_eq name.now (codes "..")) }
{
    name == b".".as_slice() || name == b"..".as_slice()
}

fn has_barred(name: &[u8]) -> bool
    ensures { result ≡ list_any is_barred name.now }
{
    name.contains(&b'/') | name.contains(&0)
}
