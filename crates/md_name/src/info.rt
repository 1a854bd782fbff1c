//! The info of a message, and the name that it is in.
ghost use Rattle.std.specs.Prelude.{◌≡◌, ◌<◌, length, position, option_map, IfSome, MatchResult};
ghost use Rattle.md_name.specs.declared.error.NameError.TheVariants.{NoMemory};
ghost use Rattle.md_name.specs.Names.{is_colon, unique_of, info_of, info_by, flags_of, is_message_name, split_of, flagged};

use crate::blocks::{Colon, first};
use crate::error::NameError;
use crate::flags::Flags;
use std::alloc::Global;

/// The byte that ends the unique part of a name.
pub(crate) const COLON: u8 = b':';

// What info begins with that has flags.
const FLAGS_FOLLOW: &[u8; 2] = b"2,";

/// What a message's name says after its unique part.
#[derive(Clone, Copy, Debug, PartialEq, Eq)]
pub enum Info {
    /// There is no colon, as in a name that was just delivered.
    Bare,
    /// `2,` and letters alone, perhaps none: the flags of maildir(5).
    Two(Flags),
    /// Other info, which is kept untouched.
    Opaque,
}

impl Info {
    /// The flags that the info means: none where it's bare. Other info has no set of flags.
    pub fn flags(self) -> Option<Flags>
        ensures { result ≡ flags_of self }
    {
        match self {
            Info::Bare => Some(Flags::empty()),
            Info::Two(flags) => Some(flags),
            Info::Opaque => None,
        }
    }
}

/// The unique part and the info of a message's name.
///
/// The unique part is all before the first colon, the info all after it. A name that begins with a dot,
/// or whose unique part is empty, is no message's: `None`.
pub fn split(name: &[u8]) -> Option<(&[u8], Info)>
    ensures { option_map (λ parts. (parts.0.now, parts.1)) result ≡ split_of name.now }
{
    let (unique, info) = parts(name);
    if !is_message(name, unique) {
        return None;
    }
    Some((unique, info))
}

/// Whether a name is a message's, from its unique part: no colon is looked for.
#[tactic(auto, unfolding(crate::specs::Names::is_message_name))]
pub fn is_message(name: &[u8], unique: &[u8]) -> bool
    requires { unique.now ≡ unique_of name.now }
    ensures { result ≡ is_message_name name.now }
{
    !unique.is_empty() && !name.starts_with(b".")
}

/// The unique part of any name: what stands before the first colon, or all of a name without one.
pub fn unique_part(name: &[u8]) -> &[u8]
    ensures { result.now ≡ unique_of name.now }
{
    match first_colon(name) {
        Some(at) => &name[..at],
        None => name,
    }
}

// The parts of any name.
fn parts(name: &[u8]) -> (&[u8], Info)
    ensures unique { result.0.now ≡ unique_of name.now }
    ensures info { result.1 ≡ info_of name.now }
{
    match first_colon(name) {
        Some(at) => (&name[..at], read_info(&name[at + 1..])),
        None => (name, Info::Bare),
    }
}

/// Where the unique part of a name ends at a colon, which is the first.
#[tactic(auto, using(crate::proofs::Colons::colon_place))]
pub fn first_colon(name: &[u8]) -> Option<usize>
    ensures found { result ≡ position is_colon name.now }
    ensures within { IfSome result (λ at. at < length name.now) }
{
    first::<Colon>(name)
}

/// The same from the unique part of the name: no byte is looked at.
#[tactic(auto, using(crate::proofs::Colons::colon_behind, crate::proofs::Colons::no_colon))]
pub fn colon_after(name: &[u8], unique: &[u8]) -> Option<usize>
    requires { unique.now ≡ unique_of name.now }
    ensures found { result ≡ position is_colon name.now }
    ensures within { IfSome result (λ at. at < length name.now) }
{
    let at = unique.len();
    if at < name.len() { Some(at) } else { None }
}

// The info that the text after a colon says.
#[tactic(auto, unfolding(crate::specs::Names::info_by))]
fn read_info(text: &[u8]) -> Info
    ensures { result ≡ info_by (Some text.now) }
{
    let Some(letters) = text.strip_prefix(FLAGS_FOLLOW) else {
        return Info::Opaque;
    };
    match Flags::parse(letters) {
        Ok(flags) => Info::Two(flags),
        Err(_) => Info::Opaque,
    }
}

/// The name of the message `unique` with these flags: the unique name, `:2,`, and the letters of the
/// flags in ASCII order, each once.
///
/// Refused `NoMemory` where no memory was to be had, and for nothing else.
#[tactic(auto, unfolding(crate::specs::Names::flagged))]
pub fn with_flags(alloc: Global, unique: &[u8], flags: Flags) -> Result<Vec<u8>, NameError>
    ensures { MatchResult result (λ name. name.items ≡ flagged unique.now flags) (λ error. error ≡ NoMemory) }
{
    let mut name = Vec::with_capacity(
        alloc,
        unique.len() + 1 + FLAGS_FOLLOW.len() + flags.count(),
    )?;
    name.extend_from_slice(unique)?;
    name.push(COLON)?;
    name.extend_from_slice(FLAGS_FOLLOW)?;
    flags.write_onto(&mut name)?;
    Ok(name)
}
