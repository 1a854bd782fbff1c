//! How a name breaks the format by itself.
ghost use Rattle.std.specs.Prelude.{◌≡◌, ◌≢◌, ◌↔◌, IsTrue, IfOk};
ghost use Rattle.std.specs.Str.{IsUtf8};
ghost use Rattle.md_name.specs.Names.{begins_with_dot, flagged, split_of};
ghost use Rattle.md_system.specs.Flaws.{HasFlaw, HasInfo, LacksInfo, IsOther, AreFlagsOutOfOrder};

use crate::flaw::FlawKind;
use md_dirs::Place;
use md_name::{Flags, Info, split, with_flags};
use std::alloc::{AllocError, Global};

/// Whether a name in new or cur breaks the format by itself so. Refused only when out of memory.
pub(crate) fn has_flaw(
    alloc: Global,
    place: Place,
    name: &[u8],
    kind: FlawKind,
) -> Result<bool, AllocError>
    ensures { IfOk result (λ has. IsTrue has ↔ HasFlaw place name.now kind) }
{
    match kind {
        FlawKind::DotName => Ok(begins_with_a_dot(name)),
        FlawKind::InfoInNew => Ok(place == Place::New && has_info(name)),
        FlawKind::NoInfo => Ok(place == Place::Cur && lacks_info(name)),
        FlawKind::FlagsOutOfOrder => are_flags_out_of_order(alloc, name),
        FlawKind::NotText => Ok(!is_text(name)),
        FlawKind::LongName => Ok(name.len() > 255),
        FlawKind::TwiceInFolder
        | FlawKind::InOtherFolders
        | FlawKind::Unused
        | FlawKind::NotAFile => Ok(false),
    }
}

fn begins_with_a_dot(name: &[u8]) -> bool
    ensures { result ≡ begins_with_dot name.now }
{
    name.starts_with(b".")
}

fn is_text(name: &[u8]) -> bool
    ensures { IsTrue result ↔ IsUtf8 name.now }
{
    std::str::from_utf8(name).is_ok()
}

// Whether the name of a message says more than its unique part.
fn has_info(name: &[u8]) -> bool
    ensures { IsTrue result ↔ HasInfo (split_of name.now) }
{
    match split(name) {
        Some((_, info)) => !is_bare(info),
        None => false,
    }
}

// Whether the name of a message is its unique part alone.
fn lacks_info(name: &[u8]) -> bool
    ensures { IsTrue result ↔ LacksInfo (split_of name.now) }
{
    match split(name) {
        Some((_, info)) => is_bare(info),
        None => false,
    }
}

fn is_bare(info: Info) -> bool
    ensures { IsTrue result ↔ (info ≡ Info.Bare) }
{
    matches!(info, Info::Bare)
}

// Whether the name of a message is not the one that is written for its flags.
fn are_flags_out_of_order(alloc: Global, name: &[u8]) -> Result<bool, AllocError>
    ensures { IfOk result (λ out. IsTrue out ↔ AreFlagsOutOfOrder name.now (split_of name.now)) }
{
    match split(name) {
        Some((unique, info)) => is_other(alloc, name, unique, info),
        None => Ok(false),
    }
}

// Whether a name is another than the one that is written for these parts, where they have flags.
fn is_other(alloc: Global, name: &[u8], unique: &[u8], info: Info) -> Result<bool, AllocError>
    ensures { IfOk result (λ other. IsTrue other ↔ IsOther name.now unique.now info) }
{
    match info {
        Info::Two(flags) => is_not_written(alloc, name, unique, flags),
        Info::Bare | Info::Opaque => Ok(false),
    }
}

// Whether a name is another than the one of a unique name with these flags.
fn is_not_written(
    alloc: Global,
    name: &[u8],
    unique: &[u8],
    flags: Flags,
) -> Result<bool, AllocError>
    ensures { IfOk result (λ other. IsTrue other ↔ (name.now ≢ flagged unique.now flags)) }
{
    match with_flags(alloc, unique, flags) {
        Ok(written) => Ok(written.as_slice() != name),
        Err(_) => Err(AllocError),
    }
}
