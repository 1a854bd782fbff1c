//! The bytes of one message, found by its unique name, and whether a name is held at all.
ghost use Rattle.std.specs.Prelude.{◌≡◌, ◌||◌, true, false};
ghost use Rattle.std.specs.List.{list_any};
ghost use Rattle.std.specs.Option.{option_map};
ghost use Rattle.std.specs.FinMap as finmap;
ghost use Rattle.md_dirs.specs.State.{IsSound};
ghost use Rattle.md_core.specs.Alone.{entry_if, is_in_place};
ghost use Rattle.md_core.specs.Gathering.{Covers, is_used_before};
ghost use Rattle.md_used.specs.Seen.{is_of, is_tmp_of};
ghost use Rattle.md_core.specs.Mailbox.{Entry, mailbox_of, HasOnePath};
ghost use Rattle.md_used.specs.Paths.{is_tmp};
ghost use Rattle.md_core.specs.Submitting.{uses};
ghost use Rattle.md_used.specs.Used.{is_among};

use md_dirs::{Dirs, Place};
use md_name::split;
use md_used::Used;

/// The bytes of the message of a unique name, lent. It takes no memory and makes no directory call: it looks once in new and once in cur
/// of each folder, up to that of the message.
pub(crate) fn message_bytes<'a, D: Dirs>(dirs: &'a D, unique: &[u8]) -> Option<&'a [u8]>
    requires { HasOnePath (D.device dirs.now).state }
    ensures { option_map (λ b. b.now) result ≡ option_map (λ (e : Entry). e.bytes) (finmap.get (mailbox_of (D.device dirs.now).state) unique.now) }
{
    let folders = dirs.folders();
    if !is_unique_part(unique) {
        return None;
    }
    for folder in 0..folders {
        if let Some(bytes) = bytes_in(dirs, folder, Place::New, unique) {
            return Some(bytes);
        }
        if let Some(bytes) = bytes_in(dirs, folder, Place::Cur, unique) {
            return Some(bytes);
        }
    }
    None
}

// Whether a name is the unique part of a message.
fn is_unique_part(name: &[u8]) -> bool
    ensures { result ≡ is_of name.now name.now }
{
    match split(name) {
        Some((part, _)) => part == name,
        None => false,
    }
}

// The bytes of the message of a unique name, if it is in this directory.
fn bytes_in<'a, D: Dirs>(dirs: &'a D, folder: u32, place: Place, unique: &[u8]) -> Option<&'a [u8]>
    requires sound { IsSound (D.device dirs.now).state }
    requires one { HasOnePath (D.device dirs.now).state }
    requires place { is_tmp place ≡ false }
    requires name { is_of unique.now unique.now ≡ true }
    ensures { option_map (λ b. b.now) result
        ≡ option_map (λ (e : Entry). e.bytes) (entry_if (is_in_place place folder) (finmap.get (mailbox_of (D.device dirs.now).state) unique.now)) }
{
    let row = dirs.look(folder, place, unique)?;
    dirs.read(folder, place, row.name())
}

// Whether a file in tmp has the name.
fn is_in_tmp<D: Dirs>(dirs: &D, name: &[u8]) -> bool
    ensures { result ≡ list_any (λ e. is_tmp_of name.now e.0) (finmap.entries (D.device dirs.now).state.names) }
{
    for folder in 0..dirs.folders() {
        if dirs.read(folder, Place::Tmp, name).is_some() {
            return true;
        }
    }
    false
}

/// Whether a message has the unique name, or a file in tmp the name. It takes no memory and makes no directory call: it looks once in each
/// directory.
pub(crate) fn is_held<D: Dirs>(dirs: &D, name: &[u8]) -> bool
    requires { HasOnePath (D.device dirs.now).state }
    ensures { result ≡ list_any (λ e. uses name.now e.0) (finmap.entries (D.device dirs.now).state.names) }
{
    message_bytes(dirs, name).is_some() || is_in_tmp(dirs, name)
}

/// Whether directories use a name up, for all that is asked of a name which is not among those since. They are looked at only where they may.
pub(crate) fn holds_name<D: Dirs>(dirs: &D, used: &Used, name: &[u8]) -> bool
    requires one { HasOnePath (D.device dirs.now).state }
    requires covers { Covers (D.device dirs.now).state used.now }
    ensures { (is_among name.now used.now.since || result) ≡ is_used_before (D.device dirs.now).state used.now name.now }
{
    used.may_be_held(name) && is_held(dirs, name)
}
