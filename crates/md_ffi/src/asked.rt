//! What a caller in C asks.
ghost use Rattle.std.specs.Prelude.{◌≡◌, ◌⊎◌, Ok, Err, MatchResult};
ghost use Rattle.md_ffi.specs.Asking.{call_at, flags_at, own_at};
ghost use Rattle.md_driven.specs.declared.refusal.Refusal.TheVariants.{Kind};
ghost use Rattle.md_script.specs.declared.error.PlayKind.TheVariants.{NoMemory};

use md_core::Call;
use md_dirs::Bytes;
use md_driven::Refusal;
use md_name::{Flags, NameError};
use md_script::PlayKind;
use std::alloc::Global;

/// What a call asks, but for its bytes: its kind, folders, and the size of a delivery's pieces or the tries.
#[repr(C)]
#[derive(Clone, Copy)]
pub struct Asked {
    pub kind: u32,
    pub folder: u32,
    pub to: u32,
    pub reserved: u32,
    pub number: u64,
}

/// The bytes that a call brings: a unique name, a body, flags or a second name, and flags that are removed.
#[derive(Clone, Copy)]
pub(crate) struct Brought<'a> {
    pub(crate) unique: &'a [u8],
    pub(crate) first: &'a [u8],
    pub(crate) second: &'a [u8],
}

/// A moment by the clock of a job's host, in seconds, where one is given.
#[repr(C)]
#[derive(Clone, Copy)]
pub struct Own {
    pub is_given: u64,
    pub at: u64,
}

impl Own {
    /// The moment, if one is given.
    pub(crate) fn moment(&self) -> Option<u64>
        ensures { result ≡ own_at self.now }
    {
        (self.is_given != 0).then_some(self.at)
    }
}

// The flags that letters name. Refused `BadFlag`.
fn flags(letters: &[u8]) -> Result<Flags, Refusal>
    ensures { result ≡ flags_at letters.now }
{
    Ok(Flags::parse(letters).map_err(|_| Refusal::Kind(PlayKind::Name(NameError::BadFlag)))?)
}

/// The call that is asked. Refused `BadKind` and `BadFlag`, and out of memory.
#[tactic(auto, unfolding(crate::specs::Asking::call_at))]
pub(crate) fn call_of(alloc: Global, asked: &Asked, brought: Brought<'_>) -> Result<Call, Refusal>
    ensures { MatchResult result
        (λ call. call_at asked.now brought.entry.unique.now brought.entry.first.now brought.entry.second.now ≡ Ok call)
        (λ e. (e ≡ Kind NoMemory) ⊎ (call_at asked.now brought.entry.unique.now brought.entry.first.now brought.entry.second.now ≡ Err e)) }
{
    let (folder, number) = (asked.folder, asked.number);
    match asked.kind {
        1 => Ok(Call::Deliver {
            folder,
            unique: Bytes::copied(alloc, brought.unique)?,
            body: Bytes::copied(alloc, brought.first)?,
            chunk: number,
        }),
        2 => Ok(Call::Seen {
            folder,
            flags: flags(brought.first)?,
            unique: Bytes::copied(alloc, brought.unique)?,
            tries: number,
        }),
        3 => Ok(Call::Flag {
            folder,
            add: flags(brought.first)?,
            remove: flags(brought.second)?,
            unique: Bytes::copied(alloc, brought.unique)?,
            tries: number,
        }),
        4 => Ok(Call::Move {
            folder,
            unique: Bytes::copied(alloc, brought.unique)?,
            to: asked.to,
            tries: number,
        }),
        5 => Ok(Call::Expunge {
            folder,
            unique: Bytes::copied(alloc, brought.unique)?,
            tries: number,
        }),
        6 => Ok(Call::Copy {
            folder,
            unique: Bytes::copied(alloc, brought.unique)?,
            to: asked.to,
            fresh: Bytes::copied(alloc, brought.first)?,
            tries: number,
        }),
        7 => Ok(Call::Clean { folder }),
        _ => Err(Refusal::BadKind),
    }
}
