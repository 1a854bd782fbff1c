//! Unique names: which may be delivered under, and how one is made.
ghost use Rattle.std.specs.Prelude.{◌≡◌, ◌||◌, ◌++◌, ◌<◌, ◌≤◌, length, None, IfOk, OnOk, MatchResult, true};
ghost use Rattle.std.specs.List.{list_any};
ghost use Rattle.md_name.specs.Names.{is_slash, is_terminator, is_unique_name};
ghost use Rattle.md_name.specs.Made.{escaped, is_host, name_of, refusal_of, IsRefusal};

use crate::blocks::{Barred, Separator, Terminator, holds};
use crate::error::NameError;
use crate::info::COLON;
use std::alloc::{AllocError, Global};

/// The byte that parts a path.
pub(crate) const SLASH: u8 = b'/';

// A slash as an escaped host has it.
const ESCAPED_SLASH: &[u8; 4] = b"\\057";

// A colon as an escaped host has it.
const ESCAPED_COLON: &[u8; 4] = b"\\072";

// The microseconds of a second.
const MICROS: u64 = 1_000_000;

// The most bytes of an escaped host.
const MAX_HOST: usize = 100;

// The most bytes of a unique name. With `:2,` and 52 letters that's a file name of 255 bytes.
const MAX_UNIQUE: usize = 200;

/// What a unique name is made of.
#[derive(Clone, Copy, Debug)]
pub struct UniqueParts<'a> {
    /// The second of the delivery, since 1970-01-01 00:00:00 UTC.
    pub sec: u64,
    /// The microsecond in that second, below 1,000,000.
    pub micro: u64,
    /// The number of the process.
    pub pid: u64,
    /// How many deliveries the process made before.
    pub count: u64,
    /// The name of the host.
    pub host: &'a [u8],
}

/// Makes a unique name as "Using maildir format" has it: `SEC.MmicroPpidQcount.host`, each number in
/// decimal without leading zeros. In the host a slash is written `\057` and a colon `\072`.
///
/// Refused `BadMicro` where the microsecond is 1,000,000 or more; else `BadHost` where the host is
/// empty, has over 100 bytes once escaped, or holds NUL, LF or CR; else only `NoMemory`.
pub fn make_unique(alloc: Global, parts: UniqueParts<'_>) -> Result<Vec<u8>, NameError>
    ensures made { MatchResult result
        (λ name. (refusal_of parts.entry ≡ None) × (name.items ≡ name_of parts.entry))
        (λ error. IsRefusal (refusal_of parts.entry) error) }
    ensures short { IfOk result (λ name. length name.items ≤ 171) }
    ensures unique { IfOk result (λ name. is_unique_name name.items ≡ true) }
{
    if parts.micro >= MICROS {
        return Err(NameError::BadMicro);
    }
    if !is_host(parts.host) {
        return Err(NameError::BadHost);
    }
    Ok(made_name(alloc, parts)?)
}

/// Whether a message may be delivered under the name: one to 200 bytes, none of them a colon, a slash,
/// NUL, LF or CR, and the first of them no dot.
#[tactic(auto, using(crate::proofs::Either::unique_by_barred))]
pub fn is_unique_name(name: &[u8]) -> bool
    ensures { result ≡ is_unique_name name.now }
{
    !name.is_empty()
        && !name.starts_with(b".")
        && name.len() <= MAX_UNIQUE
        && !holds::<Barred>(name)
}

/// Whether NUL, LF or CR is among the bytes, of which none may stand in a name or a host here.
pub fn holds_terminator(bytes: &[u8]) -> bool
    ensures { result ≡ list_any is_terminator bytes.now }
{
    holds::<Terminator>(bytes)
}

/// Whether a slash, NUL, LF or CR is among the bytes. POSIX lets LF and CR stand in the name of a file, and worlds here take no such name.
pub fn holds_separator(bytes: &[u8]) -> bool
    ensures { result ≡ list_any (λ b. is_slash b || is_terminator b) bytes.now }
{
    holds::<Separator>(bytes)
}

// Whether a made name may have the host. Once escaped it's no shorter, so a longer one is out at once.
#[tactic(auto, using(crate::proofs::Hosts::lengths), unfolding(crate::specs::Made::is_host))]
fn is_host(host: &[u8]) -> bool
    ensures { result ≡ is_host host.now }
{
    if host.is_empty() || host.len() > MAX_HOST || holds_terminator(host) {
        return false;
    }
    escaped_len(host) <= MAX_HOST
}

// How many bytes the host has once escaped.
#[tactic(auto, using(crate::proofs::Hosts::lengths))]
fn escaped_len(host: &[u8]) -> usize
    requires { length host.now ≤ MAX_HOST }
    ensures { result ≡ length (escaped host.now) }
{
    let mut len = 0;
    for byte in host {
        len += match *byte {
            SLASH => ESCAPED_SLASH.len(),
            COLON => ESCAPED_COLON.len(),
            _ => 1,
        };
    }
    len
}

// The name that is made of sound parts.
fn made_name(alloc: Global, parts: UniqueParts<'_>) -> Result<Vec<u8>, AllocError>
    requires micro { parts.micro < MICROS }
    requires host { is_host parts.host.now ≡ true }
    ensures text { IfOk result (λ name. name.items ≡ name_of parts.entry) }
    ensures short { IfOk result (λ name. length name.items ≤ 171) }
    ensures unique { IfOk result (λ name. is_unique_name name.items ≡ true) }
{
    let UniqueParts {
        sec,
        micro,
        pid,
        count,
        host,
    } = parts;
    let mut name = format!(in alloc; "{sec}.M{micro}P{pid}Q{count}.")?.into_bytes();
    push_escaped(host, &mut name)?;
    Ok(name)
}

// Writes the host after the text, escaped.
#[tactic(auto, using(crate::proofs::Hosts::pushes))]
fn push_escaped(host: &[u8], text: &mut Vec<u8>) -> Result<(), AllocError>
    ensures { OnOk result (text.new.items ≡ text.old.items ++ escaped host.now) }
{
    for byte in host {
        match *byte {
            SLASH => text.extend_from_slice(ESCAPED_SLASH)?,
            COLON => text.extend_from_slice(ESCAPED_COLON)?,
            other => text.push(other)?,
        }
    }
    Ok(())
}
