//! Searches of names and other short texts that look at 16 bytes at once. One of `memchr` goes faster by a long text, but takes longer to
//! begin than these take for a whole name.
ghost use Rattle.std.specs.Prelude.{◌≡◌, ◌||◌, ◌+◌, ◌≤◌, ℕ, Bool, length, map};
ghost use Rattle.std.specs.List.{list_any};
ghost use Rattle.std.specs.Simd.Lanes.{chunk, mask_l};
ghost use Rattle.memchr.specs.Find.{IsFirst, IsFirstByte, Passes};
ghost use Rattle.md_name.specs.Names.{is_barred, is_colon, is_slash, is_terminator};

use crate::info::COLON;
use crate::unique::SLASH;
use std::simd::prelude::*;

// How many bytes are looked at at once.
const BLOCK: usize = 16;

/// What is looked for.
pub trait Wanted {
    ghost wanted: { ℕ → Bool };

    /// Whether a byte is looked for.
    fn is_wanted(byte: u8) -> bool
        ensures { result ≡ wanted byte };

    /// A bit for each byte of a block, set where it is looked for.
    fn marks(block: u8x16) -> u64
        ensures { result ≡ mask_l (map wanted block) };
}

/// A colon.
pub(crate) struct Colon;

impl Wanted for Colon {
    ghost wanted = { is_colon };

    #[inline(always)]
    fn is_wanted(byte: u8) -> bool {
        byte == COLON
    }

    #[inline(always)]
    fn marks(block: u8x16) -> u64 {
        block.simd_eq(u8x16::splat(COLON)).to_bitmask()
    }
}

/// NUL, LF or CR.
pub(crate) struct Terminator;

impl Wanted for Terminator {
    ghost wanted = { is_terminator };

    #[inline(always)]
    fn is_wanted(byte: u8) -> bool {
        byte == b'\0' || byte == b'\n' || byte == b'\r'
    }

    #[inline(always)]
    fn marks(block: u8x16) -> u64 {
        (block.simd_eq(u8x16::splat(b'\0'))
            | block.simd_eq(u8x16::splat(b'\n'))
            | block.simd_eq(u8x16::splat(b'\r'))).to_bitmask()
    }
}

/// A slash, NUL, LF or CR.
pub(crate) struct Separator;

impl Wanted for Separator {
    ghost wanted = { λ b. is_slash b || is_terminator b };

    #[inline(always)]
    fn is_wanted(byte: u8) -> bool {
        byte == SLASH || Terminator::is_wanted(byte)
    }

    #[inline(always)]
    fn marks(block: u8x16) -> u64 {
        (block.simd_eq(u8x16::splat(SLASH))
            | block.simd_eq(u8x16::splat(b'\0'))
            | block.simd_eq(u8x16::splat(b'\n'))
            | block.simd_eq(u8x16::splat(b'\r'))).to_bitmask()
    }
}

/// What no unique name holds.
pub(crate) struct Barred;

impl Wanted for Barred {
    ghost wanted = { is_barred };

    #[inline(always)]
    fn is_wanted(byte: u8) -> bool {
        Terminator::is_wanted(byte) || byte == SLASH || byte == COLON
    }

    #[inline(always)]
    fn marks(block: u8x16) -> u64 {
        (block.simd_eq(u8x16::splat(b'\0'))
            | block.simd_eq(u8x16::splat(b'\n'))
            | block.simd_eq(u8x16::splat(b'\r'))
            | block.simd_eq(u8x16::splat(SLASH))
            | block.simd_eq(u8x16::splat(COLON))).to_bitmask()
    }
}

/// Whether a byte that is looked for is among the bytes.
pub(crate) fn holds<W: Wanted>(bytes: &[u8]) -> bool
    ensures { result ≡ list_any W.wanted bytes.now }
{
    first::<W>(bytes).is_some()
}

/// Where the first byte is that is looked for. The last block may overlap the one before.
pub fn first<W: Wanted>(bytes: &[u8]) -> Option<usize>
    ensures { IsFirstByte W.wanted bytes.now result }
{
    if bytes.len() < BLOCK {
        return first_of_few::<W>(bytes);
    }
    let mut at = 0;
    while bytes.len() - at > BLOCK {
        if let Some(place) = first_in_block::<W>(bytes, at) {
            return Some(place);
        }
        at += BLOCK;
    }
    first_in_block::<W>(bytes, bytes.len() - BLOCK)
}

// The same among the bytes of the block from a place on.
#[inline(always)]
fn first_in_block<W: Wanted>(bytes: &[u8], at: usize) -> Option<usize>
    requires { at + BLOCK ≤ length bytes.now }
    ensures { IsFirst (Passes W.wanted bytes.now) at (at + BLOCK) result }
{
    let marks = marks_at::<W>(bytes, at);
    if marks == 0 {
        return None;
    }
    Some(at + marks.trailing_zeros() as usize)
}

#[inline(always)]
fn marks_at<W: Wanted>(bytes: &[u8], at: usize) -> u64
    requires { at + BLOCK ≤ length bytes.now }
    ensures { result ≡ mask_l (map W.wanted (chunk at BLOCK bytes.now)) }
{
    W::marks(u8x16::from_slice(&bytes[at..]))
}

// The same of fewer bytes than a block has.
fn first_of_few<W: Wanted>(bytes: &[u8]) -> Option<usize>
    ensures { IsFirstByte W.wanted bytes.now result }
{
    for at in 0..bytes.len() {
        if W::is_wanted(bytes[at]) {
            return Some(at);
        }
    }
    None
}
