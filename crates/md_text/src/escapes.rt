//! The escapes of bytes that are in one line.
ghost use Rattle.std.specs.Prelude.{◌≡◌, ◌++◌, true, OnOk, IfOk, option_map};
ghost use mathlib.Core.List.{IsPrefix};
ghost use Rattle.md_text.specs.Escapes.{escape, escape_all, meant_by, unescaped};
ghost use Rattle.std.specs.List.{list_any};
ghost use Rattle.memchr.specs.Find.{is_byte, is_byte3};

use md_name::blocks::{Wanted, first};
use memchr::{memchr, memchr3_iter};
use std::alloc::{AllocError, Global};
use std::simd::prelude::*;

/// What begins an escape.
struct Backslash;

impl Wanted for Backslash {
    ghost wanted = { is_byte 92 };

    #[inline(always)]
    fn is_wanted(byte: u8) -> bool {
        byte == b'\\'
    }

    #[inline(always)]
    fn marks(block: u8x16) -> u64 {
        block.simd_eq(u8x16::splat(b'\\')).to_bitmask()
    }
}

/// Appends bytes in one line: a backslash, a line feed and a carriage return as `\\`, `\n` and `\r`, and any other
/// byte as it is. Where memory runs out, some of it may have been appended.
#[tactic(auto, using(crate::proofs::Growing::grown, crate::proofs::Growing::grown_if, crate::proofs::Growing::grown_on))]
pub fn push_escaped(out: &mut Vec<u8>, bytes: &[u8]) -> Result<(), AllocError>
    ensures text { OnOk result (out.new.items ≡ out.old.items ++ escape_all bytes.now) }
    ensures kept { IsPrefix out.old.items out.new.items }
{
    if has_mark(bytes) {
        return push_marked(out, bytes);
    }
    out.extend_from_slice(bytes)
}

/// Whether a backslash, a line feed or a carriage return is among the bytes.
fn has_mark(bytes: &[u8]) -> bool
    ensures { result ≡ list_any (is_byte3 92 10 13) bytes.now }
{
    // A text of more lines than one has a line feed near, and is then not looked through.
    if bytes.contains(&b'\n') {
        return true;
    }
    bytes.contains(&b'\\') | bytes.contains(&b'\r')
}

/// The same of any bytes, from one mark to the next. Apart, since most bytes have none.
#[tactic(auto, using(crate::proofs::Growing::grown, crate::proofs::Growing::grown_if, crate::proofs::Growing::grown_on))]
fn push_marked(out: &mut Vec<u8>, bytes: &[u8]) -> Result<(), AllocError>
    ensures text { OnOk result (out.new.items ≡ out.old.items ++ escape_all bytes.now) }
    ensures kept { IsPrefix out.old.items out.new.items }
{
    let mut marks = memchr3_iter(b'\\', b'\n', b'\r', bytes);
    let mut done = 0;
    while let Some(at) = marks.next() {
        out.extend_from_slice(&bytes[done..at])?;
        out.extend_from_slice(escape(bytes[at]))?;
        done = at + 1;
    }
    out.extend_from_slice(&bytes[done..])
}

/// A backslash, a line feed and a carriage return as two bytes each; other bytes are not written so.
fn escape(byte: u8) -> &'static [u8]
    requires { is_byte3 92 10 13 byte ≡ true }
    ensures { result.now ≡ escape byte }
{
    match byte {
        b'\\' => b"\\\\",
        b'\n' => b"\\n",
        _ => b"\\r",
    }
}

/// The bytes that a text with escapes stands for; with `spaces`, `\s` is a space. `None` if a backslash begins no escape. It fails only
/// when out of memory.
pub fn unescape(alloc: Global, spaces: bool, text: &[u8]) -> Result<Option<Vec<u8>>, AllocError>
    ensures { IfOk result (λ read. option_map (λ bytes. bytes.items) read ≡ unescaped spaces text.now) }
{
    let mut bytes = Vec::with_capacity(alloc, text.len())?;
    let mut left = text;
    // Most texts have no escape, and are looked through fastest so. Where there is one, the next is mostly near.
    let mut next = memchr(b'\\', left);
    while let Some(at) = next {
        if left.len() - at < 2 {
            return Ok(None);
        }
        bytes.extend_from_slice(&left[..at])?;
        let Some(byte) = meant_by(spaces, left[at + 1]) else {
            return Ok(None);
        };
        bytes.push_reserved(byte);
        left = &left[at + 2..];
        next = first::<Backslash>(left);
    }
    bytes.extend_from_slice(left)?;
    Ok(Some(bytes))
}

/// The byte that a backslash and a letter stand for.
#[tactic(auto, unfolding(crate::specs::Escapes::meant_by))]
fn meant_by(spaces: bool, letter: u8) -> Option<u8>
    ensures { result ≡ meant_by spaces letter }
{
    match letter {
        b'n' => Some(b'\n'),
        b'r' => Some(b'\r'),
        b'\\' => Some(b'\\'),
        b's' if spaces => Some(b' '),
        _ => None,
    }
}
