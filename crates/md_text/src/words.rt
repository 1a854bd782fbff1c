//! The words of a line, read from left to right.
ghost use Rattle.std.specs.Prelude.{◌≡◌, ◌<◌, length, IfSome, option_map};
ghost use Rattle.std.specs.Option.{option_copied};
ghost use Rattle.md_text.specs.Words.{cut_at, is_passed_over, next_word};
ghost use Rattle.memchr.specs.Find.{IsFirstByte, is_byte};

use md_name::blocks::{Wanted, first};
use memchr::memchr;
use std::simd::prelude::*;

/// What is left of a line: `None` at its end, and else what follows a space.
pub type Rest<'a> = Option<&'a [u8]>;

/// What parts two words.
struct Space;

impl Wanted for Space {
    ghost wanted = { is_byte 32 };

    #[inline(always)]
    fn is_wanted(byte: u8) -> bool {
        byte == b' '
    }

    #[inline(always)]
    fn marks(block: u8x16) -> u64 {
        block.simd_eq(u8x16::splat(b' ')).to_bitmask()
    }
}

/// Whether a line says nothing: it is empty, or a comment.
pub fn is_passed_over(line: &[u8]) -> bool
    ensures { result ≡ is_passed_over line.now }
{
    matches!(line, [] | [b'#', ..])
}

/// The next word, which isn't empty. Exactly one space parts two words.
#[inline(always)]
#[tactic(auto, unfolding(crate::specs::Words::next_word))]
pub fn word(rest: Rest<'_>) -> Option<(&[u8], Rest<'_>)>
    ensures value { option_map (λ read. (read.0.now, option_copied read.1)) result ≡ next_word (option_copied rest.entry) }
    ensures nonempty { IfSome result (λ read. 0 < length read.0.now) }
{
    let Some(text) = rest else {
        return None;
    };
    let (word, rest) = cut_by(text, b' ', first::<Space>(text));
    if word.is_empty() {
        return None;
    }
    Some((word, rest))
}

/// What is before the first such byte, and what is left after it.
pub fn cut(text: &[u8], byte: u8) -> (&[u8], Rest<'_>)
    ensures { cut_at byte text.now ≡ (result.0.now, option_copied result.1) }
{
    cut_by(text, byte, memchr(byte, text))
}

/// The same where the place of the first such byte is known.
#[inline(always)]
fn cut_by(text: &[u8], byte: u8, at: Option<usize>) -> (&[u8], Rest<'_>)
    requires { IsFirstByte (is_byte byte) text.now at }
    ensures { cut_at byte text.now ≡ (result.0.now, option_copied result.1) }
{
    match at {
        None => (text, None),
        Some(at) => (&text[..at], Some(&text[at + 1..])),
    }
}
