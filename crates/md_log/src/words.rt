//! The words of a line, read from left to right, and how a log refuses them.
ghost use Rattle.std.specs.Prelude.{◌≡◌, ◌<◌, length, IfOk};
ghost use Rattle.std.specs.Option.{option_copied};
ghost use Rattle.md_text.specs.Bind.{Reads};
ghost use Rattle.md_log.specs.Words.{word_at, parted, end_at, number_of};

use crate::error::LineFault;
use md_text::{Rest, cut};

/// The most digits of a number.
const MOST_DIGITS: usize = 19;

/// The next word, which isn't empty.
#[tactic(auto, unfolding(crate::specs::Words::word_at))]
pub(crate) fn word(rest: Rest<'_>) -> Result<(&[u8], Rest<'_>), LineFault>
    ensures value { Reads (λ read. (read.0.now, option_copied read.1)) result (word_at (option_copied rest.entry)) }
    ensures nonempty { IfOk result (λ read. 0 < length read.0.now) }
{
    match md_text::word(rest) {
        None => Err(LineFault::BadLine),
        Some(read) => Ok(read),
    }
}

/// What is before the first such byte, and what is left after it; or this fault, where there is none.
#[tactic(auto, unfolding(crate::specs::Words::parted))]
pub(crate) fn parted(text: &[u8], byte: u8, fault: LineFault) -> Result<(&[u8], &[u8]), LineFault>
    ensures { Reads (λ read. (read.0.now, read.1.now)) result (parted byte fault text.now) }
{
    match cut(text, byte) {
        (front, Some(left)) => Ok((front, left)),
        (_, None) => Err(fault),
    }
}

/// Refuses a word too many.
#[tactic(auto, unfolding(crate::specs::Words::end_at))]
pub(crate) fn end(rest: Rest<'_>) -> Result<(), LineFault>
    ensures { result ≡ end_at (option_copied rest.entry) }
{
    match rest {
        None => Ok(()),
        Some(_) => Err(LineFault::BadLine),
    }
}

/// The number that a word spells.
#[tactic(auto, unfolding(crate::specs::Words::number_of))]
pub(crate) fn number(word: &[u8]) -> Result<u64, LineFault>
    ensures { result ≡ number_of word.now }
{
    md_text::number(word, MOST_DIGITS).ok_or(LineFault::BadNumber)
}
