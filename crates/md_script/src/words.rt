//! The words of a line, read from left to right, and how a script refuses them.
ghost use Rattle.std.specs.Prelude.{◌≡◌, ◌<◌, length, IfOk};
ghost use Rattle.std.specs.Option.{option_copied};
ghost use Rattle.md_text.specs.Bind.{Reads};
ghost use Rattle.md_script.specs.Words.{Gives, word_at, end_at, number_at, body_at};

use crate::error::PlayKind;
use md_text::{Rest, number, short_number, unescape};
use std::alloc::Global;

/// The most digits of a number.
const MOST_DIGITS: usize = 20;

/// The next word, which isn't empty.
#[tactic(auto, unfolding(crate::specs::Words::word_at))]
pub(crate) fn word(rest: Rest<'_>) -> Result<(&[u8], Rest<'_>), PlayKind>
    ensures value { Reads (λ read. (read.0.now, option_copied read.1)) result (word_at (option_copied rest.entry)) }
    ensures nonempty { IfOk result (λ read. 0 < length read.0.now) }
{
    match md_text::word(rest) {
        None => Err(PlayKind::BadCommand),
        Some(read) => Ok(read),
    }
}

/// Refuses a word too many.
#[tactic(auto, unfolding(crate::specs::Words::end_at))]
pub(crate) fn end(rest: Rest<'_>) -> Result<(), PlayKind>
    ensures { result ≡ end_at (option_copied rest.entry) }
{
    match rest {
        None => Ok(()),
        Some(_) => Err(PlayKind::BadCommand),
    }
}

/// The next word as a number.
#[tactic(auto, using(crate::proofs::Numbers::spelled_number))]
pub(crate) fn number_word(rest: Rest<'_>) -> Result<(u64, Rest<'_>), PlayKind>
    ensures { Reads (λ read. (read.0, option_copied read.1)) result (number_at (option_copied rest.entry)) }
{
    if let Some(text) = rest {
        if let Some(read) = short_number(text) {
            return Ok(read);
        }
    }
    any_number(rest)
}

/// The same of any word. Apart, since few numbers are long.
#[inline(never)]
#[tactic(auto, unfolding(crate::specs::Words::number_at))]
fn any_number(rest: Rest<'_>) -> Result<(u64, Rest<'_>), PlayKind>
    ensures { Reads (λ read. (read.0, option_copied read.1)) result (number_at (option_copied rest.entry)) }
{
    let (word, rest) = word(rest)?;
    let n = number(word, MOST_DIGITS).ok_or(PlayKind::BadNumber)?;
    Ok((n, rest))
}

/// The rest of the line, which may hold spaces, with its escapes read; empty where it is left out.
#[tactic(auto, unfolding(crate::specs::Words::body_at))]
pub(crate) fn body(alloc: Global, rest: Rest<'_>) -> Result<Vec<u8>, PlayKind>
    ensures { Gives (λ bytes. bytes.items) result (body_at (option_copied rest.entry)) }
{
    let Some(text) = rest else {
        return Ok(Vec::new(alloc));
    };
    let bytes = unescape(alloc, false, text)?.ok_or(PlayKind::BadEscape)?;
    Ok(bytes)
}
