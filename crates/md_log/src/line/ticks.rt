//! When a step took effect: `MOMENT`, or `MOMENT@BEGIN..END`.
ghost use Rattle.std.specs.Prelude.{◌≡◌, ◌<◌, length};
ghost use Rattle.md_log.specs.Lines.{ticks_of, when_of};

use crate::error::LineFault;
use crate::words::{number, parted};
use md_text::cut;

/// The ticks at which a call began and returned. The first is no later than the second.
#[derive(Clone, Copy)]
pub struct Ticks {
    pub begin: u64,
    pub end: u64,
}

/// When a step took effect, in seconds, and its ticks where they are known. A word that doesn't begin with a digit begins no line.
#[tactic(auto, unfolding(crate::specs::Lines::when_of))]
pub(super) fn time_of(word: &[u8]) -> Result<(u64, Option<Ticks>), LineFault>
    requires { 0 < length word.now }
    ensures { result ≡ when_of word.now }
{
    if !word[0].is_ascii_digit() {
        return Err(LineFault::BadLine);
    }
    let (moment, rest) = cut(word, b'@');
    let moment = number(moment)?;
    let Some(text) = rest else {
        return Ok((moment, None));
    };
    let ticks = ticks_from(text)?;
    Ok((moment, Some(ticks)))
}

/// `BEGIN..END`.
#[tactic(auto, unfolding(crate::specs::Lines::ticks_of))]
fn ticks_from(text: &[u8]) -> Result<Ticks, LineFault>
    ensures { result ≡ ticks_of text.now }
{
    let (begin, rest) = parted(text, b'.', LineFault::BadNumber)?;
    let (middle, end) = parted(rest, b'.', LineFault::BadNumber)?;
    if !middle.is_empty() {
        return Err(LineFault::BadNumber);
    }
    let begin = number(begin)?;
    let end = number(end)?;
    if begin > end {
        return Err(LineFault::BadNumber);
    }
    Ok(Ticks { begin, end })
}
