//! Names, header summaries and scripts, which need no world.
ghost use Rattle.std.specs.Prelude.{Ok};
ghost use Rattle.md_name.specs.Names.{split_of};
ghost use Rattle.md_head.specs.Summaries.{summary_of};
ghost use Rattle.md_script.specs.Sessions.{transcript};
ghost use Rattle.md_script.specs.Texts.{summary_text};
ghost use Rattle.md_driven.specs.Laying.{Gives};
ghost use Rattle.md_ffi.specs.Naming.{made, Plays, Splits};
ghost use Rattle.md_driven.specs.Numbers.{status_number};

use crate::seed::seed_of;
use md_dirs::IndexDirs;
use md_driven::{NO_MEMORY, Refusal, lay, status};
use md_head::summary;
use md_name::{Info, UniqueParts, make_unique, split};
use md_script::{PlayKind, push_summary, transcript_over};
use std::alloc::Global;

fn summarize(
    alloc: Global,
    message: &[u8],
    out: &mut [u8],
    length: &mut usize,
) -> Result<(), Refusal>
    ensures { Gives (Ok (summary_text (summary_of message.now))) out.old out.new length.old length.new (status_number result) }
{
    let Ok(summary) = summary(alloc, message) else {
        return Err(NO_MEMORY);
    };
    let mut text = Vec::new(alloc);
    push_summary(&mut text, &summary)?;
    lay(&text, out, length)
}

/// Lays a unique name into `out`, as `make_unique` makes it, and sets `length` to its length. Refused `BadMicro`, `BadHost` and out of
/// memory, with `length` as it was, and `Room`, with it set.
#[unsafe(no_mangle)]
#[tactic(auto, unfolding(crate::specs::Naming::made))]
pub extern "C" fn md_ffi_unique(
    alloc: Global,
    sec: u64,
    micro: u64,
    pid: u64,
    count: u64,
    host: &[u8],
    out: &mut [u8],
    length: &mut usize,
) -> u32
    ensures { Gives (made sec micro pid count host.now) out.old out.new length.old length.new result }
{
    let parts = UniqueParts {
        sec,
        micro,
        pid,
        count,
        host,
    };
    match make_unique(alloc, parts) {
        Ok(name) => status(lay(&name, out, length)),
        Err(error) => Refusal::Kind(PlayKind::from(error)).number(),
    }
}

/// Splits a message's file name: sets `unique_length` to the length of its unique part, which is at its front, `info` to 0 for no info, 1
/// for flags and 2 for other info, and `flags` to the flags, or 0. Refused `NoMessageName`, with all three as they were.
#[unsafe(no_mangle)]
pub extern "C" fn md_ffi_split(
    name: &[u8],
    unique_length: &mut usize,
    info: &mut u32,
    flags: &mut u64,
) -> u32
    ensures { Splits (split_of name.now) unique_length.old unique_length.new info.old info.new flags.old flags.new result }
{
    let Some((unique, said)) = split(name) else {
        return Refusal::NoMessageName.number();
    };
    *unique_length = unique.len();
    (*info, *flags) = match said {
        Info::Bare => (0, 0),
        Info::Two(of) => (1, of.bits()),
        Info::Opaque => (2, 0),
    };
    0
}

/// Lays the lines of a message's header summary into `out`, as the command `summary` prints them, and sets `length` to their length.
/// Refused out of memory, with `length` as it was, and `Room`, with it set.
#[unsafe(no_mangle)]
pub extern "C" fn md_ffi_summary(
    alloc: Global,
    message: &[u8],
    out: &mut [u8],
    length: &mut usize,
) -> u32
    ensures { Gives (Ok (summary_text (summary_of message.now))) out.old out.new length.old length.new result }
{
    status(summarize(alloc, message, out, length))
}

/// Lays the transcript of a script into `out`, and sets `length` to its length and `line` to the number of the line that was refused, or
/// 0. The status is that line's refusal, unless there was no room: `Room`. Refused out of memory, with `line` and `length` 0. Names are
/// hashed as those of `md_ffi_load`.
#[unsafe(no_mangle)]
pub extern "C" fn md_ffi_transcript(
    alloc: Global,
    script: &[u8],
    random: &[u8],
    out: &mut [u8],
    length: &mut usize,
    line: &mut u64,
) -> u32
    ensures { Plays (transcript script.now).text (transcript script.now).refusal out.old out.new length.new line.new result }
{
    *length = 0;
    *line = 0;
    let Ok(printed) = transcript_over::<IndexDirs>(alloc, seed_of(random), script) else {
        return NO_MEMORY.number();
    };
    let number = match printed.refusal {
        Some(refused) => {
            *line = refused.line;
            Refusal::Kind(refused.kind).number()
        }
        None => 0,
    };
    match lay(&printed.text, out, length) {
        Ok(()) => number,
        Err(refusal) => refusal.number(),
    }
}
