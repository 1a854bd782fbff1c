//! The index of the messages of lines, which needs no world of the caller's.
ghost use Rattle.md_script.specs.Indexing.{index_of_script};
ghost use Rattle.md_ffi.specs.Naming.{Indexes};

use crate::seed::seed_of;
use md_driven::{Refusal, lay, status};
use md_script::index_text;
use std::alloc::Global;

/// Lays the index of `folder` and `file` lines into `out`, as `maildir_cli index` prints it, and sets `length` to its length and `line` to
/// 0. It holds the store of the lines and the whole index meanwhile, and makes one summary after the other. Names are hashed as those of
/// `md_ffi_load`.
///
/// A refused line is named by its number, from 1, in `line`, and where the files make no store the last one is; `length` is 0 then. Refused
/// out of memory, with both 0, and `Room`, with `length` set.
#[unsafe(no_mangle)]
pub extern "C" fn md_ffi_index(
    alloc: Global,
    lines: &[u8],
    random: &[u8],
    out: &mut [u8],
    length: &mut usize,
    line: &mut u64,
) -> u32
    ensures { Indexes (index_of_script lines.now) out.old out.new length.new line.new result }
{
    *length = 0;
    *line = 0;
    match index_text(alloc, seed_of(random), lines) {
        Ok(text) => status(lay(&text, out, length)),
        Err(refused) => {
            *line = refused.line;
            Refusal::Kind(refused.kind).number()
        }
    }
}
