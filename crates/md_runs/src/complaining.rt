//! What wrong words are answered with.
ghost use Rattle.std.specs.Prelude.{◌≡◌, ◌++◌, IfOk, OnOk};
ghost use Rattle.md_runs.specs.Complaints.{IsComplaint, complaint_of, first_line, tip_line};

use md_text::cut;
use std::alloc::{AllocError, Global};

/// A line of a program that says why words are wrong, and a second line for a tip, if it isn't empty. Of both only what is in front of a
/// line feed is taken: a word may hold one, as any text.
pub fn complaint(alloc: Global, program: &str, why: &str, tip: &str) -> Result<Vec<u8>, AllocError>
    ensures text { IfOk result (λ line. line.items ≡ complaint_of program.now why.now tip.now) }
    ensures lines { IfOk result (λ line. IsComplaint program.now line.items) }
{
    let mut line = Vec::from_slice(alloc, program.as_bytes())?;
    line.extend_from_slice(b": ")?;
    line.extend_from_slice(first_line(why.as_bytes()))?;
    line.extend_from_slice(b"; try '")?;
    line.extend_from_slice(program.as_bytes())?;
    line.extend_from_slice(b" --help'\n")?;
    push_tip(&mut line, first_line(tip.as_bytes()))?;
    Ok(line)
}

// Appends a tip as a line of its own, if it isn't empty.
fn push_tip(line: &mut Vec<u8>, tip: &[u8]) -> Result<(), AllocError>
    ensures { OnOk result (line.new.items ≡ line.old.items ++ tip_line tip.now) }
{
    if tip.is_empty() {
        return Ok(());
    }
    line.extend_from_slice(tip)?;
    line.extend_from_slice(b"\n")
}

// The bytes in front of the first line feed, or all.
#[tactic(auto, unfolding(md_text::specs::Words::cut_at))]
fn first_line(bytes: &[u8]) -> &[u8]
    ensures { result.now ≡ first_line bytes.now }
{
    cut(bytes, b'\n').0
}
