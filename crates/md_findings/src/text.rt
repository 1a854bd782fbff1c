//! Findings as lines of text.
ghost use Rattle.std.specs.Prelude.{◌≡◌, ◌++◌, OnOk};
ghost use Rattle.md_findings.specs.Showing.{before_text, long_line, part, short_line};

use crate::shown::Shown;
use md_command::{push_number, push_shown};
use std::alloc::AllocError;

/// `LINE CLAUSE` and a line feed.
pub(crate) fn push_short(out: &mut Vec<u8>, shown: &Shown<'_>) -> Result<(), AllocError>
    ensures { OnOk result (out.new.items ≡ out.old.items ++ short_line shown.now) }
{
    push_number(out, shown.line)?;
    out.extend_from_slice(b" ")?;
    out.extend_from_slice(shown.clause.as_bytes())?;
    out.extend_from_slice(b"\n")
}

/// A line for people: the line of the log, the actor, its call, the clause, what it costs, why, and the earlier line that it goes back
/// to.
pub(crate) fn push_long(out: &mut Vec<u8>, shown: &Shown<'_>) -> Result<(), AllocError>
    ensures { OnOk result (out.new.items ≡ out.old.items ++ long_line shown.now) }
{
    out.extend_from_slice(b"line ")?;
    push_number(out, shown.line)?;
    push_part(out, shown.actor)?;
    push_part(out, shown.call)?;
    push_part(out, shown.clause.as_bytes())?;
    out.extend_from_slice(b" (")?;
    out.extend_from_slice(shown.grade.name().as_bytes())?;
    out.extend_from_slice(b")")?;
    push_part(out, shown.why.as_bytes())?;
    push_before(out, shown.before)?;
    out.extend_from_slice(b"\n")
}

// The earlier line that a finding goes back to, if there is one.
fn push_before(out: &mut Vec<u8>, before: Option<u64>) -> Result<(), AllocError>
    ensures { OnOk result (out.new.items ≡ out.old.items ++ before_text before) }
{
    let Some(line) = before else {
        return Ok(());
    };
    out.extend_from_slice(b" (see line ")?;
    push_number(out, line)?;
    out.extend_from_slice(b")")
}

// What comes next in a line for people, after a colon.
fn push_part(out: &mut Vec<u8>, words: &[u8]) -> Result<(), AllocError>
    ensures { OnOk result (out.new.items ≡ out.old.items ++ part words.now) }
{
    out.extend_from_slice(b": ")?;
    push_shown(out, words)
}
