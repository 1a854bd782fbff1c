//! What made names and header summaries print.
ghost use Rattle.std.specs.Prelude.{◌≡◌, ◌++◌, codes, OnOk};
ghost use mathlib.Core.List.{IsPrefix};
ghost use Rattle.std.specs.Option.{option_copied};
ghost use Rattle.md_script.specs.Texts.{line_end, value_line, seconds_line, values_text, summary_text};

use crate::digits::push_signed;
use md_head::Summary;
use md_name::Bytes;
use md_text::push_escaped;
use std::alloc::AllocError;

/// Appends `unique` and a name.
pub(crate) fn push_unique(out: &mut Vec<u8>, name: &[u8]) -> Result<(), AllocError>
    ensures { OnOk result (out.new.items ≡ out.old.items ++ (codes "unique " ++ name.now ++ line_end)) }
{
    out.extend_from_slice(b"unique ")?;
    out.extend_from_slice(name)?;
    out.push(b'\n')?;
    Ok(())
}

/// Appends the lines of a header summary, a line for each value that is there, and `end`.
#[tactic(auto, using(md_text::proofs::Growing::grown, md_text::proofs::Growing::grown_if, md_text::proofs::Growing::grown_on))]
pub fn push_summary(out: &mut Vec<u8>, summary: &Summary) -> Result<(), AllocError>
    ensures text { OnOk result (out.new.items ≡ out.old.items ++ summary_text summary.now) }
    ensures kept { IsPrefix out.old.items out.new.items }
{
    push_values(out, summary)?;
    push_seconds(out, summary.seconds)?;
    out.extend_from_slice(b"end\n")
}

#[tactic(auto, using(md_text::proofs::Growing::grown, md_text::proofs::Growing::grown_if, md_text::proofs::Growing::grown_on))]
fn push_values(out: &mut Vec<u8>, summary: &Summary) -> Result<(), AllocError>
    ensures text { OnOk result (out.new.items ≡ out.old.items ++ values_text summary.now) }
    ensures kept { IsPrefix out.old.items out.new.items }
{
    push_value(out, b"subject", summary.subject.as_ref())?;
    push_value(out, b"from", summary.from.as_ref())?;
    push_value(out, b"message-id", summary.message_id.as_ref())?;
    push_value(out, b"date", summary.date.as_ref())
}

#[tactic(auto, using(md_text::proofs::Growing::grown, md_text::proofs::Growing::grown_if, md_text::proofs::Growing::grown_on))]
fn push_value(out: &mut Vec<u8>, name: &[u8], value: Option<&Bytes>) -> Result<(), AllocError>
    ensures text { OnOk result (out.new.items ≡ out.old.items ++ value_line name.now (option_copied value.entry)) }
    ensures kept { IsPrefix out.old.items out.new.items }
{
    let Some(value) = value else {
        return Ok(());
    };
    out.extend_from_slice(name)?;
    out.push(b'=')?;
    push_escaped(out, value.as_slice())?;
    out.push(b'\n')?;
    Ok(())
}

#[tactic(auto, using(md_text::proofs::Growing::grown, md_text::proofs::Growing::grown_if, md_text::proofs::Growing::grown_on))]
fn push_seconds(out: &mut Vec<u8>, seconds: Option<i64>) -> Result<(), AllocError>
    ensures text { OnOk result (out.new.items ≡ out.old.items ++ seconds_line seconds) }
    ensures kept { IsPrefix out.old.items out.new.items }
{
    let Some(seconds) = seconds else {
        return Ok(());
    };
    out.extend_from_slice(b"seconds=")?;
    push_signed(out, seconds)?;
    out.push(b'\n')?;
    Ok(())
}
