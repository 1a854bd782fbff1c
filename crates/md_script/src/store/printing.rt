//! What jobs, their steps and messages print.
ghost use Rattle.std.specs.Prelude.{◌≡◌, ◌++◌, Some, OnOk, codes, decimal, option_map};
ghost use mathlib.Core.List.{IsPrefix};
ghost use Rattle.md_script.specs.Texts.{line_end, job_text, call_text, reply_text, answer_text, answer_line, out_text, bytes_text};

use crate::digits::push_line;
use crate::flags::push_letters;
use md_core::{Answer, DirCall, DirReply, JobId, StepOut};
use md_dirs::Place;
use md_text::{place_text, push_escaped};
use std::alloc::AllocError;

/// `job J`, for a job that was submitted.
pub(super) fn push_job(out: &mut Vec<u8>, job: JobId) -> Result<(), AllocError>
    ensures { OnOk result (out.new.items ≡ out.old.items ++ job_text job) }
{
    out.extend_from_slice(b"job ")?;
    push_line(out, job, *b"00000000000000000000\n")
}

/// `J CALL REPLY`, for a step of the job, and `J answer A` where it answers the job.
pub(super) fn push_step(out: &mut Vec<u8>, job: JobId, step: StepOut) -> Result<(), AllocError>
    ensures { OnOk result (out.new.items ≡ out.old.items ++ out_text job step) }
{
    push_call_line(out, job, step.call, step.reply)?;
    match step.answer {
        None => Ok(()),
        Some(answer) => push_answer_line(out, job, answer),
    }
}

/// `J CALL REPLY`.
fn push_call_line(
    out: &mut Vec<u8>,
    job: JobId,
    call: DirCall,
    reply: DirReply,
) -> Result<(), AllocError>
    ensures { OnOk result (out.new.items ≡ out.old.items ++ decimal job ++ codes " " ++ call_text call ++ codes " " ++ reply_text reply ++ line_end) }
{
    // Nearly every call is done.
    if let DirReply::Ok = reply {
        return push_done(out, job, call);
    }
    push_line(out, job, *b"00000000000000000000 ")?;
    push_call(out, call)?;
    out.extend_from_slice(reply_end(reply))
}

/// `J CALL ok`.
fn push_done(out: &mut Vec<u8>, job: JobId, call: DirCall) -> Result<(), AllocError>
    ensures { OnOk result (out.new.items ≡ out.old.items ++ decimal job ++ codes " " ++ call_text call ++ codes " ok" ++ line_end) }
{
    match call {
        DirCall::Create => push_line(out, job, *b"00000000000000000000 create ok\n"),
        DirCall::Append(count) => push_appended(out, job, count),
        DirCall::Link => push_line(out, job, *b"00000000000000000000 link ok\n"),
        DirCall::Rename => push_line(out, job, *b"00000000000000000000 rename ok\n"),
        DirCall::Unlink => push_line(out, job, *b"00000000000000000000 unlink ok\n"),
        DirCall::List(Place::Tmp) => push_line(out, job, *b"00000000000000000000 list tmp ok\n"),
        DirCall::List(Place::New) => push_line(out, job, *b"00000000000000000000 list new ok\n"),
        DirCall::List(Place::Cur) => push_line(out, job, *b"00000000000000000000 list cur ok\n"),
    }
}

/// `J append COUNT ok`. A count of one digit, as of pieces of a byte, stands in the line, which is appended at once then.
#[tactic(auto, using(crate::proofs::Decimals::short_decimal))]
fn push_appended(out: &mut Vec<u8>, job: JobId, count: u64) -> Result<(), AllocError>
    ensures { OnOk result (out.new.items ≡ out.old.items ++ decimal job ++ codes " append " ++ decimal count ++ codes " ok" ++ line_end) }
{
    if count < 10 {
        let mut line = *b"00000000000000000000 append 0 ok\n";
        line[28] = b'0' + count as u8;
        return push_line(out, job, line);
    }
    push_line(out, job, *b"00000000000000000000 append ")?;
    push_line(out, count, *b"00000000000000000000 ok\n")
}

/// Appends `J answer A`, the line of a job's answer. Where memory runs out, some of it may have been appended.
#[tactic(auto, using(md_text::proofs::Growing::grown, md_text::proofs::Growing::grown_if, md_text::proofs::Growing::grown_on))]
pub fn push_answer_line(out: &mut Vec<u8>, job: JobId, answer: Answer) -> Result<(), AllocError>
    ensures text { OnOk result (out.new.items ≡ out.old.items ++ answer_line job (Some answer)) }
    ensures kept { IsPrefix out.old.items out.new.items }
{
    match answer {
        Answer::Delivered => push_line(out, job, *b"00000000000000000000 answer delivered\n"),
        Answer::Flags(flags) => {
            push_line(out, job, *b"00000000000000000000 answer flags ")?;
            push_letters(out, flags)?;
            Ok(out.push(b'\n')?)
        }
        Answer::Moved => push_line(out, job, *b"00000000000000000000 answer moved\n"),
        Answer::Copied => push_line(out, job, *b"00000000000000000000 answer copied\n"),
        Answer::Expunged => push_line(out, job, *b"00000000000000000000 answer expunged\n"),
        Answer::Cleaned(count) => {
            push_line(out, job, *b"00000000000000000000 answer cleaned ")?;
            push_line(out, count, *b"00000000000000000000\n")
        }
        Answer::NotThere => push_line(out, job, *b"00000000000000000000 answer notthere\n"),
        Answer::NotTrashed => push_line(out, job, *b"00000000000000000000 answer nottrashed\n"),
        Answer::OtherInfo => push_line(out, job, *b"00000000000000000000 answer otherinfo\n"),
        Answer::Lost => push_line(out, job, *b"00000000000000000000 answer lost\n"),
        Answer::TimedOut => push_line(out, job, *b"00000000000000000000 answer timedout\n"),
        Answer::TmpGone => push_line(out, job, *b"00000000000000000000 answer tmpgone\n"),
        Answer::NameTaken => push_line(out, job, *b"00000000000000000000 answer nametaken\n"),
        Answer::Fault => push_line(out, job, *b"00000000000000000000 answer fault\n"),
    }
}

/// `CALL` and a space.
fn push_call(out: &mut Vec<u8>, call: DirCall) -> Result<(), AllocError>
    ensures { OnOk result (out.new.items ≡ out.old.items ++ call_text call ++ codes " ") }
{
    match call {
        DirCall::Create => out.extend_from_slice(b"create "),
        DirCall::Append(count) => {
            out.extend_from_slice(b"append ")?;
            push_line(out, count, *b"00000000000000000000 ")
        }
        DirCall::Link => out.extend_from_slice(b"link "),
        DirCall::Rename => out.extend_from_slice(b"rename "),
        DirCall::Unlink => out.extend_from_slice(b"unlink "),
        DirCall::List(place) => {
            out.extend_from_slice(b"list ")?;
            out.extend_from_slice(place_text(place))?;
            Ok(out.push(b' ')?)
        }
    }
}

/// `REPLY`, the end of a step's line.
fn reply_end(reply: DirReply) -> &'static [u8]
    ensures { result.now ≡ reply_text reply ++ line_end }
{
    match reply {
        DirReply::Ok => b"ok\n",
        DirReply::Exists => b"exists\n",
        DirReply::NotFound => b"notfound\n",
        DirReply::Fault => b"fault\n",
    }
}

/// `bytes=` and the bytes of a message, with escapes, or `none`.
pub(super) fn push_bytes(out: &mut Vec<u8>, bytes: Option<&[u8]>) -> Result<(), AllocError>
    ensures { OnOk result (out.new.items ≡ out.old.items ++ bytes_text (option_map (λ b. b.now) bytes.entry)) }
{
    let Some(bytes) = bytes else {
        return out.extend_from_slice(b"none\n");
    };
    out.extend_from_slice(b"bytes=")?;
    push_escaped(out, bytes)?;
    out.push(b'\n')?;
    Ok(())
}
