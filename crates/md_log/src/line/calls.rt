//! Lines of steps.
ghost use Rattle.std.specs.Prelude.{◌≡◌, ◌<◌, length};
ghost use Rattle.std.specs.Option.{option_copied};
ghost use Rattle.md_text.specs.Bind.{Reads};
ghost use Rattle.md_log.specs.Words.{Gives};
ghost use Rattle.md_log.specs.Lines.{step_line, call_line, at_line, between_line, list_line, reply_at};

use super::answers::answer_line;
use super::ticks::time_of;
use super::{Call, Deed, Naming, Reply, Step, folder, path};
use crate::error::LineFault;
use crate::names::names_in;
use crate::words::{end, word};
use md_dirs::Bytes;
use md_text::{Folders, Rest, place_from};
use std::alloc::Global;

/// A step, whose first word was read.
#[tactic(auto, unfolding(crate::specs::Lines::step_line))]
pub(super) fn step_line(
    alloc: Global,
    folders: &Folders,
    first: &[u8],
    rest: Rest<'_>,
) -> Result<Step, LineFault>
    requires { 0 < length first.now }
    ensures { Gives (λ step. step) result (step_line folders.now first.now (option_copied rest.entry)) }
{
    let (moment, ticks) = time_of(first)?;
    let (actor, rest) = word(rest)?;
    let call = call_line(alloc, folders, rest)?;
    let actor = Bytes::copied(alloc, actor)?;
    Ok(Step {
        moment,
        ticks,
        actor,
        call,
    })
}

/// The words after the actor: a call, its paths and its reply.
#[tactic(auto, unfolding(crate::specs::Lines::call_line))]
fn call_line(alloc: Global, folders: &Folders, rest: Rest<'_>) -> Result<Call, LineFault>
    ensures { Gives (λ call. call) result (call_line folders.now (option_copied rest.entry)) }
{
    let (verb, rest) = word(rest)?;
    if verb == b"create".as_slice() {
        at_line(alloc, folders, Deed::Create, rest)
    } else if verb == b"write".as_slice() {
        at_line(alloc, folders, Deed::Write, rest)
    } else if verb == b"flush".as_slice() {
        at_line(alloc, folders, Deed::Flush, rest)
    } else if verb == b"unlink".as_slice() {
        at_line(alloc, folders, Deed::Unlink, rest)
    } else if verb == b"link".as_slice() {
        between_line(alloc, folders, Naming::Link, rest)
    } else if verb == b"rename".as_slice() {
        between_line(alloc, folders, Naming::Rename, rest)
    } else if verb == b"list".as_slice() {
        list_line(alloc, folders, rest)
    } else if verb == b"answer".as_slice() {
        answer_line(alloc, folders, rest)
    } else {
        Err(LineFault::BadLine)
    }
}

#[tactic(auto, unfolding(crate::specs::Lines::at_line))]
fn at_line(alloc: Global, folders: &Folders, deed: Deed, rest: Rest<'_>) -> Result<Call, LineFault>
    ensures { Gives (λ call. call) result (at_line folders.now deed (option_copied rest.entry)) }
{
    let (path, rest) = path(alloc, folders, rest)?;
    let (reply, rest) = reply(rest, matches!(deed, Deed::Create), false)?;
    end(rest)?;
    Ok(Call::At { deed, path, reply })
}

#[tactic(auto, unfolding(crate::specs::Lines::between_line))]
fn between_line(
    alloc: Global,
    folders: &Folders,
    naming: Naming,
    rest: Rest<'_>,
) -> Result<Call, LineFault>
    ensures { Gives (λ call. call) result (between_line folders.now naming (option_copied rest.entry)) }
{
    let (old, rest) = path(alloc, folders, rest)?;
    let (new, rest) = path(alloc, folders, rest)?;
    let (reply, rest) = reply(rest, matches!(naming, Naming::Link), false)?;
    end(rest)?;
    Ok(Call::Between {
        naming,
        old,
        new,
        reply,
    })
}

#[tactic(auto, unfolding(crate::specs::Lines::list_line))]
fn list_line(alloc: Global, folders: &Folders, rest: Rest<'_>) -> Result<Call, LineFault>
    ensures { Gives (λ call. call) result (list_line folders.now (option_copied rest.entry)) }
{
    let (first, rest) = word(rest)?;
    let folder = folder(alloc, folders, first)?;
    let (second, rest) = word(rest)?;
    let place = place_from(second).ok_or(LineFault::BadPlace)?;
    let (reply, rest) = reply(rest, false, true)?;
    let shown = names_in(alloc, rest)?;
    Ok(Call::List {
        folder,
        place,
        reply,
        shown,
    })
}

/// The next word as the reply of a call that may find that a name exists, or not, and that may go on, or not.
#[tactic(auto, unfolding(crate::specs::Lines::reply_at))]
fn reply(rest: Rest<'_>, may_exist: bool, may_go_on: bool) -> Result<(Reply, Rest<'_>), LineFault>
    ensures { Reads (λ read. (read.0, option_copied read.1)) result (reply_at may_exist may_go_on (option_copied rest.entry)) }
{
    let (word, rest) = word(rest)?;
    if word == b"ok".as_slice() {
        Ok((Reply::Ok, rest))
    } else if word == b"more".as_slice() && may_go_on {
        Ok((Reply::More, rest))
    } else if word == b"exists".as_slice() && may_exist {
        Ok((Reply::Exists, rest))
    } else if word == b"notfound".as_slice() {
        Ok((Reply::NotFound, rest))
    } else if word == b"fault".as_slice() {
        Ok((Reply::Fault, rest))
    } else {
        Err(LineFault::BadReply)
    }
}
