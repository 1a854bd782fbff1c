//! Steps, as a log has them: the directory call with its paths and its reply, and the effect as a comment.
ghost use Rattle.std.specs.Prelude.{◌≡◌, ◌++◌, ◌≤◌, Some, None, IsSome, codes};
ghost use Rattle.std.specs.Fmt.{decimal};
ghost use Rattle.std.specs.Option.{option_copied};
ghost use Rattle.md_trace.specs.Growing.{Grows, GrowsIf, most, path_text};
ghost use Rattle.md_trace.specs.Steps.{call_text, change_text, noted_text, reply_text, shown_text, step_text};
ghost use Rattle.md_trace.specs.declared.noted.Noted.{Noted as NotedSeen};

use crate::noted::Noted;
use crate::rows::push_names;
use crate::text::Log;
use md_core::{Change, DirCall, DirReply, Event, StepOut};
use md_dirs::{Dirs, Place};
use md_script::PlayKind;
use md_text::place_text;

/// `MOMENT job`, the beginning of a line of a job. The moment is the step's own: the clock of a log is the greatest so far, as that of a
/// store.
pub(crate) fn push_begin(log: &mut Log, event: Event)
    ensures { GrowsIf (event.now ≤ most) (decimal event.now ++ codes " job") log.old log.new }
{
    log.push_seconds(event.now);
    log.push(b" job");
}

/// The line of a step, whose paths were noted. `NoMemory` where there is no note.
pub(crate) fn push_step<D: Dirs>(
    log: &mut Log,
    dirs: &D,
    noted: Option<&Noted>,
    event: Event,
    out: &StepOut,
)
    ensures noted { (note : NotedSeen) → option_copied noted.entry ≡ Some note
        → GrowsIf (event.now ≤ most) (step_text log.old (D.device dirs.now).state event out.now note) log.old log.new }
    ensures lacks { option_copied noted.entry ≡ None → IsSome log.new.refused }
{
    match noted {
        Some(noted) => push_noted_step(log, dirs, noted, event, out),
        None => log.refuse(PlayKind::NoMemory),
    }
}

fn push_noted_step<D: Dirs>(log: &mut Log, dirs: &D, noted: &Noted, event: Event, out: &StepOut)
    ensures { GrowsIf (event.now ≤ most) (step_text log.old (D.device dirs.now).state event out.now noted.now) log.old log.new }
{
    push_begin(log, event);
    log.push_number(event.job);
    log.push(call_text(out.call));
    push_noted(log, noted);
    log.push(reply_text(out.reply));
    push_shown(log, dirs, noted, out.reply);
    log.push(b"\n");
}

// The names that a listing showed. It changes nothing, so that those after it are those that it read.
fn push_shown<D: Dirs>(log: &mut Log, dirs: &D, noted: &Noted, reply: DirReply)
    ensures { Grows (shown_text (D.device dirs.now).state reply noted.now) log.old log.new }
{
    if let (DirReply::Ok, Noted::Directory { folder, place }) = (reply, noted) {
        push_names(log, dirs, *folder, *place);
    }
}

fn push_noted(log: &mut Log, noted: &Noted)
    ensures { Grows (noted_text log.old noted.now) log.old log.new }
{
    match noted {
        Noted::One(path) => log.push_path(path.folder, path.place, path.name.as_slice()),
        Noted::Two { old, new } => {
            log.push_path(old.folder, old.place, old.name.as_slice());
            log.push_path(new.folder, new.place, new.name.as_slice());
        }
        Noted::Directory { folder, place } => {
            log.push(b" ");
            log.push_folder(*folder);
            log.push(b" ");
            log.push(place_text(*place));
        }
    }
}

fn call_text(call: DirCall) -> &'static [u8]
    ensures { result.now ≡ call_text call }
{
    match call {
        DirCall::Create => b" create",
        DirCall::Append(_) => b" write",
        DirCall::Link => b" link",
        DirCall::Rename => b" rename",
        DirCall::Unlink => b" unlink",
        DirCall::List(_) => b" list",
    }
}

fn reply_text(reply: DirReply) -> &'static [u8]
    ensures { result.now ≡ reply_text reply }
{
    match reply {
        DirReply::Ok => b" ok",
        DirReply::Exists => b" exists",
        DirReply::NotFound => b" notfound",
        DirReply::Fault => b" fault",
    }
}

/// `# effect` and the change: `add PATH SIZE`, `rename PATH PATH`, `remove PATH` or `same`.
pub(crate) fn push_effect(log: &mut Log, change: &Change)
    ensures { Grows (codes "# effect " ++ change_text log.old change.now ++ codes "\n") log.old log.new }
{
    log.push(b"# effect ");
    push_change(log, change);
    log.push(b"\n");
}

fn push_change(log: &mut Log, change: &Change)
    ensures { Grows (change_text log.old change.now) log.old log.new }
{
    match change {
        Change::Add {
            folder,
            place,
            name,
            size,
        } => push_add(log, *folder, *place, name.as_slice(), *size),
        Change::Rename {
            folder,
            place,
            name,
            to_folder,
            to_place,
            to_name,
        } => {
            push_at(log, b"rename", *folder, *place, name.as_slice());
            log.push_path(*to_folder, *to_place, to_name.as_slice());
        }
        Change::Remove {
            folder,
            place,
            name,
        } => push_at(log, b"remove", *folder, *place, name.as_slice()),
        Change::Same => log.push(b"same"),
    }
}

fn push_add(log: &mut Log, folder: u32, place: Place, name: &[u8], size: u64)
    ensures { Grows (codes "add" ++ path_text log.old folder place name.now ++ codes " " ++ decimal size) log.old log.new }
{
    push_at(log, b"add", folder, place, name);
    log.push(b" ");
    log.push_number(size);
}

// A word, and the path that it is of.
fn push_at(log: &mut Log, word: &[u8], folder: u32, place: Place, name: &[u8])
    ensures { Grows (word.now ++ path_text log.old folder place name.now) log.old log.new }
{
    log.push(word);
    log.push_path(folder, place, name);
}
