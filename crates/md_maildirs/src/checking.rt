//! What breaks the format of a maildir, printed.
ghost use Rattle.std.specs.Prelude.{◌≡◌, ◌++◌, IfOk, OnOk};
ghost use Rattle.std.specs.List.{flat_map};
ghost use Rattle.md_maildirs.specs.Rows.{flaw_text};

use crate::boxes::maildirs;
use crate::causes::{failure_caused, refused};
use md_command::{Failure, Host, Session, Status, Trouble, print, push_escaped};
use md_disk::check_folders;
use md_jobs::DirReply;
use md_system::Flaw;
use md_text::place_text;
use std::alloc::{AllocError, Global};

/// Prints a line for each flaw of a maildir: what it is, the place and the name, with tabs between. It is refused as `Flawed` after that,
/// where there is one, and before where there is no such maildir or a directory can't be read.
pub fn checked<R: Host>(session: &Session<'_, R>, maildir: &str) -> Result<Status, Failure> {
    let disk = maildirs(session, &[maildir])?;
    let (reply, flaws) = check_folders(session.alloc, &disk).map_err(refused)?;
    if reply != DirReply::Ok {
        return Err(failure_caused(session.alloc, Trouble::Fault, disk.system.cause()));
    }
    if flaws.is_empty() {
        return Ok(Status::Done);
    }
    print(session, &lines_of(session.alloc, &flaws)?)?;
    Err(Failure::from(Trouble::Flawed))
}

fn lines_of(alloc: Global, flaws: &[Flaw]) -> Result<Vec<u8>, AllocError>
    ensures { IfOk result (λ text. text.items ≡ flat_map flaw_text flaws.now) }
{
    let mut text = Vec::new(alloc);
    for flaw in flaws {
        push_flaw(&mut text, flaw)?;
    }
    Ok(text)
}

// Appends the line of a flaw: what it is, the place and the name.
fn push_flaw(text: &mut Vec<u8>, flaw: &Flaw) -> Result<(), AllocError>
    ensures { OnOk result (text.new.items ≡ text.old.items ++ flaw_text flaw.now) }
{
    text.extend_from_slice(flaw.kind.text())?;
    text.extend_from_slice(b"\t")?;
    text.extend_from_slice(place_text(flaw.place))?;
    text.extend_from_slice(b"\t")?;
    push_escaped(text, flaw.name.as_slice())?;
    text.extend_from_slice(b"\n")
}
