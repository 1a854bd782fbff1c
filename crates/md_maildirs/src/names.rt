//! Unique names that a command makes, and names of folders.
ghost use Rattle.std.specs.Prelude.{◌≡◌};
ghost use Rattle.md_maildirs.specs.Causes.{trouble_of_name};
ghost use Rattle.md_maildirs.specs.Folders.{is_folder};

use md_command::{Failure, Host, Session, Trouble};
use md_dirs::Bytes;
use md_disk::{Namer, host_name};
use md_name::NameError;

/// How many names are made for a message where each is taken.
pub(crate) const NAMES: u32 = 16;

/// Whether a folder of Maildir++ may have the name: it is not empty, begins with no dot, and holds no slash.
pub fn is_folder(name: &[u8]) -> bool
    ensures { result ≡ is_folder name.now }
{
    !name.is_empty() && !name.starts_with(b".") && !name.contains(&b'/')
}

/// What makes unique names. A command makes one at most.
pub(crate) fn namer<R: Host>(session: &Session<'_, R>) -> Result<Namer, Failure> {
    let host = host_name(session.alloc, session.host).map_err(unnamed)?;
    Ok(Namer::new(session.pid, host))
}

/// A unique name that was not made before.
pub(crate) fn fresh<R: Host>(
    session: &Session<'_, R>,
    namer: &mut Namer,
) -> Result<Bytes, Failure> {
    namer.name(session.alloc, session.host).map_err(unnamed)
}

// Why no name was made.
fn unnamed(error: NameError) -> Failure
    ensures { result.trouble ≡ trouble_of_name error }
{
    match error {
        NameError::NoMemory => Failure::from(Trouble::NoMemory),
        _ => Failure::from(Trouble::NoName),
    }
}
