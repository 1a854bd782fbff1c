//! A trouble with what the system said of it, and the line that says both.
ghost use Rattle.std.specs.Prelude.{◌≡◌, ◌++◌, string_bytes, true, None, IfOk, IfSome, OnOk};
ghost use Rattle.std.specs.Option.{option_copied};
ghost use Rattle.std_io.specs.IoError.{error_kind};
ghost use Rattle.md_command.specs.Failures.{failed, says_all};
ghost use Rattle.md_command.specs.Lines.{failure_line as line_of, cause_text, subject};
ghost use Rattle.md_command.specs.Troubles.{trouble_by};
ghost use Rattle.md_command.specs.declared.trouble.Trouble.TheVariants.{NoMemory};

use crate::escape::push_escaped;
use crate::trouble::Trouble;
use std::alloc::{AllocError, AllocFailed, Global};
use std::io;
use std::io::ErrorKind;

/// Why something is not done, and what the system said.
#[derive(Drop)]
pub struct Failure {
    pub trouble: Trouble,
    pub cause: Option<String>,
    /// The path that it is of, if it is of another than what was to be done.
    pub path: Option<String>,
}

impl Failure {
    /// The same of this path.
    pub fn at(mut self, alloc: Global, path: &str) -> Failure
        ensures trouble { result.trouble ≡ self.trouble }
        ensures cause { result.cause ≡ self.cause }
        ensures path { IfSome result.path (λ said. string_bytes said ≡ path.now) }
    {
        self.path = String::from_str(alloc, path).ok();
        self
    }

    /// A trouble, and what the system said of it. Without rights, and without memory, that is the trouble.
    pub fn of(alloc: Global, trouble: Trouble, error: &io::Error) -> Failure
        ensures trouble { result.trouble ≡ trouble_by trouble (error_kind error.now) }
        ensures cause { says_all (error_kind error.now) ≡ true → result.cause ≡ None }
        ensures path { result.path ≡ None }
    {
        match error.kind() {
            ErrorKind::PermissionDenied => Failure::from(Trouble::NoRights),
            ErrorKind::OutOfMemory => Failure::from(Trouble::NoMemory),
            _ => Failure {
                trouble,
                cause: format!(in alloc; "{error}").ok(),
                path: None,
            },
        }
    }
}

impl From<Trouble> for Failure {
    ghost from_gives = { λ trouble result. result ≡ failed trouble };

    fn from(trouble: Trouble) -> Failure {
        Failure {
            trouble,
            cause: None,
            path: None,
        }
    }
}

impl From<AllocError> for Failure {
    ghost from_gives = { λ _ result. result ≡ failed NoMemory };

    fn from(_error: AllocError) -> Failure {
        Failure::from(Trouble::NoMemory)
    }
}

impl<T: Drop> From<AllocFailed<T>> for Failure {
    ghost from_gives = { λ _ result. result ≡ failed NoMemory };

    fn from(_error: AllocFailed<T>) -> Failure {
        Failure::from(Trouble::NoMemory)
    }
}

/// The line that says of something why it is not done: `deolmutt: WHAT: WHY`, and what the system said behind another colon. A failure that
/// has a path is of that.
pub(crate) fn failure_line(
    alloc: Global,
    what: &[u8],
    failure: &Failure,
) -> Result<Vec<u8>, AllocError>
    ensures { IfOk result (λ line. line.items ≡ line_of what.now failure.now) }
{
    let mut line = Vec::from_slice(alloc, b"deolmutt: ")?;
    push_escaped(&mut line, subject(what, failure.path.as_ref()))?;
    line.extend_from_slice(b": ")?;
    line.extend_from_slice(failure.trouble.text().as_bytes())?;
    push_cause(&mut line, failure.cause.as_ref())?;
    line.extend_from_slice(b"\n")?;
    Ok(line)
}

// What a line is of: a path, if there is one, or else what was to be done.
fn subject<'a>(what: &'a [u8], path: Option<&'a String>) -> &'a [u8]
    ensures { result.now ≡ subject what.now (option_copied path.entry) }
{
    match path {
        Some(path) => path.as_bytes(),
        None => what,
    }
}

// Appends a colon and what the system said, if it said anything.
fn push_cause(line: &mut Vec<u8>, cause: Option<&String>) -> Result<(), AllocError>
    ensures { OnOk result (line.new.items ≡ line.old.items ++ cause_text (option_copied cause.entry)) }
{
    let Some(cause) = cause else {
        return Ok(());
    };
    line.extend_from_slice(b": ")?;
    line.extend_from_slice(cause.as_bytes())
}
