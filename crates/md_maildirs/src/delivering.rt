//! Messages that are delivered.
ghost use Rattle.std.specs.Prelude.{◌≡◌, None};
ghost use Rattle.md_command.specs.declared.trouble.Trouble.TheVariants.{Unprinted};

use crate::boxes::{must_be_maildir, target};
use crate::causes::{failure_caused, refused, trouble_of};
use crate::messages::Messages;
use crate::names::{NAMES, fresh, namer};
use md_command::{
    Failure, Host, Lines, Progress, Session, Status, Trouble, message, message_of, names_of,
    path_in, print, push_escaped,
};
use md_dirs::Bytes;
use md_disk::{Disk, Namer};
use md_system::deliver;

// Bytes of a message that are written at once.
const CHUNK: u64 = 65_536;

/// How messages are delivered.
#[derive(Drop)]
pub struct Delivering<'a> {
    /// The folder of Maildir++.
    pub folder: Option<&'a str>,
    pub flushes: bool,
    pub source: MailSource<'a>,
    pub prints: bool,
}

/// Where messages are read that are delivered.
#[derive(Clone, Copy)]
pub enum MailSource<'a> {
    /// Standard input is a message.
    Message,
    /// Standard input is an mbox.
    Mailbox,
    /// The files of the directory of this path, which has no slashes at its end.
    Files(&'a str),
}

/// Delivers what is on standard input, a message or those of an mbox (mboxrd), or the regular files of a directory in order of their names,
/// each of at most 16 MiB. It ends at the first that is not delivered; a file that is no message is passed over. Where the name of one that
/// was delivered can't be printed, that is told, and the others are delivered. Refused before the first where there is no such maildir,
/// and where no unique name can be made. However it ends, a directory that could not be flushed is told.
pub fn delivered<R: Host>(
    session: &Session<'_, R>,
    maildir: &str,
    how: &Delivering<'_>,
) -> Result<Status, Failure> {
    let mut sending = Sending::new(session, maildir, how)?;
    let sent = match how.source {
        MailSource::Message => sending.send_input(session),
        MailSource::Mailbox => sending.send_mailbox(session),
        MailSource::Files(path) => sending.send_files(session, path),
    };
    sending.progress.end(session);
    if sending.disk.system.is_unflushed() {
        session.tell(
            sending.folder.as_bytes(),
            &Failure::from(Trouble::Unflushed),
        );
    }
    sent
}

// The lines of standard input.
fn input<R: Host>(session: &Session<'_, R>) -> Result<Lines<R::Reader>, Failure> {
    Ok(Lines::new(session.alloc, session.host.reader())?)
}

// A maildir to which messages are delivered.
#[derive(Drop)]
struct Sending<'r, R: Host> {
    disk: Disk<'r, R>,
    // The path of the maildir.
    folder: String,
    namer: Namer,
    prints: bool,
    progress: Progress,
}

impl<'r, R: Host> Sending<'r, R> {
    fn new(
        session: &Session<'r, R>,
        maildir: &str,
        how: &Delivering<'_>,
    ) -> Result<Sending<'r, R>, Failure> {
        let folder = match how.folder {
            Some(name) => format!(in session.alloc; "{maildir}/.{name}")?,
            None => String::from_str(session.alloc, maildir)?,
        };
        Ok(Sending {
            disk: target(session, folder.as_str(), how.flushes)?,
            folder,
            namer: namer(session)?,
            prints: how.prints,
            progress: Progress::new(session),
        })
    }

    // Delivers a message. The status is of what was done after that.
    fn send(&mut self, session: &Session<'_, R>, message: &[u8]) -> Result<Status, Failure> {
        let alloc = session.alloc;
        for _ in 0..NAMES {
            let unique = fresh(session, &mut self.namer)?;
            let name = unique.again(alloc)?;
            let body = Bytes::copied(alloc, message)?;
            let answer = deliver(alloc, &mut self.disk, 0, unique, body, CHUNK).map_err(refused)?;
            match trouble_of(answer) {
                None => return Ok(self.sent(session, name.as_slice())),
                Some(Trouble::NameTaken) => {}
                Some(trouble) => return Err(self.failure(session, trouble)),
            }
        }
        Err(Failure::from(Trouble::NameTaken))
    }

    // Why a message was not delivered: where the maildir lacks a directory, that.
    fn failure(&self, session: &Session<'_, R>, trouble: Trouble) -> Failure {
        match must_be_maildir(session, self.folder.as_str()) {
            Ok(()) => failure_caused(session.alloc, trouble, self.disk.system.cause()),
            Err(failure) => failure,
        }
    }

    // A message was delivered under this name. Where that can't be printed it is delivered all the same, and nobody has to try again.
    fn sent(&mut self, session: &Session<'_, R>, name: &[u8]) -> Status {
        self.progress.step(session);
        if !self.prints {
            return Status::Done;
        }
        match print_name(session, name) {
            Ok(()) => Status::Done,
            Err(failure) => session.tell(name, &unprinted(failure)),
        }
    }

    // Delivers standard input as a message.
    fn send_input(&mut self, session: &Session<'_, R>) -> Result<Status, Failure> {
        match message(session.alloc, input(session)?) {
            Ok(message) => self.send(session, message.as_slice()),
            Err(failure) => Err(failure.at(session.alloc, "standard input")),
        }
    }

    // Delivers the messages of an mbox, until one is not read or not delivered. Its number says which ones were.
    fn send_mailbox(&mut self, session: &Session<'_, R>) -> Result<Status, Failure> {
        let mut messages = Messages::new(session.alloc, input(session)?);
        let mut worst = Status::Done;
        for count in 1..u64::MAX {
            match self.send_next(session, &mut messages) {
                Ok(Some(status)) => worst = worst.worse(status),
                Ok(None) => break,
                Err(failure) => {
                    let name = format!(in session.alloc; "message {count}")?;
                    return Ok(worst.worse(session.tell(name.as_bytes(), &failure)));
                }
            }
        }
        Ok(worst)
    }

    // Delivers the files of a directory, until one is not delivered. One that is no message is passed over.
    fn send_files(&mut self, session: &Session<'_, R>, dir: &str) -> Result<Status, Failure> {
        let mut worst = Status::Done;
        for name in &names_of(session, dir)? {
            let path = path_in(session.alloc, dir, name.as_slice())?;
            match message_of(session, path.as_slice()) {
                Ok(message) => match self.send(session, message.as_slice()) {
                    Ok(status) => worst = worst.worse(status),
                    Err(failure) => {
                        return Ok(worst.worse(session.tell(path.as_slice(), &failure)));
                    }
                },
                Err(failure) => worst = worst.worse(session.tell(path.as_slice(), &failure)),
            }
        }
        Ok(worst)
    }

    // Delivers the next message of an mbox. None past the last.
    fn send_next(
        &mut self,
        session: &Session<'_, R>,
        messages: &mut Messages<R::Reader>,
    ) -> Result<Option<Status>, Failure> {
        let Some(draft) = messages.next_message(session.alloc)? else {
            return Ok(None);
        };
        if draft.is_too_long {
            return Err(Failure::from(Trouble::TooLong));
        }
        Ok(Some(self.send(session, draft.bytes.as_slice())?))
    }
}

// Prints a unique name, in a line.
fn print_name<R: Host>(session: &Session<'_, R>, name: &[u8]) -> Result<(), Failure> {
    let mut line = Vec::new(session.alloc);
    push_escaped(&mut line, name)?;
    line.push(b'\n')?;
    print(session, line.as_slice())
}

// That a name was not printed, with what the system said of it.
fn unprinted(failure: Failure) -> Failure
    ensures { result ≡ record { trouble = Unprinted; cause = failure.cause; path = None } }
{
    Failure {
        trouble: Trouble::Unprinted,
        cause: failure.cause,
        path: None,
    }
}
