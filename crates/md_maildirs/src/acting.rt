//! Errands on the messages that words name.
//!
//! What a hint allows is done at once. All else waits, until one reading of the maildir serves many.
ghost use Rattle.std.specs.Prelude.{◌≡◌, Some, None, codes, IfOk, IfErr};
ghost use Rattle.std.specs.FinSet as set;
ghost use Rattle.md_command.specs.declared.trouble.Trouble.TheVariants.{NoName};
ghost use Rattle.md_maildirs.specs.Errands.{IsFor, errand_of};

use crate::boxes::maildirs;
use crate::causes::{errand_failure, refused, trouble_of};
use crate::change::Change;
use crate::key::parse_key;
use crate::names::{NAMES, fresh, namer};
use md_command::{Failure, Host, Line, Lines, Progress, Session, Status, Trouble, unescaped};
use md_disk::{Disk, Namer};
use md_jobs::{Answer, Purpose};
use md_name::{Bytes, Flags};
use md_system::run_errand;
use std::mem::replace;

/// How often a message is looked for whose name is gone by the time of the act.
pub(crate) const TRIES: u64 = 16;

// So many errands that wait read the maildir each for itself, and more of them once for all.
const FEW: usize = 3;

// So many errands wait at most.
const MOST_WAITING: usize = 4_096;

// The most bytes of a line that has a key.
const MOST_KEY: usize = 65_536;

/// The word for keys that are read from standard input.
const FROM_INPUT: &str = "-";

/// What is to be done with a message.
#[derive(Drop)]
pub enum Act {
    Seen,
    Flag(Change),
    Move,
    Copy,
    Expunge,
}

/// Does with the message of each key what is to be done; the key `-` stands for the lines of standard input. What a hint allows is done at
/// once, and the others in the order of their keys. The status is the worst one of a message, and standard error has a line for each that
/// failed. Refused before anything is done if a maildir is not there, if no unique name can be made for copies, and when out of memory.
/// That standard input can't be read is told, and no key after it is taken; and so is a directory that could not be flushed after a copy.
pub fn acted<R: Host>(
    session: &Session<'_, R>,
    maildir: &str,
    act: Act,
    to: Option<&str>,
    keys: &[&str],
) -> Result<Status, Failure> {
    let mut acting = Acting::new(session, maildir, act, to)?;
    let taken = acting.take_words(session, keys);
    let done = acting.run_waiting(session);
    acting.progress.end(session);
    if acting.disk.system.is_unflushed() {
        let copied_to = to.unwrap_or(maildir);
        session.tell(copied_to.as_bytes(), &Failure::from(Trouble::Unflushed));
    }
    Ok(taken.worse(done))
}

// What is done with messages of a maildir.
#[derive(Drop)]
struct Acting<'r, R: Host> {
    disk: Disk<'r, R>,
    maildir: String,
    act: Act,
    // Of copies alone.
    namer: Option<Namer>,
    // The words whose messages are to be looked for.
    waiting: Vec<Bytes>,
    progress: Progress,
}

impl<'r, R: Host> Acting<'r, R> {
    fn new(
        session: &Session<'r, R>,
        maildir: &str,
        act: Act,
        to: Option<&str>,
    ) -> Result<Acting<'r, R>, Failure> {
        let disk = match to {
            Some(to) => maildirs(session, &[maildir, to])?,
            None => maildirs(session, &[maildir])?,
        };
        let namer = match &act {
            Act::Copy => Some(namer(session)?),
            _ => None,
        };
        Ok(Acting {
            disk,
            maildir: String::from_str(session.alloc, maildir)?,
            act,
            namer,
            waiting: Vec::new(session.alloc),
            progress: Progress::new(session),
        })
    }

    // The messages that words name, up to a failure of standard input.
    fn take_words(&mut self, session: &Session<'_, R>, words: &[&str]) -> Status {
        let mut worst = Status::Done;
        for word in words {
            if *word == FROM_INPUT {
                if let Err(failure) = self.take_lines(session, &mut worst) {
                    return worst.worse(session.tell(b"standard input", &failure));
                }
            } else {
                worst = worst.worse(self.take(session, word.as_bytes()));
            }
        }
        worst
    }

    // The messages that the lines of standard input name. The worst status takes those of the lines before a failure too.
    fn take_lines(&mut self, session: &Session<'_, R>, worst: &mut Status) -> Result<(), Failure> {
        let mut lines = Lines::new(session.alloc, session.host.reader())?;
        let mut line = Vec::new(session.alloc);
        for _ in 0..u64::MAX {
            let status = match lines.next(&mut line, MOST_KEY) {
                Ok(Line::End) => break,
                Ok(Line::Whole) => self.take_line(session, line.as_slice())?,
                Ok(Line::TooLong) => session.tell(b"-", &Failure::from(Trouble::BadKey)),
                Err(error) => return Err(Failure::of(session.alloc, Trouble::Unread, &error)),
            };
            *worst = worst.worse(status);
        }
        Ok(())
    }

    // The message that a line names.
    fn take_line(&mut self, session: &Session<'_, R>, line: &[u8]) -> Result<Status, Failure> {
        let column = line.strip_suffix(b"\n").unwrap_or(line);
        match unescaped(session.alloc, column)? {
            Some(word) => Ok(self.take(session, word.as_slice())),
            None => Ok(session.tell(column, &Failure::from(Trouble::BadKey))),
        }
    }

    // The message that a word names. What is not done by a hint waits.
    fn take(&mut self, session: &Session<'_, R>, word: &[u8]) -> Status {
        if matches!(self.try_hint(session, word), Ok(true)) {
            self.progress.step(session);
            return Status::Done;
        }
        if let Err(failure) = self.push_waiting(session, word) {
            return session.tell(word, &failure);
        }
        if self.waiting.len() < MOST_WAITING {
            return Status::Done;
        }
        self.run_waiting(session)
    }

    // Does what a word asks for, if a hint is right, and no directory is to be read. Its path is a hint, and so are names that were read.
    fn try_hint(&mut self, session: &Session<'_, R>, word: &[u8]) -> Result<bool, Failure> {
        let Some(key) = parse_key(self.maildir.as_bytes(), word) else {
            return Ok(false);
        };
        if let Some(place) = key.place {
            let name = Bytes::copied(session.alloc, key.name)?;
            self.disk.system.hint(0, place, name);
        }
        self.disk.system.only_hints(true);
        let answer = self.answer(session, key.unique, 1);
        self.disk.system.only_hints(false);
        Ok(trouble_of(answer?).is_none())
    }

    fn push_waiting(&mut self, session: &Session<'_, R>, word: &[u8]) -> Result<(), Failure> {
        Ok(self.waiting.push(Bytes::copied(session.alloc, word)?)?)
    }

    // The messages of all words that wait. Where the maildir can't be read for all, each errand reads it.
    fn run_waiting(&mut self, session: &Session<'_, R>) -> Status {
        let words = replace(&mut self.waiting, Vec::new(session.alloc));
        if words.len() > FEW {
            let _read = self.disk.system.read_ahead(session.alloc, 0);
        }
        let mut worst = Status::Done;
        for word in &words {
            worst = worst.worse(self.run(session, word.as_slice()));
        }
        self.disk.system.outdate();
        worst
    }

    // The message that a word names.
    fn run(&mut self, session: &Session<'_, R>, word: &[u8]) -> Status {
        let status = match self.try_run(session, word) {
            Ok(()) => Status::Done,
            Err(failure) => session.tell(word, &failure),
        };
        self.progress.step(session);
        status
    }

    fn try_run(&mut self, session: &Session<'_, R>, word: &[u8]) -> Result<(), Failure> {
        let Some(key) = parse_key(self.maildir.as_bytes(), word) else {
            return Err(Failure::from(Trouble::BadKey));
        };
        for _ in 0..NAMES {
            match trouble_of(self.answer(session, key.unique, TRIES)?) {
                None => return Ok(()),
                Some(Trouble::NameTaken) if self.namer.is_some() => {}
                Some(trouble) => {
                    return Err(errand_failure(session.alloc, trouble, self.disk.system.cause()));
                }
            }
        }
        Err(Failure::from(Trouble::NameTaken))
    }

    // What an errand on a message is answered.
    fn answer(
        &mut self,
        session: &Session<'_, R>,
        unique: &[u8],
        tries: u64,
    ) -> Result<Answer, Failure> {
        let purpose = self.purpose(session)?;
        let unique = Bytes::copied(session.alloc, unique)?;
        run_errand(session.alloc, &mut self.disk, 0, unique, purpose, tries).map_err(refused)
    }

    fn purpose(&mut self, session: &Session<'_, R>) -> Result<Purpose, Failure>
        ensures { IfOk result (λ purpose. IsFor self.old.act purpose) }
    {
        let name = match &mut self.namer {
            Some(namer) => Some(fresh(session, namer)?),
            None => None,
        };
        purpose_of(&self.act, name)
    }
}

// What an errand is for. A copy's has this fresh name.
fn purpose_of(act: &Act, fresh: Option<Bytes>) -> Result<Purpose, Failure>
    ensures kind { IfOk result (λ purpose. IsFor act.now purpose) }
    ensures made { IfOk result (λ purpose. Some purpose ≡ errand_of act.now fresh) }
    ensures refused { IfErr result (λ failure. (errand_of act.now fresh ≡ None) × (failure.trouble ≡ NoName)) }
{
    match act {
        Act::Seen => Ok(Purpose::Seen(seen())),
        Act::Flag(change) => Ok(Purpose::Flag {
            add: change.add,
            remove: change.remove,
        }),
        Act::Move => Ok(Purpose::Move { to: 1 }),
        Act::Copy => match fresh {
            Some(fresh) => Ok(Purpose::Copy { to: 1, fresh }),
            None => Err(Failure::from(Trouble::NoName)),
        },
        Act::Expunge => Ok(Purpose::Expunge),
    }
}

// The flag S alone.
fn seen() -> Flags
    ensures { result ≡ set.from_list (codes "S") }
{
    Flags::parse(b"S").unwrap_or(Flags::empty())
}
