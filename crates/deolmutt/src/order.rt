//! What words ask for.
use clap::ArgMatches;
use md_command::{Mistake, Trouble};
use md_findings::{Judging, read_judging};
use md_maildirs::{
    Act, Change, Delivering, MailSource, Shape, is_folder, parse_change, parse_letters,
};
use md_name::Flags;
use std::alloc::Global;

/// What a command line asks for.
#[derive(Drop)]
pub(crate) enum Order<'a> {
    /// Work on the maildir of this path, which has no slashes at its end.
    Mail { maildir: &'a str, work: Work<'a> },
    /// The judging of a log.
    Judge(Judging<'a>),
    /// The log of a script, with the names of each directory or without.
    Log { with_states: bool },
}

/// What is to be done with a maildir.
#[derive(Drop)]
pub(crate) enum Work<'a> {
    Make,
    Deliver(Delivering<'a>),
    List(Shape),
    Read {
        key: &'a str,
    },
    Act {
        act: Act,
        /// The path of the other maildir, of a move or a copy.
        to: Option<&'a str>,
        keys: Vec<&'a str>,
    },
    Clean,
    Check,
}

/// What words ask for that the options have read.
pub(crate) fn read_order<'a>(
    alloc: Global,
    matches: &ArgMatches<'a>,
) -> Result<Order<'a>, Mistake<'a>> {
    let Some((name, words)) = matches.subcommand() else {
        return Err(wrong("", Trouble::NoMaildir));
    };
    match name {
        "play" | "threads" | "index" => Err(Mistake::Unexpected),
        "judge" => Ok(Order::Judge(read_judging(alloc, words)?)),
        "log" => Ok(Order::Log {
            with_states: words.get_flag("states"),
        }),
        _ => {
            let maildir = path(words.get_str("BOX").unwrap_or(""))?;
            let work = read_work(alloc, name, maildir, words)?;
            Ok(Order::Mail { maildir, work })
        }
    }
}

fn read_work<'a>(
    alloc: Global,
    name: &str,
    maildir: &str,
    words: &ArgMatches<'a>,
) -> Result<Work<'a>, Mistake<'a>> {
    match name {
        "make" => Ok(Work::Make),
        "deliver" => Ok(Work::Deliver(read_delivering(words)?)),
        "list" => Ok(Work::List(Shape {
            is_json: words.get_flag("json"),
            with_headers: words.get_flag("headers"),
        })),
        "read" => Ok(Work::Read {
            key: words.get_str("KEY").unwrap_or(""),
        }),
        "clean" => Ok(Work::Clean),
        "check" => Ok(Work::Check),
        "flag" => flagging(alloc, words),
        _ => acting(alloc, name, maildir, words),
    }
}

// A path without slashes at its end. The empty one is none.
fn path<'a>(word: &'a str) -> Result<&'a str, Mistake<'a>> {
    if word.is_empty() {
        return Err(wrong(word, Trouble::NoMaildir));
    }
    Ok(word.trim_end_matches('/'))
}

fn read_delivering<'a>(words: &ArgMatches<'a>) -> Result<Delivering<'a>, Mistake<'a>> {
    let folder = words.get_str("folder");
    if let Some(name) = folder {
        if !is_folder(name.as_bytes()) {
            return Err(wrong(name, Trouble::BadFolder));
        }
    }
    Ok(Delivering {
        folder,
        flushes: !words.get_flag("no-sync"),
        source: mail_source(words)?,
        prints: words.get_flag("print"),
    })
}

fn mail_source<'a>(words: &ArgMatches<'a>) -> Result<MailSource<'a>, Mistake<'a>> {
    match words.get_str("from") {
        Some("") => Err(wrong("", Trouble::NoDirectory)),
        Some(path) => Ok(MailSource::Files(path.trim_end_matches('/'))),
        None if words.get_flag("many") => Ok(MailSource::Mailbox),
        None => Ok(MailSource::Message),
    }
}

// A change of flags: by options, or by the first word.
fn flagging<'a>(alloc: Global, words: &ArgMatches<'a>) -> Result<Work<'a>, Mistake<'a>> {
    let keys = words.get_strs("KEY").unwrap_or(&[]);
    let (add, remove) = (words.get_str("add"), words.get_str("remove"));
    if add.is_some() || remove.is_some() {
        let change = Change {
            add: named_letters(add)?,
            remove: named_letters(remove)?,
        };
        return Ok(Work::Act {
            act: Act::Flag(change),
            to: None,
            keys: Vec::from_slice(alloc, keys)?,
        });
    }
    let Some((first, others)) = keys.split_first() else {
        return Err(wrong("", Trouble::BadChange));
    };
    match parse_change(first.as_bytes()) {
        Some(change) => Ok(Work::Act {
            act: Act::Flag(change),
            to: None,
            keys: Vec::from_slice(alloc, others)?,
        }),
        None => Err(wrong(first, Trouble::BadChange)),
    }
}

// The letters of an option, and none where it is not there.
fn named_letters<'a>(word: Option<&'a str>) -> Result<Flags, Mistake<'a>> {
    let Some(word) = word else {
        return Ok(Flags::empty());
    };
    match parse_letters(word.as_bytes()) {
        Some(flags) => Ok(flags),
        None => Err(wrong(word, Trouble::BadChange)),
    }
}

fn acting<'a>(
    alloc: Global,
    name: &str,
    maildir: &str,
    words: &ArgMatches<'a>,
) -> Result<Work<'a>, Mistake<'a>> {
    let keys = Vec::from_slice(alloc, words.get_strs("KEY").unwrap_or(&[]))?;
    let (act, to) = match name {
        "seen" => (Act::Seen, None),
        "move" => (Act::Move, Some(other(maildir, words)?)),
        "copy" => (Act::Copy, Some(other(maildir, words)?)),
        "expunge" => (Act::Expunge, None),
        // The options know no other. One without an arm must change no mail.
        _ => return Err(Mistake::Unexpected),
    };
    Ok(Work::Act { act, to, keys })
}

// The path of the other maildir, which is another than the first.
fn other<'a>(maildir: &str, words: &ArgMatches<'a>) -> Result<&'a str, Mistake<'a>> {
    let to = path(words.get_str("TO").unwrap_or(""))?;
    if to == maildir {
        return Err(wrong(to, Trouble::SameMaildir));
    }
    Ok(to)
}

fn wrong<'a>(word: &'a str, trouble: Trouble) -> Mistake<'a> {
    Mistake::Wrong { word, trouble }
}
