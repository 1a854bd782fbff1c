//! The subcommands of the program, and its help.

mod logs;

use clap::{Arg, ArgAction, Command, value_parser};
use logs::{judge, log};
use md_runs::{MOST_THREADS, MOST_WORKERS};
use std::alloc::{AllocError, Global};

/// The name of the program.
pub(crate) const PROGRAM: &str = "deolmutt";

const ABOUT: &str =
    "Delivers, lists, reads and changes the mail of maildirs, beside other programs that do so at the same time. \
Its jobs are proved: what each makes of the directories, and what it answers for each reply.";

const AFTER: &str =
    "BOX is the path of a maildir, a folder with tmp, new and cur; of a folder of Maildir++ it is BOX/.NAME.
KEY names a message: the name of its file, of which the part in front of the colon counts, or its path, BOX/new/NAME or BOX/cur/NAME.
With - keys are read from standard input, a line each, as `list` prints them.

Status:
  0   all was done
  1   a line of the script failed, or its run: `line N: TEXT` on standard error says which; `judge` found something
  2   `judge` was given no log, or it could not be read: `line N: TEXT` says which line is wrong
  64  usage error
  65  no such message, or it has two names, lacks the flag T, has flags that can't be read, is longer than 16777216 bytes
      or is no regular file; a name is not UTF-8; what is read is no mbox; `check` found flaws
  66  no such maildir, no such directory of messages, or no such log
  73  a name is taken, or can't be made; the other maildir is on another file system
  74  a message could not be read, or what was read not be written; a message is delivered, and its name not printed
  75  it may be tried again: a call of the system failed, others kept changing the message, the delivery took more than
      24 hours, the name of this host makes no unique name, or memory ran out
  77  permission denied
Of several keys it is the largest. Standard error has a line for each that failed.

Examples:
  deolmutt make Mail
  deolmutt deliver Mail < message
  deolmutt list Mail --headers
  deolmutt list Mail | cut -f 3 | deolmutt seen Mail -
  deolmutt flag Mail +FS-T Mail/cur/*
  deolmutt deliver Mail --folder Archive --many < old.mbox
  deolmutt deliver Mail --from letters
  deolmutt play < script
  deolmutt log < script | deolmutt judge

The manual is deolmutt(1).";

/// The command line: a subcommand and its words.
pub(crate) fn options<'a>(alloc: Global) -> Result<Command<'a>, AllocError> {
    let command = Command::new(alloc, PROGRAM)
        .version("0.1.0")
        .about(ABOUT)
        .after_help(AFTER)
        .no_binary_name(true)
        .subcommand_required(true)
        .bin_name(PROGRAM)?;
    let command = with_mail(alloc, command)?;
    let command = with_changes(alloc, command)?;
    let command = with_care(alloc, command)?;
    let command = with_scripts(alloc, command)?;
    let command = with(command, log(alloc))?;
    with(command, judge(alloc))
}

// A command with one more subcommand. A command is large: here alone one is let go if the subcommand could not be made.
fn with<'a>(
    command: Command<'a>,
    subcommand: Result<Command<'a>, AllocError>,
) -> Result<Command<'a>, AllocError> {
    command.subcommand(subcommand?)
}

// The subcommands that make maildirs, and bring and show mail.
fn with_mail<'a>(alloc: Global, command: Command<'a>) -> Result<Command<'a>, AllocError> {
    let make = on_box(
        alloc,
        "make",
        "Makes a maildir, of folders of mode 0700; what is there stays",
    );
    let command = with(command, make)?;
    let command = with(command, deliver(alloc))?;
    let command = with(command, list(alloc))?;
    with(command, read(alloc))
}

// The subcommands that change messages.
fn with_changes<'a>(alloc: Global, command: Command<'a>) -> Result<Command<'a>, AllocError> {
    let seen = on_keys(
        alloc,
        "seen",
        "Moves messages from new to cur, with the flag S",
    );
    let command = with(command, seen)?;
    let command = with(command, flag(alloc))?;
    let moving = to_box(
        alloc,
        "move",
        "Moves messages to another maildir; place and flags stay",
    );
    let command = with(command, moving)?;
    let copy = to_box(
        alloc,
        "copy",
        "Gives messages a second one of their files in another maildir, under a fresh name",
    );
    let command = with(command, copy)?;
    let expunge = on_keys(
        alloc,
        "expunge",
        "Takes away messages of cur that have the flag T",
    );
    with(command, expunge)
}

// The subcommands that take care of a maildir.
fn with_care<'a>(alloc: Global, command: Command<'a>) -> Result<Command<'a>, AllocError> {
    let clean = on_box(
        alloc,
        "clean",
        "Takes away files of tmp that were not used for 36 hours",
    );
    let command = with(command, clean)?;
    let check = on_box(
        alloc,
        "check",
        "Prints what breaks the format of a maildir, a line for each flaw",
    );
    with(command, check)
}

// The subcommands that run scripts over a store in memory.
fn with_scripts<'a>(alloc: Global, command: Command<'a>) -> Result<Command<'a>, AllocError> {
    let play = Command::new(alloc, "play").about("Plays the script on standard input");
    let command = command.subcommand(play)?;
    let threads = counted(
        alloc,
        "threads",
        "Runs the script's jobs by N threads, 1 to 16, and prints their answers and the folders",
        count(alloc, "How many threads, 1 to 16", MOST_THREADS as i64),
    );
    let command = with(command, threads)?;
    let index = counted(
        alloc,
        "index",
        "Prints the header summaries of the script's files that are messages, made by N workers, 1 to 64",
        count(alloc, "How many workers, 1 to 64", MOST_WORKERS as i64),
    );
    with(command, index)
}

// A run of a script that wants a number.
fn counted<'a>(
    alloc: Global,
    name: &'a str,
    about: &'a str,
    count: Arg<'a>,
) -> Result<Command<'a>, AllocError> {
    Command::new(alloc, name).about(about).arg(count)
}

// The number that a run wants.
fn count<'a>(alloc: Global, help: &'a str, most: i64) -> Arg<'a> {
    one(alloc, "N", help).value_parser(value_parser!(u64).range(1..=most))
}

// A command with one more option, which can't be used with these others.
pub(crate) fn with_other<'a>(
    command: Command<'a>,
    option: Arg<'a>,
    others: &[&'a str],
) -> Result<Command<'a>, AllocError> {
    command.arg(option.conflicts_with_all(others)?)
}

// A subcommand on a maildir.
fn on_box<'a>(alloc: Global, name: &'a str, about: &'a str) -> Result<Command<'a>, AllocError> {
    Command::new(alloc, name)
        .about(about)
        .arg(one(alloc, "BOX", "The path of the maildir"))
}

// A subcommand on messages of a maildir.
fn on_keys<'a>(alloc: Global, name: &'a str, about: &'a str) -> Result<Command<'a>, AllocError> {
    on_box(alloc, name, about)?.arg(many(
        alloc,
        "KEY",
        "The messages; - reads them from standard input",
    ))
}

// A subcommand on messages of a maildir, and another one.
fn to_box<'a>(alloc: Global, name: &'a str, about: &'a str) -> Result<Command<'a>, AllocError> {
    on_box(alloc, name, about)?
        .arg(one(alloc, "TO", "The path of the other maildir"))?
        .arg(many(
            alloc,
            "KEY",
            "The messages; - reads them from standard input",
        ))
}

fn deliver<'a>(alloc: Global) -> Result<Command<'a>, AllocError> {
    let command = on_box(
        alloc,
        "deliver",
        "Delivers the message on standard input, of at most 16777216 bytes",
    )?
    .arg(valued(
        alloc,
        "folder",
        "NAME",
        "Delivers to the folder BOX/.NAME (Maildir++)",
    ))?
    .arg(valued(
        alloc,
        "from",
        "DIR",
        "Delivers each regular file of DIR, in order of their names, in place of standard input",
    ))?
    .arg(switch(
        alloc,
        "no-sync",
        "Leaves it to the system when what was written reaches the disk",
    ))?;
    // Files are a message each, and no mailboxes.
    let many = switch(
        alloc,
        "many",
        "Reads an mbox (mboxrd), and stops at the first message that is not delivered",
    );
    with_other(command, many, &["from"])?.arg(switch(
        alloc,
        "print",
        "Prints the unique name of each message",
    ))
}

fn list<'a>(alloc: Global) -> Result<Command<'a>, AllocError> {
    on_box(
        alloc,
        "list",
        "Prints a line for each message: its place, its flags and its unique name, parted by tabs",
    )?
    .arg(switch(alloc, "json", "Prints an object of JSON for each message"))?
    .arg(switch(
        alloc,
        "headers",
        "Adds its size, the second of its date, its sender and its subject",
    ))
}

fn read<'a>(alloc: Global) -> Result<Command<'a>, AllocError> {
    on_box(alloc, "read", "Prints the bytes of a message")?.arg(one(alloc, "KEY", "The message"))
}

fn flag<'a>(alloc: Global) -> Result<Command<'a>, AllocError> {
    on_box(alloc, "flag", "Changes the flags of messages in cur")?
        .arg(valued(
            alloc,
            "add",
            "LETTERS",
            "The flags that are added, in place of CHANGE",
        ))?
        .arg(valued(
            alloc,
            "remove",
            "LETTERS",
            "The flags that are removed, in place of CHANGE",
        ))?
        .arg(many(
            alloc,
            "KEY",
            "The change, as +FS-T, if it is not said by --add or --remove, and then the messages; - reads them from standard input",
        ))
}

// A word that a subcommand wants.
fn one<'a>(alloc: Global, name: &'a str, help: &'a str) -> Arg<'a> {
    Arg::new(alloc, name)
        .help(help)
        .required(true)
        .action(ArgAction::Set)
}

// Words of which a subcommand wants one at least.
fn many<'a>(alloc: Global, name: &'a str, help: &'a str) -> Arg<'a> {
    one(alloc, name, help)
        .action(ArgAction::Append)
        .num_args(1..)
}

/// An option with a value.
pub(crate) fn valued<'a>(alloc: Global, name: &'a str, value: &'a str, help: &'a str) -> Arg<'a> {
    Arg::new(alloc, name)
        .long(name)
        .value_name(value)
        .help(help)
        .action(ArgAction::Set)
}

/// An option without a value.
pub(crate) fn switch<'a>(alloc: Global, name: &'a str, help: &'a str) -> Arg<'a> {
    Arg::new(alloc, name)
        .long(name)
        .help(help)
        .action(ArgAction::SetTrue)
}
