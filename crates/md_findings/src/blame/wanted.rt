//! What the words of a log's line should be, as docs/JUDGE.md has them.

use md_judge::LineFault;

/// What a word should be.
#[derive(Clone, Copy)]
pub(crate) enum Wanted {
    /// What a line begins with: the word of a line of the beginning, or a moment.
    Start,
    Actor,
    Call,
    /// The name of a folder that the line adds.
    NewFolder,
    /// A folder that a line before names.
    Folder,
    Clause,
    /// `FOLDER/PLACE/NAME`.
    Path,
    Stamp,
    Place,
    Reply(Replies),
    /// A name that a reading shows. There may be any number of them, and none.
    Shown,
    /// What a program told its user.
    Said,
    Flags,
    Unique,
}

/// The replies that a call may give: `ok`, `notfound` and `fault`, and perhaps one more.
#[derive(Clone, Copy)]
pub(crate) enum Replies {
    Three,
    /// `exists` too.
    OrExists,
    /// `more` too.
    OrMore,
}

/// The words of a line before any is read.
pub(crate) const START: &[Wanted] = &[Wanted::Start];

const FOLDER: &[Wanted] = &[Wanted::NewFolder];

const ALLOW: &[Wanted] = &[Wanted::Clause];

const FILE: &[Wanted] = &[Wanted::Path, Wanted::Stamp];

const ALSO: &[Wanted] = &[Wanted::Path, Wanted::Path];

const STEP: &[Wanted] = &[Wanted::Actor, Wanted::Call];

const CREATE: &[Wanted] = &[Wanted::Path, Wanted::Reply(Replies::OrExists)];

const CHANGE: &[Wanted] = &[Wanted::Path, Wanted::Reply(Replies::Three)];

const LINK: &[Wanted] = &[Wanted::Path, Wanted::Path, Wanted::Reply(Replies::OrExists)];

const RENAME: &[Wanted] = &[Wanted::Path, Wanted::Path, Wanted::Reply(Replies::Three)];

const LIST: &[Wanted] = &[
    Wanted::Folder,
    Wanted::Place,
    Wanted::Reply(Replies::OrMore),
    Wanted::Shown,
];

const ANSWER: &[Wanted] = &[Wanted::Said];

const SHOWN: &[Wanted] = &[Wanted::Shown];

const MESSAGE: &[Wanted] = &[Wanted::Folder, Wanted::Unique];

const FLAGS: &[Wanted] = &[Wanted::Flags, Wanted::Folder, Wanted::Unique];

const MOVED: &[Wanted] = &[Wanted::Folder, Wanted::Folder, Wanted::Unique];

/// What comes after a word that should be this, where `later` comes after any. Nothing does after a word that is not so.
pub(crate) fn wanted_after(
    wanted: Wanted,
    word: &[u8],
    later: &'static [Wanted],
) -> &'static [Wanted] {
    match wanted {
        Wanted::Shown => SHOWN,
        Wanted::Start | Wanted::Call | Wanted::Said => wanted_by(wanted, word).unwrap_or(&[]),
        _ => later,
    }
}

/// What a word that should be this asks for after it. None where it is none of the words that there are.
pub(crate) fn wanted_by(wanted: Wanted, word: &[u8]) -> Option<&'static [Wanted]> {
    match wanted {
        Wanted::Start => after_start(word),
        Wanted::Call => after_call(word),
        Wanted::Said => after_said(word),
        _ => Some(&[]),
    }
}

fn after_start(word: &[u8]) -> Option<&'static [Wanted]> {
    match word {
        b"folder" => Some(FOLDER),
        b"allow" => Some(ALLOW),
        b"file" => Some(FILE),
        b"also" => Some(ALSO),
        [b'0'..=b'9', ..] => Some(STEP),
        _ => None,
    }
}

fn after_call(word: &[u8]) -> Option<&'static [Wanted]> {
    match word {
        b"create" => Some(CREATE),
        b"write" | b"flush" | b"unlink" => Some(CHANGE),
        b"link" => Some(LINK),
        b"rename" => Some(RENAME),
        b"list" => Some(LIST),
        b"answer" => Some(ANSWER),
        _ => None,
    }
}

fn after_said(word: &[u8]) -> Option<&'static [Wanted]> {
    match word {
        b"delivered" | b"expunged" | b"done" | b"failed" | b"notthere" => Some(MESSAGE),
        b"flags" => Some(FLAGS),
        b"moved" => Some(MOVED),
        _ => None,
    }
}

impl Wanted {
    /// What such a word is, in a line that has this fault.
    pub(crate) fn noun(self, fault: LineFault) -> &'static str {
        match self {
            Wanted::Start => start_noun(fault),
            Wanted::Actor => "an actor",
            Wanted::Call => { "a call: create, write, flush, link, rename, unlink, list or answer" }
            Wanted::NewFolder | Wanted::Shown => name_noun(fault),
            Wanted::Folder => folder_noun(fault),
            Wanted::Clause => "a clause of the law, but not NotADirectory",
            Wanted::Path => path_noun(fault),
            Wanted::Stamp => "a stamp: 1 to 19 digits",
            Wanted::Place => "a place: tmp, new or cur",
            Wanted::Reply(replies) => reply_noun(replies),
            Wanted::Said => {
                "what was told: delivered, flags, moved, expunged, done, failed or notthere"
            }
            Wanted::Flags => "flags: letters, or - for none",
            Wanted::Unique => unique_noun(fault),
        }
    }
}

fn start_noun(fault: LineFault) -> &'static str {
    match fault {
        LineFault::BadNumber => "a moment: 1 to 19 digits, or MOMENT@BEGIN..END",
        _ => "folder, file, also, allow or a moment",
    }
}

fn reply_noun(replies: Replies) -> &'static str {
    match replies {
        Replies::Three => "a reply: ok, notfound or fault",
        Replies::OrExists => "a reply: ok, exists, notfound or fault",
        Replies::OrMore => "a reply: ok, more, notfound or fault",
    }
}

fn name_noun(fault: LineFault) -> &'static str {
    match fault {
        LineFault::BadEscape => "a name, in which a backslash begins \\s, \\n, \\r or \\\\",
        LineFault::BadName => { "a name: 1 to 255 bytes with no slash and no NUL, but not . or .." }
        LineFault::SameFolder => "a folder that no line before names",
        _ => "a name",
    }
}

fn folder_noun(fault: LineFault) -> &'static str {
    match fault {
        LineFault::UnknownFolder => "a folder that a line before names",
        LineFault::BadEscape | LineFault::BadName => name_noun(fault),
        _ => "a folder",
    }
}

fn unique_noun(fault: LineFault) -> &'static str {
    match fault {
        LineFault::BadEscape => {
            "a unique name, in which a backslash begins \\s, \\n, \\r or \\\\"
        }
        LineFault::BadName => { "a unique name: a name with no colon, and with no dot in front" }
        _ => "a unique name",
    }
}

fn path_noun(fault: LineFault) -> &'static str {
    match fault {
        LineFault::BadEscape => {
            "a path: FOLDER/PLACE/NAME, in which a backslash begins \\s, \\n, \\r or \\\\"
        }
        LineFault::BadPlace => "a path: FOLDER/PLACE/NAME, with tmp, new or cur as its place",
        LineFault::BadName => {
            "a path: FOLDER/PLACE/NAME, with names of 1 to 255 bytes, no slash and no NUL, but not . or .."
        }
        LineFault::UnknownFolder => "a path in a folder that a line before names",
        LineFault::SamePath => "a path at which no line before puts a file",
        LineFault::NoSuchPath => "a path at which a line before puts a file",
        _ => "a path: FOLDER/PLACE/NAME",
    }
}
