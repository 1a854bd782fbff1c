//! Which word of a refused line is wrong, and what it should be.
//!
//! A judge says of a wrong line no more than its fault. The first word that is not what docs/JUDGE.md wants there has this fault, so the
//! words are read once more from left to right. This happens once for a log, and costs a few times what its line did.

ghost use Rattle.std.specs.Prelude.{◌≡◌, ◌++◌, ◌∷◌, [], None, Some, option_map, IfSome, OnOk, string_bytes};
ghost use Rattle.std.specs.Fmt.{decimal};
ghost use Rattle.std.specs.Option.{option_copied};
ghost use Rattle.md_text.specs.Words.{next_word};
ghost use Rattle.md_findings.specs.Faults.{blame_text, flaw_text};
ghost use Rattle.md_findings.specs.declared.blame.wanted.Wanted.TheVariants.{Start};
ghost use Rattle.md_findings.specs.Walks.{folder_in, next_wanted};

mod probe;
mod wanted;

use itoa::Buffer;
use md_judge::LineFault;
use md_text::{Rest, cut, word};
use probe::Probe;
use std::alloc::{AllocError, Global};
use wanted::{START, Wanted, wanted_after};

/// How a word is not what it should be.
#[derive(Clone, Copy)]
pub(crate) enum Flaw {
    Wrong,
    /// The line ends before it.
    Missing,
    /// A space is where it should begin.
    Empty,
}

/// What is said of a word of a wrong line. Words are counted from 1.
#[derive(Clone, Copy)]
pub(crate) enum Blame {
    /// The word should be something else.
    Word {
        number: u64,
        flaw: Flaw,
        /// What it should be, as a noun.
        wanted: &'static str,
    },
    /// There should be no such word.
    TooMany {
        number: u64,
    },
}

impl Flaw {
    fn text(self) -> &'static str
        ensures { result.now ≡ flaw_text self }
    {
        match self {
            Flaw::Wrong => "",
            Flaw::Missing => " is missing, and",
            Flaw::Empty => " is empty, and",
        }
    }
}

impl Blame {
    /// Appends what is said of the word.
    pub(crate) fn push_to(self, said: &mut String) -> Result<(), AllocError>
        ensures { OnOk result (string_bytes said.new ≡ string_bytes said.old ++ blame_text self) }
    {
        match self {
            Blame::TooMany { number } => push_numbered(said, "there should be no word ", number),
            Blame::Word {
                number,
                flaw,
                wanted,
            } => {
                push_numbered(said, "word ", number)?;
                said.push_str(flaw.text())?;
                said.push_str(" should be ")?;
                said.push_str(wanted)
            }
        }
    }
}

// Appends words, and a number behind them.
fn push_numbered(said: &mut String, words: &str, number: u64) -> Result<(), AllocError>
    ensures { OnOk result (string_bytes said.new ≡ string_bytes said.old ++ (words.now ++ decimal number)) }
{
    said.push_str(words)?;
    let mut buffer = Buffer::new();
    said.push_str(buffer.format(number))
}

/// The word of a line that has this fault. None where the fault is of the line as a whole, or memory for the search is wanting.
pub(crate) fn blamed_word(alloc: Global, fault: LineFault, line: &[u8]) -> Option<Blame> {
    match fault {
        LineFault::SameFolder => Some(wrong(2, Wanted::NewFolder, fault)),
        LineFault::SamePath => Some(wrong(2, Wanted::Path, fault)),
        LineFault::NoSuchPath => Some(wrong(3, Wanted::Path, fault)),
        LineFault::UnknownFolder => folder_word(line),
        LineFault::BadLine
        | LineFault::BadNumber
        | LineFault::BadEscape
        | LineFault::BadPlace
        | LineFault::BadName
        | LineFault::BadReply
        | LineFault::BadClause
        | LineFault::BadFlags => faulty_word(alloc, fault, line),
        LineFault::NoLog
        | LineFault::TooManyFolders
        | LineFault::TooLate
        | LineFault::NoOrder
        | LineFault::TooManyOrders
        | LineFault::NoMemory => None,
    }
}

fn wrong(number: u64, wanted: Wanted, fault: LineFault) -> Blame {
    Blame::Word {
        number,
        flaw: Flaw::Wrong,
        wanted: wanted.noun(fault),
    }
}

// The first word that is not what it should be, if this is its fault.
fn faulty_word(alloc: Global, fault: LineFault, line: &[u8]) -> Option<Blame> {
    let probe = Probe::new(alloc).ok()?;
    match first_wrong(&probe, line) {
        Some((found, blame)) if found == fault => Some(blame),
        _ => None,
    }
}

// The first word that is not what it should be, and its fault. None too where memory is wanting.
fn first_wrong(probe: &Probe, line: &[u8]) -> Option<(LineFault, Blame)> {
    let mut walk = Walk::over(line);
    for number in 1..u64::MAX {
        let Some(wanted) = walk.wanted() else {
            walk.rest?;
            return Some((LineFault::BadLine, Blame::TooMany { number }));
        };
        let Some(word) = walk.next(wanted) else {
            return Some((LineFault::BadLine, walk.lacking(number, wanted)));
        };
        if let Some(fault) = probe.fault_of(wanted, word).ok()? {
            return Some((fault, wrong(number, wanted, fault)));
        }
    }
    None
}

// The word that names an unknown folder: the first that names any, where no other names another one.
fn folder_word(line: &[u8]) -> Option<Blame> {
    let mut walk = Walk::over(line);
    let mut found = None;
    for number in 1..u64::MAX {
        let Some(wanted) = walk.wanted() else {
            break;
        };
        let Some(word) = walk.next(wanted) else {
            break;
        };
        found = match (found, folder_in(wanted, word)) {
            (None, Some(folder)) => Some((number, wanted, folder)),
            (Some((_, _, first)), Some(folder)) if first != folder => return None,
            (found, _) => found,
        };
    }
    let (number, wanted, _) = found?;
    Some(wrong(number, wanted, LineFault::UnknownFolder))
}

// The folder that a word names, as it spells it.
fn folder_in(wanted: Wanted, word: &[u8]) -> Option<&[u8]>
    ensures { option_map (λ folder. folder.now) result ≡ folder_in wanted word.now }
{
    match wanted {
        Wanted::Folder => Some(word),
        Wanted::Path => Some(cut(word, b'/').0),
        _ => None,
    }
}

// What is left of a line, and what its words should be.
#[derive(Drop)]
struct Walk<'a> {
    rest: Rest<'a>,
    wants: &'static [Wanted],
}

impl<'a> Walk<'a> {
    fn over(line: &'a [u8]) -> Walk<'a>
        ensures { (option_copied result.rest ≡ Some line.now) × (result.wants.now ≡ Start ∷ []) }
    {
        Walk {
            rest: Some(line),
            wants: START,
        }
    }

    // What the next word should be. None where the line should end, or does where it may.
    fn wanted(&self) -> Option<Wanted>
        ensures { result ≡ next_wanted (option_copied self.now.rest) self.now.wants.now }
    {
        match self.wants.first() {
            Some(Wanted::Shown) if self.rest.is_none() => None,
            wanted => wanted.copied(),
        }
    }

    // The next word, which should be this.
    fn next(&mut self, wanted: Wanted) -> Option<&'a [u8]>
        ensures word { IfSome result (λ word. next_word (option_copied self.old.rest) ≡ Some (word.now, option_copied self.new.rest)) }
        ensures none { result ≡ None → (next_word (option_copied self.old.rest) ≡ None) × (self.new ≡ self.old) }
    {
        let (word, rest) = word(self.rest)?;
        self.rest = rest;
        self.wants = match self.wants {
            [_, later @ ..] => wanted_after(wanted, word, later),
            [] => &[],
        };
        Some(word)
    }

    // What is said where there is no word.
    fn lacking(&self, number: u64, wanted: Wanted) -> Blame {
        let flaw = match self.rest {
            Some(_) => Flaw::Empty,
            None => Flaw::Missing,
        };
        Blame::Word {
            number,
            flaw,
            wanted: wanted.noun(LineFault::BadLine),
        }
    }
}
