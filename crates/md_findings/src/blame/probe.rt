//! Whether a word of a log is what it should be.
ghost use Rattle.std.specs.Prelude.{◌≡◌, ◌++◌, ◌∷◌, [], false, codes, IfOk};
ghost use Rattle.md_log.specs.Lines.{line_of};
ghost use Rattle.md_findings.specs.Probes.{line_fault};

use super::wanted::{Replies, Wanted, wanted_by};
use md_judge::LineFault;
use md_log::{Folders, name_folder, read_line};
use md_text::cut;
use std::alloc::{AllocError, Global};

// A folder of each line that is tried.
const FOLDER: &[u8] = b"i";

// What stands in front of a word in a line, and behind it.
#[derive(Clone, Copy)]
struct Frame {
    front: &'static str,
    back: &'static str,
}

// A line in which any name may stand.
const NAME: Frame = Frame {
    front: "file i/new/",
    back: " 1",
};

/// Reads a word in a line whose other words are right, so that a fault of the line is one of the word. By this a word is wrong here exactly
/// where it is to the reader of logs.
#[derive(Drop)]
pub(crate) struct Probe {
    alloc: Global,
    folders: Folders,
}

impl Probe {
    /// What reads words.
    #[tactic(auto, unfolding(md_log::specs::Folders::with_folder))]
    pub(crate) fn new(alloc: Global) -> Result<Probe, LineFault>
        ensures { IfOk result (λ probe. probe.folders ≡ codes "i" ∷ []) }
    {
        let mut folders = Folders::new(alloc);
        name_folder(&mut folders, FOLDER)?;
        Ok(Probe { alloc, folders })
    }

    /// The fault of a word that should be this, but for an unknown folder.
    pub(crate) fn fault_of(
        &self,
        wanted: Wanted,
        word: &[u8],
    ) -> Result<Option<LineFault>, AllocError> {
        if wanted_by(wanted, word).is_none() {
            return Ok(Some(LineFault::BadLine));
        }
        if let Wanted::Path = wanted {
            return self.fault_of_path(word);
        }
        match frame_of(wanted, word) {
            Some(frame) => self.fault_in(frame, word),
            None => Ok(None),
        }
    }

    // Both slashes come first, then the folder, and then the place and the name.
    fn fault_of_path(&self, word: &[u8]) -> Result<Option<LineFault>, AllocError> {
        let (folder, Some(inside)) = cut(word, b'/') else {
            return Ok(Some(LineFault::BadLine));
        };
        let frame = Frame {
            front: "file i/",
            back: " 1",
        };
        let found = self.fault_in(frame, inside)?;
        if found == Some(LineFault::BadLine) {
            return Ok(found);
        }
        match self.fault_in(NAME, folder)? {
            None => Ok(found),
            fault => Ok(fault),
        }
    }

    // The fault of the line that a frame makes of a word.
    fn fault_in(&self, frame: Frame, word: &[u8]) -> Result<Option<LineFault>, AllocError>
        ensures { IfOk result (λ found.
            found ≡ line_fault (line_of self.now.folders false (frame.front.now ++ word.now ++ frame.back.now))) }
    {
        let mut line = Vec::from_slice(self.alloc, frame.front.as_bytes())?;
        line.extend_from_slice(word)?;
        line.extend_from_slice(frame.back.as_bytes())?;
        match read_line(self.alloc, &self.folders, false, line.as_slice()) {
            Ok(_) => Ok(None),
            Err(LineFault::NoMemory) => Err(AllocError),
            Err(fault) => Ok(Some(fault)),
        }
    }
}

// The line in which a word is tried. None where any word will do.
fn frame_of(wanted: Wanted, word: &[u8]) -> Option<Frame> {
    let (front, back) = match wanted {
        Wanted::Start if begins_with_digit(word) => ("", " p answer done i u"),
        Wanted::NewFolder | Wanted::Folder | Wanted::Shown => return Some(NAME),
        Wanted::Clause => ("allow ", ""),
        Wanted::Stamp => ("file i/new/u ", ""),
        Wanted::Place => ("1 p list i ", " ok"),
        Wanted::Reply(Replies::Three) => ("1 p write i/new/u ", ""),
        Wanted::Reply(Replies::OrExists) => ("1 p create i/new/u ", ""),
        Wanted::Reply(Replies::OrMore) => ("1 p list i new ", ""),
        Wanted::Flags => ("1 p answer flags ", " i u"),
        Wanted::Unique => ("1 p answer done i ", ""),
        _ => return None,
    };
    Some(Frame { front, back })
}

fn begins_with_digit(word: &[u8]) -> bool {
    matches!(word, [b'0'..=b'9', ..])
}
