//! A log that grows.
ghost use Rattle.std.specs.Prelude.{◌≡◌, ◌≤◌, ◌++◌, ◌∷◌, [], None, Some, IfOk, IfErr, OnOk, IsErr, codes, length};
ghost use Rattle.std.specs.Fmt.{decimal};
ghost use Rattle.md_text.specs.Places.{place_text};
ghost use Rattle.md_script.specs.declared.error.PlayKind.{PlayKind};
ghost use Rattle.md_script.specs.declared.error.PlayKind.TheVariants.{NoMemory};
ghost use Rattle.md_script.specs.Texts.{answer_text};
ghost use Rattle.md_trace.specs.Growing.{Grows, NamesFolder, GrowsIf, begin_text, most, escape_name, name_text, folder_in, folder_names, message_text, path_text, told_text, refusal_of, kept_text};

use itoa::Buffer;
use md_core::Answer;
use md_dirs::Place;
use md_script::{PlayError, PlayKind, Printed, push_answer_line};
use md_text::place_text;
use std::alloc::{AllocError, Global};
use std::mem::replace;

/// How a log begins. A store in memory flushes nothing, and no call of it could be logged as `flush`: a judge would find each delivery
/// unflushed, which says nothing of the jobs. So the log asks not to be judged by that clause.
const BEGIN: &[u8] = b"maildir_log 1\nallow NotFlushed\n";

/// The greatest number of a log, which has 19 digits.
const MOST: u64 = 9_999_999_999_999_999_999;

/// The text of a log. At the first refusal it takes nothing more, and keeps why and at which line of the script. So its words are appended
/// without an answer, and the program asks once, at the end.
#[derive(Drop)]
pub(crate) struct Log {
    alloc: Global,
    text: Vec<u8>,
    // The names of the folders, by their numbers.
    folders: Vec<Vec<u8>>,
    // The line of the script that is run, and how much was there before it.
    line: u64,
    before: usize,
    refused: Option<PlayKind>,
}

impl Log {
    /// A log of no line of a script.
    pub(crate) fn new(alloc: Global) -> Log
        ensures text { result.refused ≡ None → result.text.items ≡ begin_text }
        ensures folders { result.folders.items ≡ [] }
        ensures line { (result.line ≡ 0) × (result.before ≡ 0) }
    {
        let mut log = Log {
            alloc,
            text: Vec::new(alloc),
            folders: Vec::new(alloc),
            line: 0,
            before: 0,
            refused: None,
        };
        log.push(BEGIN);
        log
    }

    /// A line of the script is run from here on.
    pub(crate) fn begin_line(&mut self, number: u64)
        ensures begun { self.old.refused ≡ None → (self.new.line ≡ number) × (self.new.before ≡ length self.old.text.items) }
        ensures same { (self.new.text ≡ self.old.text) × ((self.new.folders ≡ self.old.folders) × (self.new.refused ≡ self.old.refused)) }
        ensures stays { (kind : PlayKind) → self.old.refused ≡ Some kind → self.new ≡ self.old }
    {
        if self.refused.is_none() {
            self.line = number;
            self.before = self.text.len();
        }
    }

    /// The log of a script that was refused so, or not at all. A refused line says nothing in it, and the log's own refusal came first.
    pub(crate) fn end(mut self, refusal: Option<PlayError>) -> Result<Printed, PlayKind>
        ensures ok { IfOk result (λ printed. (printed.refusal ≡ refusal_of self.line self.refused refusal)
            × (printed.text.items ≡ kept_text printed.refusal self.before self.text.items)) }
        ensures err { IfErr result (λ kind. (kind ≡ NoMemory) × (self.refused ≡ Some NoMemory)) }
        ensures refused { self.refused ≡ Some NoMemory → IsErr result }
    {
        let refusal = match self.refused {
            Some(PlayKind::NoMemory) => return Err(PlayKind::NoMemory),
            Some(kind) => Some(PlayError {
                line: self.line,
                kind,
            }),
            None => refusal,
        };
        if refusal.is_some() {
            self.text.truncate(self.before);
        }
        Ok(Printed {
            text: self.text,
            refusal,
        })
    }

    /// What memory is taken from.
    pub(crate) fn alloc(&self) -> Global
        ensures { result ≡ self.now.alloc }
    {
        self.alloc
    }

    /// Takes nothing more from here on.
    pub(crate) fn refuse(&mut self, kind: PlayKind)
        ensures refused { self.old.refused ≡ None → self.new ≡ record self.old { refused = Some kind } }
        ensures stays { (first : PlayKind) → self.old.refused ≡ Some first → self.new ≡ self.old }
    {
        if self.refused.is_none() {
            self.refused = Some(kind);
        }
    }

    /// Appends bytes as they are. `NoMemory` is kept where there is none.
    pub(crate) fn push(&mut self, bytes: &[u8])
        ensures { Grows bytes.now self.old self.new }
    {
        if self.refused.is_none() && self.text.extend_from_slice(bytes).is_err() {
            self.refuse(PlayKind::NoMemory);
        }
    }

    /// Appends a number in decimal.
    pub(crate) fn push_number(&mut self, number: u64)
        ensures { Grows (decimal number) self.old self.new }
    {
        let mut buffer = Buffer::new();
        self.push(buffer.format(number).as_bytes());
    }

    /// A moment or a stamp, in seconds. `BadNumber` is kept where a log has no such number.
    pub(crate) fn push_seconds(&mut self, seconds: u64)
        ensures { GrowsIf (seconds ≤ most) (decimal seconds) self.old self.new }
    {
        if seconds > MOST {
            self.refuse(PlayKind::BadNumber);
            return;
        }
        self.push_number(seconds);
    }

    /// Appends `JOB answer` and the words of an answer, as a script's transcript has them.
    pub(crate) fn push_answer(&mut self, job: u64, answer: Answer)
        ensures { Grows (told_text job answer) self.old self.new }
    {
        if self.refused.is_some() {
            return;
        }
        match push_answer_line(&mut self.text, job, answer) {
            // The line goes on.
            Ok(()) => self.text.truncate(self.text.len().saturating_sub(1)),
            Err(_) => self.refuse(PlayKind::NoMemory),
        }
    }

    /// Appends `# answer` and the words of an answer.
    pub(crate) fn push_comment(&mut self, answer: Answer)
        ensures { Grows (codes "# answer " ++ answer_text answer ++ codes "\n") self.old self.new }
    {
        let mut line = Vec::new(self.alloc);
        match push_answer_line(&mut line, 0, answer) {
            Ok(()) => {
                // The number 0 has one digit, in whose place is the sign of a comment.
                self.push(b"#");
                self.push(&line[1..]);
            }
            Err(_) => self.refuse(PlayKind::NoMemory),
        }
    }

    /// Appends a name, with the four escapes of a log.
    pub(crate) fn push_name(&mut self, name: &[u8])
        ensures { Grows (name_text name.now) self.old self.new }
    {
        for byte in name {
            self.push_byte(*byte);
        }
    }

    fn push_byte(&mut self, byte: u8)
        ensures { Grows (escape_name byte) self.old self.new }
    {
        match byte {
            b' ' => self.push(b"\\s"),
            b'\n' => self.push(b"\\n"),
            b'\r' => self.push(b"\\r"),
            b'\\' => self.push(b"\\\\"),
            other => self.push(&[other]),
        }
    }

    /// Appends the line of the next folder, and keeps its name.
    pub(crate) fn push_new_folder(&mut self, name: &[u8])
        ensures { NamesFolder name.now self.old self.new }
    {
        self.push(b"folder ");
        self.push_name(name);
        self.push(b"\n");
        if self.keep_folder(name).is_err() {
            self.refuse(PlayKind::NoMemory);
        }
    }

    fn keep_folder(&mut self, name: &[u8]) -> Result<(), AllocError>
        ensures kept { OnOk result (folder_names self.new ≡ folder_names self.old ++ name.now ∷ []) }
        ensures same { (self.new.text ≡ self.old.text) × (self.new.refused ≡ self.old.refused) × (self.new.line ≡ self.old.line)
            × (self.new.before ≡ self.old.before) }
    {
        self.folders.push(Vec::from_slice(self.alloc, name)?)?;
        Ok(())
    }

    /// Appends the name of a folder by its number.
    pub(crate) fn push_folder(&mut self, folder: u32)
        ensures { Grows (folder_in self.old folder) self.old self.new }
    {
        let folders = replace(&mut self.folders, Vec::new(self.alloc));
        if let Some(name) = folders.get(folder as usize) {
            self.push_name(name);
        }
        self.folders = folders;
    }

    /// Appends a space and `FOLDER UNIQUE`.
    pub(crate) fn push_message(&mut self, folder: u32, unique: &[u8])
        ensures { Grows (message_text self.old folder unique.now) self.old self.new }
    {
        self.push(b" ");
        self.push_folder(folder);
        self.push(b" ");
        self.push_name(unique);
    }

    /// Appends a space and `FOLDER/PLACE/NAME`.
    pub(crate) fn push_path(&mut self, folder: u32, place: Place, name: &[u8])
        ensures { Grows (path_text self.old folder place name.now) self.old self.new }
    {
        self.push(b" ");
        self.push_folder(folder);
        self.push(b"/");
        self.push(place_text(place));
        self.push(b"/");
        self.push_name(name);
    }
}
