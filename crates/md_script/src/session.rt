//! What runs the lines of a script.
ghost use Rattle.std.specs.Prelude.{ℕ, List, Result};
ghost use Rattle.md_script.specs.declared.error.PlayKind.{PlayKind};
ghost use Rattle.md_script.specs.Step.{Steps};

use crate::error::PlayKind;

/// What a script makes, line by line.
pub(crate) trait Session {
    // What a line makes of the session, and the text that it prints, or its refusal.
    ghost step: { Self → List ℕ → Result (Self × List ℕ) PlayKind };

    /// Runs one line, which isn't empty and doesn't begin with `#`, and appends what it prints to `out`. A refused line
    /// appends nothing, and the session is of no more use; where memory runs out (`PlayKind::NoMemory`), nor is what was
    /// appended. What a line does doesn't hang on its number.
    fn run_line(&mut self, number: u64, line: &[u8], out: &mut Vec<u8>) -> Result<(), PlayKind>
        ensures { Steps (step self.old line.now) self.new out.old.items out.new.items result };
}
