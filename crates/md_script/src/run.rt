//! The lines of a script, one after another.
ghost use Rattle.std.specs.Prelude.{◌≡◌, ◌+◌, ◌<◌, ◌≤◌, ◌^◌, length, IfOk, OnOk, is_some};
ghost use Rattle.md_head.specs.Header.{lines_of};
ghost use Rattle.md_script.specs.Step.{Steps, line_step};
ghost use Rattle.md_script.specs.Transcript.{transcript_of};
ghost use Rattle.md_script.specs.Printed.{Tells};
ghost use Rattle.md_script.specs.Progress.{GoesOn, IsFresh};

use crate::error::{PlayError, PlayKind};
use crate::session::Session;
use md_head::cut_line;
use md_text::is_passed_over;
use std::alloc::{AllocError, Global};

/// How many bytes there is room for at least when lines begin to print.
const ROOM: usize = 4_096;

/// What a script printed, and the refusal of the line that its run ended at, if one was refused.
#[derive(Debug, Drop)]
pub struct Printed {
    pub text: Vec<u8>,
    pub refusal: Option<PlayError>,
}

/// How far the run of a script has come: how many lines were passed, those that are passed over included, and what they printed.
#[derive(Drop)]
pub(crate) struct Progress {
    pub(crate) passed: u64,
    pub(crate) printed: Printed,
}

impl Progress {
    /// Before the first line.
    pub(crate) fn new(alloc: Global) -> Self
        ensures { IsFresh result }
    {
        Progress {
            passed: 0,
            printed: Printed {
                text: Vec::new(alloc),
                refusal: None,
            },
        }
    }

    /// Whether a line was refused, so that no further line is run.
    pub(crate) fn is_refused(&self) -> bool
        ensures { result ≡ is_some self.now.printed.refusal }
    {
        self.printed.refusal.is_some()
    }

    /// Runs the next lines, up to the first that is refused; none where one was refused before. The only error is out of memory.
    pub(crate) fn run_lines<S: Session>(
        &mut self,
        session: &mut S,
        lines: &[u8],
    ) -> Result<(), AllocError>
        requires { self.old.passed + length lines.now < 2 ^ 64 }
        ensures lines { OnOk result (GoesOn S.step self.old session.old (lines_of lines.now) self.new session.new) }
        ensures counted { self.new.passed ≤ self.old.passed + length lines.now }
    {
        if self.is_refused() {
            return Ok(());
        }
        self.printed.text.reserve(ROOM)?;
        let mut left = lines;
        while let Some((first, others)) = cut_line(left) {
            let line = self.passed + 1;
            match run_line(session, line, first, &mut self.printed.text) {
                Ok(()) => {}
                Err(kind) => match kind {
                    PlayKind::NoMemory => return Err(AllocError),
                    _ => {
                        self.printed.refusal = Some(PlayError { line, kind });
                        return Ok(());
                    }
                },
            }
            left = others;
            self.passed += 1;
        }
        Ok(())
    }
}

/// Runs the lines of a script up to the first that is refused. The only error is out of memory.
pub(crate) fn run<S: Session>(
    alloc: Global,
    session: &mut S,
    script: &[u8],
) -> Result<Printed, AllocError>
    ensures { IfOk result (λ printed. Tells (transcript_of S.step session.old script.now) printed session.new) }
{
    let mut progress = Progress::new(alloc);
    progress.run_lines(session, script)?;
    Ok(progress.printed)
}

/// Runs a line, unless it is passed over.
#[tactic(auto, unfolding(crate::specs::Step::line_step))]
fn run_line<S: Session>(
    session: &mut S,
    number: u64,
    line: &[u8],
    out: &mut Vec<u8>,
) -> Result<(), PlayKind>
    ensures { Steps (line_step S.step session.old line.now) session.new out.old.items out.new.items result }
{
    if is_passed_over(line) {
        return Ok(());
    }
    session.run_line(number, line, out)
}
