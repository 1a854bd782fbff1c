//! What an observer is shown of a script, each thing once.

use md_core::{Call, Event, StepOut, World};
use md_dirs::{Dirs, HashSeed, IndexDirs, Place};
use md_script::{Observer, Printed, Reader, observe, transcript};
use std::alloc::Global;

const SCRIPT: &[u8] =
    b"folder i\nfile i new v 3\n# none\njob deliver i u 4 hello\nfinish 1 7\nlist i\nx";

/// Counts what it is shown.
#[derive(Debug, PartialEq, Eq, Drop)]
struct Counter {
    line: u64,
    folders: u64,
    files: usize,
    calls: u64,
    steps: u64,
    effects: u64,
    answers: u64,
}

impl Observer<IndexDirs> for Counter {
    fn line(&mut self, number: u64) {
        self.line = number;
    }

    fn folder(&mut self, _name: &[u8]) {
        self.folders = self.folders.saturating_add(1);
    }

    fn opened(&mut self, world: &World<IndexDirs>) {
        self.files = world.dirs().count(0, Place::New);
    }

    fn submits(&mut self, _call: &Call) {
        self.calls = self.calls.saturating_add(1);
    }

    fn stepped(&mut self, _world: &World<IndexDirs>, event: Event, out: &StepOut) {
        self.steps = self.steps.saturating_add(event.job);
        self.effects = self.effects.saturating_add(u64::from(out.effect));
        self.answers = self.answers.saturating_add(u64::from(out.answer.is_some()));
    }
}

/// Whether a script prints and refuses what it does where nobody looks on.
fn is_transcript(alloc: Global, printed: &Printed) -> bool {
    match transcript(alloc, SCRIPT) {
        Ok(alone) => {
            alone.text.as_slice() == printed.text.as_slice() && alone.refusal == printed.refusal
        }
        Err(_) => false,
    }
}

#[test]
fn an_observer_is_shown_each_line_and_step(rt: HostRuntime) {
    let none = Counter {
        line: 0,
        folders: 0,
        files: 0,
        calls: 0,
        steps: 0,
        effects: 0,
        answers: 0,
    };
    let seen = Counter {
        line: 7,
        folders: 1,
        files: 1,
        calls: 1,
        steps: 5,
        effects: 1,
        answers: 1,
    };
    if let Ok((printed, counter)) = observe(
        rt.alloc(),
        HashSeed::fixed(),
        &mut Reader::new(SCRIPT),
        none,
    ) {
        assert!(rt; counter == seen && is_transcript(rt.alloc(), &printed));
    }
}
