//! What errors print, as docs/SCRIPT.md has it.

use md_core::CoreError;
use md_index::IndexError;
use md_name::NameError;
use md_script::{PlayError, PlayKind};
use std::alloc::Global;
use std::fmt::Display;

static KINDS: [PlayKind; 24] = [
    PlayKind::ReadFault,
    PlayKind::WriteFault,
    PlayKind::TooLong,
    PlayKind::TooManyReads,
    PlayKind::NoMemory,
    PlayKind::NotInThisRun,
    PlayKind::Core(CoreError::BadName),
    PlayKind::Core(CoreError::LongUnique),
    PlayKind::Core(CoreError::DuplicateUnique),
    PlayKind::Core(CoreError::NameUsed),
    PlayKind::Core(CoreError::NoFolder),
    PlayKind::Core(CoreError::SameFolder),
    PlayKind::Core(CoreError::BadUnique),
    PlayKind::Core(CoreError::BadTries),
    PlayKind::Core(CoreError::BadChunk),
    PlayKind::Core(CoreError::TooManyJobs),
    PlayKind::Core(CoreError::BodyTooLong),
    PlayKind::Core(CoreError::NoJob),
    PlayKind::Core(CoreError::Answered),
    PlayKind::Core(CoreError::NoMemory),
    PlayKind::Name(NameError::BadHost),
    PlayKind::Name(NameError::BadMicro),
    PlayKind::Name(NameError::NoMemory),
    PlayKind::Name(NameError::BadFlag),
];

static TEXTS: &str = "line 0: read fault
line 0: write fault
line 0: script too long
line 0: too many reads
line 0: no memory
line 0: not in this run
line 0: bad name
line 0: long unique
line 0: duplicate unique
line 0: name used
line 0: no folder
line 0: same folder
line 0: bad unique
line 0: bad tries
line 0: bad chunk
line 0: too many jobs
line 0: body too long
line 0: no job
line 0: answered
line 0: no memory
line 0: bad host
line 0: bad micro
line 0: no memory
line 0: bad flag";

fn is_told<T: Display>(alloc: Global, value: &T, text: &str) -> bool {
    match format!(in alloc; "{value}") {
        Ok(told) => told.as_str() == text,
        Err(_) => false,
    }
}

// Whether the store's error, or a name's, is told as the refusal that it causes.
fn is_cause_told(alloc: Global, kind: PlayKind) -> bool {
    match kind {
        PlayKind::Core(error) => is_told(alloc, &error, kind.text()),
        PlayKind::Name(error) => is_told(alloc, &error, kind.text()),
        _ => true,
    }
}

// How many texts are right up to the first that is not.
fn right_texts(alloc: Global) -> usize {
    let mut right = 0usize;
    for (text, kind) in TEXTS.split('\n').zip(KINDS.iter()) {
        let error = PlayError {
            line: 0,
            kind: *kind,
        };
        if !is_told(alloc, &error, text) || !is_cause_told(alloc, *kind) {
            return right;
        }
        right = right.saturating_add(1);
    }
    right
}

#[test]
fn refusals_have_texts(rt: HostRuntime) {
    let right = right_texts(rt.alloc());
    assert!(rt; right == KINDS.len(), "row {right}");
    assert!(rt;
        is_told(rt.alloc(), &IndexError::BadWorkers, "bad workers")
            && is_told(rt.alloc(), &IndexError::NoMemory, "no memory")
    );
}
