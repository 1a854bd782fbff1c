//! What is told of each finding beside its clause: the words of its line, and what it costs, by its step and by what its actor says later.

use crate::grade::{Grade, grade_of};
use md_log::{Call, Clause, Said, Step};
use md_name::unique_part;
use md_text::cut;
use md_watch::Broken;
use std::alloc::{AllocError, Global};
use std::collections::BTreeMap;

const SPACE: u8 = b' ';

/// An actor, the number of a folder, and a unique name.
type Removal = (Vec<u8>, u32, Vec<u8>);

/// Where the actor of a finding begins in the text, where its call begins and ends, and what the finding costs.
#[derive(Clone, Copy)]
struct Remark {
    actor: usize,
    call: usize,
    end: usize,
    grade: Grade,
}

/// The remarks on the findings, in their order.
#[derive(Drop)]
pub(crate) struct Remarks {
    alloc: Global,
    text: Vec<u8>,
    all: Vec<Remark>,
    /// The last finding of an actor that a message is lost.
    lost: BTreeMap<Removal, usize>,
}

impl Remarks {
    pub(crate) fn new(alloc: Global) -> Self {
        Remarks {
            alloc,
            text: Vec::new(alloc),
            all: Vec::new(alloc),
            lost: BTreeMap::new(alloc),
        }
    }

    /// What a finding costs, by its number from 0.
    pub(crate) fn grade(&self, finding: usize) -> Grade {
        self.all
            .get(finding)
            .map_or(Grade::Lost, |remark| remark.grade)
    }

    /// The actor and the call of a finding, by its number from 0.
    pub(crate) fn words(&self, finding: usize) -> (&[u8], &[u8]) {
        let Some(remark) = self.all.get(finding) else {
            return (&[], &[]);
        };
        let text = self.text.as_slice();
        let actor = text.get(remark.actor..remark.call);
        let call = text.get(remark.call..remark.end);
        (actor.unwrap_or(&[]), call.unwrap_or(&[]))
    }

    /// A further finding: a clause that a step breaks. It keeps the words of the step's line: MOMENT ACTOR CALL..
    pub(crate) fn add(
        &mut self,
        clause: Clause,
        step: &Step,
        broken: &Broken,
        line: &[u8],
    ) -> Result<(), AllocError> {
        let grade = grade_of(clause, step, broken);
        if clause == Clause::Gone && grade == Grade::Lost {
            self.note_loss(step)?;
        }
        let (_, rest) = cut(line, SPACE);
        let (actor, rest) = cut(rest.unwrap_or(&[]), SPACE);
        let call = without_names(rest.unwrap_or(&[]));
        let at = self.text.len();
        self.text.extend_from_slice(actor)?;
        self.text.extend_from_slice(call)?;
        self.all.push(Remark {
            actor: at,
            call: at.saturating_add(actor.len()),
            end: self.text.len(),
            grade,
        })?;
        Ok(())
    }

    /// The next finding is that the step's actor took a message away.
    fn note_loss(&mut self, step: &Step) -> Result<(), AllocError> {
        let (Call::At { path, .. } | Call::Between { old: path, .. }) = &step.call else {
            return Ok(());
        };
        let unique = unique_part(path.name.as_slice());
        let removal = self.removal(step, path.folder, unique)?;
        self.lost.insert(removal, self.all.len())?;
        Ok(())
    }

    /// Who says that he removed a message has done as its user wished. No mail is lost, but others rely on the flag T.
    pub(crate) fn hear(&mut self, step: &Step) -> Result<(), AllocError> {
        let Call::Answer {
            said: Said::Expunged | Said::Moved(_),
            folder,
            unique,
        } = &step.call
        else {
            return Ok(());
        };
        if self.lost.is_empty() {
            return Ok(());
        }
        let removal = self.removal(step, *folder, unique.as_slice())?;
        if let Some(finding) = self.lost.remove(&removal)
            && let Some(remark) = self.all.get_mut(finding)
        {
            remark.grade = Grade::Owed;
        }
        Ok(())
    }

    fn removal(&self, step: &Step, folder: u32, unique: &[u8]) -> Result<Removal, AllocError> {
        let actor = Vec::from_slice(self.alloc, step.actor.as_slice())?;
        Ok((actor, folder, Vec::from_slice(self.alloc, unique)?))
    }

    /// The findings are put in another order: each has its line and its number so far.
    pub(crate) fn sort(&mut self, order: &[(u64, usize)]) -> Result<(), AllocError> {
        let mut all = Vec::with_capacity(self.alloc, order.len())?;
        for (_, at) in order {
            if let Some(remark) = self.all.get(*at) {
                all.push(*remark)?;
            }
        }
        self.all = all;
        Ok(())
    }
}

/// A call without the names that a reading shows: these may be as many as a directory has.
fn without_names(call: &[u8]) -> &[u8] {
    if !call.starts_with(b"list ") {
        return call;
    }
    let mut spaces = call.iter().enumerate().filter(|(_, byte)| **byte == SPACE);
    match spaces.nth(3) {
        Some((at, _)) => call.get(..at).unwrap_or(call),
        None => call,
    }
}
