//! How often each clause was broken, and where first.
ghost use Rattle.std.specs.Prelude.{◌≡◌, ◌++◌, ◌∷◌, [], None, map, OnOk};
ghost use Rattle.md_findings.specs.Tallies.{with_finding, added, sum_of, count_line, sum_line, summary};

use md_command::push_number;
use std::alloc::{AllocError, Global};

/// What was found of a clause.
#[derive(Clone, Copy)]
pub(crate) struct Count {
    /// The name of the clause, and why a step that breaks it is wrong.
    pub(crate) clause: &'static str,
    pub(crate) why: &'static str,
    pub(crate) findings: u64,
    /// The line of the first finding.
    pub(crate) first: Option<u64>,
}

/// The clauses that may be found, in their order, each with what was found of it.
#[derive(Drop)]
pub(crate) struct Tally {
    counts: Vec<Count>,
}

impl Tally {
    /// No clause.
    pub(crate) fn new(alloc: Global) -> Tally
        ensures { result.counts.items ≡ [] }
    {
        Tally {
            counts: Vec::new(alloc),
        }
    }

    /// A further clause, of which nothing was found.
    pub(crate) fn expect(
        &mut self,
        clause: &'static str,
        why: &'static str,
    ) -> Result<(), AllocError>
        ensures { OnOk result (self.new.counts.items ≡ self.old.counts.items ++
            record { clause = clause.entry; why = why.entry; findings = 0; first = None } ∷ []) }
    {
        self.counts.push(Count {
            clause,
            why,
            findings: 0,
            first: None,
        })?;
        Ok(())
    }

    /// Counts a finding of a clause at a line. The first one that is counted is the first one of the log.
    pub(crate) fn add(&mut self, clause: &str, line: u64)
        ensures { self.new.counts.items ≡ map (added clause.now line) self.old.counts.items }
    {
        for count in self.counts.iter_mut() {
            *count = added(*count, clause, line);
        }
    }

    /// Appends a line for each clause that was found, and one with the sum.
    pub(crate) fn push_lines(&self, out: &mut Vec<u8>) -> Result<(), AllocError>
        ensures { OnOk result (out.new.items ≡ out.old.items ++ summary self.now.counts.items) }
    {
        for count in self.counts.iter().copied() {
            push_count(out, count)?;
        }
        push_sum(out, self.sum())
    }

    // How many findings there are.
    fn sum(&self) -> u64
        ensures { result ≡ sum_of self.now.counts.items }
    {
        let mut sum = 0u64;
        for count in self.counts.iter().copied() {
            sum = sum.saturating_add(count.findings);
        }
        sum
    }
}

// The same with a finding of this clause, if it is the one that is counted here.
fn added(count: Count, clause: &str, line: u64) -> Count
    ensures { result ≡ added clause.now line count }
{
    if count.clause == clause {
        with_finding(count, line)
    } else {
        count
    }
}

// What was found of a clause, with one more finding at a line. No log has so many that the count ends.
fn with_finding(count: Count, line: u64) -> Count
    ensures { result ≡ with_finding line count }
{
    Count {
        findings: count.findings.saturating_add(1),
        first: Some(count.first.unwrap_or(line)),
        ..count
    }
}

// Appends `COUNT CLAUSE, first at line LINE: WHY`, if anything was found.
fn push_count(out: &mut Vec<u8>, count: Count) -> Result<(), AllocError>
    ensures { OnOk result (out.new.items ≡ out.old.items ++ count_line count) }
{
    let Some(first) = count.first else {
        return Ok(());
    };
    push_number(out, count.findings)?;
    out.extend_from_slice(b" ")?;
    out.extend_from_slice(count.clause.as_bytes())?;
    out.extend_from_slice(b", first at line ")?;
    push_number(out, first)?;
    out.extend_from_slice(b": ")?;
    out.extend_from_slice(count.why.as_bytes())?;
    out.extend_from_slice(b"\n")
}

fn push_sum(out: &mut Vec<u8>, sum: u64) -> Result<(), AllocError>
    ensures { OnOk result (out.new.items ≡ out.old.items ++ sum_line sum) }
{
    push_number(out, sum)?;
    if sum == 1 {
        out.extend_from_slice(b" finding\n")
    } else {
        out.extend_from_slice(b" findings\n")
    }
}
