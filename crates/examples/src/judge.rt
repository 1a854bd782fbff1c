//! What a log of directory calls breaks.
use crate::files::read;
use md_judge::{Finding, LogFault, judge_log};
use std::alloc::Global;
use std::io;

/// The first step that breaks the law of a maildir: its line and clause. None where the log is lawful.
pub fn first_unlawful(alloc: Global, log: &[u8]) -> Result<Option<Finding>, LogFault> {
    let findings = judge_log(alloc, log)?;
    Ok(findings.first().copied())
}

/// Prints what is found in a log, or why it is no log.
pub(crate) fn judge_file(rt: &HostRuntime, name: &str) -> io::Result<()> {
    match judge_log(rt.alloc(), &read(rt, name, ".log")?) {
        Ok(findings) => tell_all(rt, name, &findings),
        Err(wrong) => println!(rt; "{name}: line {}: {}", wrong.line, wrong.fault.text()),
    }
}

fn tell_all(rt: &HostRuntime, name: &str, findings: &[Finding]) -> io::Result<()> {
    for finding in findings {
        tell(rt, name, finding)?;
    }
    Ok(())
}

fn tell(rt: &HostRuntime, name: &str, finding: &Finding) -> io::Result<()> {
    let clause = finding.clause.name();
    match finding.before {
        Some(before) => println!(rt; "{name}: line {}: {clause}, by line {before}", finding.line),
        None => println!(rt; "{name}: line {}: {clause}", finding.line),
    }
}
