//! What the proved judge finds in a log, which needs no world.
ghost use Rattle.std.specs.Prelude.{◌≡◌, IfOk};
ghost use Rattle.md_ffi.specs.Judging.{finding_bytes, findings_bytes, Judges};

use md_driven::{NO_MEMORY, Refusal, lay, status};
use md_judge::{Finding, judge_log};
use md_log::LineFault;
use std::alloc::{AllocError, Global};

// A finding as bytes: the number of its line, that of its clause, and 4 bytes that are 0.
#[tactic(auto, unfolding(crate::specs::Reading::four_bytes, crate::specs::Reading::eight_bytes))]
fn record(finding: &Finding) -> [u8; 16]
    ensures { result ≡ finding_bytes finding.now }
{
    let l = finding.line.to_le_bytes();
    let c = (finding.clause.index() as u32 + 1).to_le_bytes();
    [
        l[0], l[1], l[2], l[3], l[4], l[5], l[6], l[7], c[0], c[1], c[2], c[3], 0, 0, 0, 0,
    ]
}

// Findings as bytes, one after another.
#[tactic(auto, using(crate::proofs::Listed::bytes_more))]
fn packed(alloc: Global, findings: &[Finding]) -> Result<Vec<u8>, AllocError>
    ensures { IfOk result (λ bytes. bytes.items ≡ findings_bytes findings.now) }
{
    let mut bytes = Vec::new(alloc);
    for finding in findings {
        bytes.extend_from_slice(&record(finding))?;
    }
    Ok(bytes)
}

/// Judges a whole log, and lays its findings into `out`, in the order of its lines, and at one line in the order of the law: of each the
/// number of its line, from 1, in 8 bytes, and the number of its clause and 0, in 4 each, all little-endian. `length` is set to the whole
/// length, and `line` to 0.
///
/// A log that is not judged is refused as its first wrong line is, whose number is in `line`, with `length` 0. Refused out of memory, with
/// both 0, and `Room`, with `length` set.
#[unsafe(no_mangle)]
pub extern "C" fn md_ffi_judge(
    alloc: Global,
    log: &[u8],
    out: &mut [u8],
    length: &mut usize,
    line: &mut u64,
) -> u32
    ensures { Judges log.now out.old out.new length.new line.new result }
{
    *length = 0;
    *line = 0;
    match judge_log(alloc, log) {
        Ok(findings) => match packed(alloc, &findings) {
            Ok(bytes) => status(lay(&bytes, out, length)),
            Err(_) => NO_MEMORY.number(),
        },
        Err(refused) => {
            if refused.fault == LineFault::NoMemory {
                return NO_MEMORY.number();
            }
            *line = refused.line;
            Refusal::Log(refused.fault).number()
        }
    }
}
