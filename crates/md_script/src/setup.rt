//! What a script sets up, for another to run.
ghost use Rattle.std.specs.Prelude.{◌≡◌, ◌+◌, ◌≤◌, ◌⊎◌, None, Some, MatchResult};
ghost use Rattle.md_script.specs.declared.error.PlayKind.TheVariants.{NoMemory};
ghost use Rattle.md_script.specs.Kinds.{at_no_line};
ghost use Rattle.md_script.specs.Setups.{setting_of, IsSetup};
ghost use Rattle.md_script.specs.Reading.{most_reads};
ghost use Rattle.md_script.specs.ReadSetups.{ReadsImage};

use crate::error::PlayError;
use crate::incoming::run_source;
use crate::run::run;
use crate::setting::Setting;
use crate::source::Source;
use md_core::Call;
use md_dirs::ImageFile;
use std::alloc::Global;

/// The names of a script's folders, its files and its calls, each in the order of their lines.
#[derive(Debug, Drop)]
pub struct Setup {
    pub folders: Vec<Vec<u8>>,
    pub files: Vec<ImageFile>,
    pub calls: Vec<Call>,
}

/// What a script sets up, and how many lines it has, those that are passed over included.
#[derive(Debug, Drop)]
pub struct ReadSetup {
    pub setup: Setup,
    pub lines: u64,
}

/// What a script sets up. Nothing is loaded, so that neither the files nor the calls are checked beyond their words.
///
/// Refused at the first line that is: as `NotInThisRun`, before its other words, where its command is none of `folder`, `file` and, where
/// jobs are allowed, `job`; else as its words are. `NoMemory`, at line 0, may come in place of any other refusal.
pub fn image(alloc: Global, script: &[u8], jobs_allowed: bool) -> Result<Setup, PlayError>
    ensures { MatchResult result
        (λ setup. ((setting_of jobs_allowed script.now).refusal ≡ None) × IsSetup (setting_of jobs_allowed script.now).session setup)
        (λ e. (e ≡ at_no_line NoMemory) ⊎ ((setting_of jobs_allowed script.now).refusal ≡ Some e)) }
{
    let mut setting = Setting::new(alloc, jobs_allowed);
    let printed = run(alloc, &mut setting, script)?;
    match printed.refusal {
        None => Ok(setting.into_setup()),
        Some(refused) => Err(refused),
    }
}

/// Reads a script to its end, in at most 1,048,576 reads, and takes in what its lines set up while it reads, as `image` does of a script's
/// bytes. Of the script it keeps only the line that hasn't ended.
///
/// The refusals of line 0 come before any of a line: `ReadFault`, `TooLong`, `TooManyReads` and `NoMemory`. Else it is refused as by `image`.
pub fn read_image<S: Source>(
    alloc: Global,
    source: &mut S,
    jobs_allowed: bool,
) -> Result<ReadSetup, PlayError>
    ensures image { ReadsImage jobs_allowed (S.state source.old) (S.state source.new) result }
    ensures reads { (S.state source.new).reads ≤ (S.state source.old).reads + most_reads }
{
    let mut setting = Setting::new(alloc, jobs_allowed);
    let progress = run_source(alloc, source, &mut setting)?;
    match progress.printed.refusal {
        None => Ok(ReadSetup {
            setup: setting.into_setup(),
            lines: progress.passed,
        }),
        Some(refused) => Err(refused),
    }
}
