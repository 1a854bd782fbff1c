//! The index of a script's messages: for each its name, the lines of its summary and `end`.
ghost use Rattle.std.specs.Prelude.{◌≡◌, ◌≢◌, ◌+◌, ◌≤◌, ◌⊎◌, ℕ, false, List, Ok, Err, MatchResult};
ghost use Rattle.md_text.specs.Folders.{names_of};
ghost use Rattle.md_script.specs.Kinds.{at_no_line};
ghost use Rattle.md_script.specs.Reading.{most_reads};
ghost use Rattle.md_script.specs.ReadSetups.{SetsUp};
ghost use Rattle.md_script.specs.declared.error.PlayKind.TheVariants.{NoMemory};
ghost use Rattle.md_script.specs.Indexing.{index_of_script, index_over};
ghost use Rattle.md_runs.specs.Indexes.{Indexes};

mod workers;

use md_dirs::{HashSeed, ImageFile};
use md_script::{
    PlayError, PlayKind, ReadSetup, Sink, Source, folders_text, load, read_image, refused,
    write_whole,
};
use std::alloc::Global;
use std::mem::forget;
use std::sync::Wait;
use std::thread::Threads;
use workers::push_folder;

/// Reads a script to its end and takes in what its lines set up while it reads, of which it keeps only the line that hasn't ended; opens
/// the store of its folders and files, and writes its index: for each folder, in the order of their lines, and each of its messages, in
/// order of unique name, `FOLDER UNIQUE`, the lines of the message's header summary (RFC 5322) and `end`. So many workers, 1 to 64, make
/// the summaries.
///
/// Nothing is written where a line is refused, `not in this run` where it has another command than `folder` and `file`; nor where the
/// store can't be opened, which has the number of the last line; nor at the refusals of line 0: `ReadFault`, `TooLong`, `TooManyReads`
/// and `NoMemory`. After `WriteFault`, at line 0 too, nothing is known of what was written.
///
/// It is the last thing that a process does: the memory of the store isn't given back. Names are hashed by a seed.
pub(crate) fn run_index<R: Threads + Wait + Sync, S: Source, T: Sink>(
    rt: &R,
    alloc: Global,
    seed: HashSeed,
    workers: usize,
    source: &mut S,
    sink: &mut T,
) -> Result<(), PlayError>
    requires { (1 ≤ workers) × (workers ≤ 64) }
    ensures index { Indexes (S.state source.old) (S.state source.new) (T.state sink.old) (T.state sink.new) result }
    ensures reads { (S.state source.new).reads ≤ (S.state source.old).reads + most_reads }
{
    let read = read_image(alloc, source, false)?;
    let text = index_text(rt, alloc, seed, workers, read)?;
    Ok(write_whole(sink, &text)?)
}

// The index of a script that was read.
fn index_text<R: Threads + Wait + Sync>(
    rt: &R,
    alloc: Global,
    seed: HashSeed,
    workers: usize,
    read: ReadSetup,
) -> Result<Vec<u8>, PlayError>
    ensures { (script : List ℕ) → SetsUp false script read → MatchResult result
        (λ text. index_of_script script ≡ Ok text.items)
        (λ e. (e ≡ at_no_line NoMemory) ⊎ (index_of_script script ≡ Err e)) }
{
    let setup = read.setup;
    let files = setup.files;
    let text = text_over(rt, alloc, seed, workers, &setup.folders, files);
    Ok(text.map_err(|kind| refused(read.lines, kind))?)
}

// The index of the store over folders and files.
#[tactic(auto, unfolding(md_script::specs::Indexing::index_over))]
fn text_over<R: Threads + Wait + Sync>(
    rt: &R,
    alloc: Global,
    seed: HashSeed,
    workers: usize,
    names: &[Vec<u8>],
    files: Vec<ImageFile>,
) -> Result<Vec<u8>, PlayKind>
    ensures { MatchResult result
        (λ text. index_over (names_of names.now) files.items ≡ Ok text.items)
        (λ kind. kind ≢ NoMemory → index_over (names_of names.now) files.items ≡ Err kind) }
{
    let world = load(alloc, seed, names, files)?;
    let push = |folder: u32, name: &[u8], out: &mut Vec<u8>| push_folder(
        rt, alloc, workers, &world, folder, name, out,
    );
    let text = folders_text(alloc, names, &push);
    // The process ends soon, and the system takes its memory at once.
    forget(world);
    Ok(text?)
}
