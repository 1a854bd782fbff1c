//! The index of a script: the lines of each message, with the summary of its header. Its parts are for whoever makes the summaries side by
//! side.
ghost use Rattle.std.specs.Prelude.{◌≡◌, ◌≢◌, ◌⊎◌, ◌++◌, ℕ, List, Ok, Err, IfOk, OnOk, MatchResult};
ghost use Rattle.md_text.specs.Folders.{names_of};
ghost use Rattle.md_script.specs.Kinds.{at_no_line};
ghost use Rattle.md_script.specs.declared.error.PlayKind.TheVariants.{NoMemory};
ghost use Rattle.md_script.specs.Indexing.{index_of_script, index_over, of_folders};

mod folder;
mod in_turn;
mod loading;

use crate::error::{PlayError, PlayKind};
use crate::lines::count_lines;
use crate::setup::{Setup, image};
pub use folder::{bytes_of, list_folder, push_indexed};
use in_turn::push_folder;
pub use loading::{load, refused};
use md_dirs::{HashSeed, ImageFile};
use std::alloc::{AllocError, Global};

/// The index of a script of `folder` and `file` lines: for each folder, in the order of their lines, and each of its messages, in order of
/// unique name, the lines that `push_indexed` appends. Names are hashed by a seed.
///
/// Refused at the first line that is: `NotInThisRun` where it has another command, else as its words are. Where the files make no store it
/// is refused at the last line, as `open_store` is. `NoMemory`, at line 0, may come in place of either.
pub fn index_text(alloc: Global, seed: HashSeed, script: &[u8]) -> Result<Vec<u8>, PlayError>
    ensures { MatchResult result
        (λ text. index_of_script script.now ≡ Ok text.items)
        (λ e. (e ≡ at_no_line NoMemory) ⊎ (index_of_script script.now ≡ Err e)) }
{
    let Setup {
        folders,
        files,
        calls: _,
    } = image(alloc, script, false)?;
    match text_over(alloc, seed, &folders, files) {
        Ok(text) => Ok(text),
        Err(kind) => Err(refused(count_lines(script), kind)),
    }
}

// The index of the store over folders and files.
#[tactic(auto, unfolding(crate::specs::Indexing::index_over))]
fn text_over(
    alloc: Global,
    seed: HashSeed,
    names: &[Vec<u8>],
    files: Vec<ImageFile>,
) -> Result<Vec<u8>, PlayKind>
    ensures { MatchResult result
        (λ text. index_over (names_of names.now) files.items ≡ Ok text.items)
        (λ kind. kind ≢ NoMemory → index_over (names_of names.now) files.items ≡ Err kind) }
{
    let world = load(alloc, seed, names, files)?;
    let push = |folder: u32, name: &[u8], out: &mut Vec<u8>| push_folder(
        alloc, &world, folder, name, out,
    );
    Ok(folders_text(alloc, names, &push)?)
}

/// The texts of folders of these names, one behind the other: `push` is given the number of each, from 0, and its name, and appends its text.
#[tactic(auto, unfolding(crate::specs::Indexing::of_folders))]
pub fn folders_text<F: Fn(u32, &[u8], &mut Vec<u8>) -> Result<(), AllocError>>(
    alloc: Global,
    names: &[Vec<u8>],
    push: &F,
) -> Result<Vec<u8>, AllocError>
    requires { F.IsAlwaysCallable push.now }
    ensures { (text : ℕ → List ℕ → List ℕ)
        → ((folder : _) (name : _) (out : _) (r : _) (after : _) → F.post push.now folder name out r after
        → OnOk r (after.now.items ≡ out.now.items ++ text folder name.now))
        → IfOk result (λ all. all.items ≡ of_folders text 0 (names_of names.now)) }
{
    let mut text = Vec::new(alloc);
    let mut folder = 0u32;
    let mut left = names;
    while let [name, others @ ..] = left {
        push(folder, name.as_slice(), &mut text)?;
        // No memory holds so many folders.
        let Some(next) = folder.checked_add(1) else {
            return Err(AllocError);
        };
        folder = next;
        left = others;
    }
    Ok(text)
}
