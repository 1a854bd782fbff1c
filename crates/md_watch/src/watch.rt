//! What a history of directories tells so far, and what its steps break of the law and of what is owed.
ghost use Rattle.std.specs.Prelude.{◌≡◌, ◌≢◌, OnOk, IfOk, IfErr};
ghost use Rattle.md_dirs.specs.State.{bare};
ghost use Rattle.md_log.specs.declared.error.LineFault.TheVariants.{NoMemory};
ghost use Rattle.md_law.specs.History.{History, Moment, opening, next};
ghost use Rattle.md_kept.specs.Changes.{turn_of, adding, file_in};
ghost use Rattle.md_watch.specs.Found.{before_of, after_of};
ghost use Rattle.md_watch.specs.Watches.{Holds, with_folder, PutsFile, PutsName, IsPathRefused, IsNameRefused, Finds, Touches, Follows, touching};

mod earlier;
mod finding;
mod law;
mod look_ups;

use crate::broken::{Before, Broken};
use crate::marks::{Marks, There};
use crate::memory::{Heard, Memory};
use crate::presences::in_folders;
use finding::is_from_new;
use law::empties_trash;
pub use look_ups::{OpenReading, Presence};
use md_dirs::Path;
use md_kept::{Change, Drafts, Files, Messages, Paths};
use md_log::{Call, Deed, LineFault, Reply, Step};
use std::alloc::{AllocError, Global};

/// 36 hours.
const LONG: u64 = 129_600;

/// A watch on directories that programs share: what is kept of a history so far, and by that what each of its steps breaks of the law, and
/// of what its program owes the others.
#[derive(Drop)]
pub struct Watch {
    alloc: Global,
    clock: u64,
    folders: usize,
    paths: Paths,
    files: Files,
    messages: Messages,
    drafts: Drafts,
    memory: Memory,
    marks: Marks,
}

impl Watch {
    /// There is no folder, and no file.
    pub fn new(alloc: Global) -> Self
        ensures { Holds (opening (record { state = bare 0; now = 0 })) result }
    {
        Watch {
            alloc,
            clock: 0,
            folders: 0,
            paths: Paths::new(alloc),
            files: Files::new(alloc),
            messages: Messages::new(alloc),
            drafts: Drafts::new(alloc),
            memory: Memory::new(alloc),
            marks: Marks::new(alloc),
        }
    }

    /// At the beginning there is a folder more. After a refusal the watch is not to be used.
    pub fn put_folder(&mut self) -> Result<(), AllocError>
        ensures { (m : Moment) → Holds (opening m) self.old → OnOk result (Holds (opening (with_folder m)) self.new) }
    {
        let Some(folders) = self.folders.checked_add(1) else {
            return Err(AllocError);
        };
        self.folders = folders;
        Ok(())
    }

    /// At the beginning a file is there, which was last made or written to at the moment `stamp`. After a refusal the watch is not to be
    /// used.
    pub fn put_file(&mut self, path: &Path, stamp: u64) -> Result<(), LineFault>
        ensures begins { (m : Moment) → Holds (opening m) self.old → OnOk result (PutsFile m path.now stamp self.new) }
        ensures refused { (m : Moment) → Holds (opening m) self.old
            → IfErr result (λ fault. fault ≢ NoMemory → IsPathRefused m path.now fault) }
    {
        if self.paths.file_at(path).is_some() {
            return Err(LineFault::SamePath);
        }
        let file = self.files.count();
        self.files.make(None, stamp)?;
        self.marks.begin(path, file, &self.files, &self.messages)?;
        self.follow(&added(path, file))?;
        self.memory.put(path)?;
        Ok(())
    }

    /// At the beginning a file has a further path. After a refusal the watch is not to be used.
    pub fn put_name(&mut self, path: &Path, old: &Path) -> Result<(), LineFault>
        ensures begins { (m : Moment) → Holds (opening m) self.old → OnOk result (PutsName m path.now old.now self.new) }
        ensures refused { (m : Moment) → Holds (opening m) self.old
            → IfErr result (λ fault. fault ≢ NoMemory → IsNameRefused m path.now old.now fault) }
    {
        if self.paths.file_at(path).is_some() {
            return Err(LineFault::SamePath);
        }
        let Some(file) = self.paths.file_at(old) else {
            return Err(LineFault::NoSuchPath);
        };
        self.marks.begin(path, file, &self.files, &self.messages)?;
        self.follow(&added(path, file))?;
        self.memory.put(path)?;
        Ok(())
    }

    /// Goes on by a step, and says what it breaks. After a refusal the watch is not to be used.
    pub fn step(&mut self, step: &Step) -> Result<Broken, AllocError>
        ensures holds { (h : History) → Holds h self.old → OnOk result (Holds (next h step.now) self.new) }
        ensures found { (h : History) → Holds h self.old → IfOk result (λ broken. Finds broken (next h step.now)) }
    {
        self.clock = self.clock.max(step.moment);
        let change = self.paths.change(self.files.count(), &step.call);
        let were = in_folders(&self.messages, &change);
        let before = self.before(step, &change);
        let heard = self.memory.hear(step, &self.paths, &self.messages)?;
        let number = self.memory.steps;
        let there = There {
            paths: &self.paths,
            files: &self.files,
            messages: &self.messages,
            presences: &self.memory.presences,
        };
        self.marks
            .step(number, step, &change, &there, heard.told.acts)?;
        self.touch(step)?;
        self.follow(&change)?;
        let are = in_folders(&self.messages, &change);
        self.memory.follow(step, &change, were, are)?;
        Ok(self.after(&change, &before, heard))
    }

    fn before(&self, step: &Step, change: &Change<'_>) -> Before
        ensures { result ≡ before_of self.now (turn_of change.now) step.now }
    {
        let actor = step.actor.as_slice();
        let written = self.written(&step.call);
        let adds = self.adds(change);
        Before {
            adds,
            empties_trash: empties_trash(&step.call),
            takes_early: self.is_early(actor, change.taken),
            turns_early: self.is_early(actor, change.turned),
            not_a_directory: self.paths.is_wrong(self.folders, &step.call),
            overwritten: change.turned.is_some(),
            seen_before_whole: self.shows_too_early(&step.call, written, change.named),
            mixed: self.is_mixed(actor, written),
            not_flushed: self.shows_unflushed(change.named),
            used_again: adds && self.is_back(change.named),
            moved_back: self.is_moved_back(change.named) && !is_from_new(&step.call),
            named_by_another: self.is_anothers(step, change.named),
            rewritten: self.is_rewritten(written),
            used_twice: self.is_used_twice(change.named),
            made_again: self.is_made_again(change.named),
            written_late: self.is_late(written),
        }
    }

    fn after(&self, change: &Change<'_>, before: &Before, heard: Heard) -> Broken
        ensures { result ≡ after_of self.now (turn_of change.now) before.now heard }
    {
        let gone = !before.empties_trash && self.is_gone(change.taken);
        Broken {
            two_names: before.adds && self.is_second(change.named),
            in_two_folders: before.adds && self.is_elsewhere(change.named),
            gone,
            renamed: gone && !self.is_hidden(change.taken),
            cleaned_early: before.takes_early && self.is_hidden(change.taken)
                || before.turns_early && self.is_hidden(change.turned),
            before: *before,
            heard,
        }
    }

    /// What a call does to files, but for their paths.
    fn touch(&mut self, step: &Step) -> Result<(), AllocError>
        ensures { OnOk result (Touches step.now self.old self.new) }
    {
        touch(self.alloc, &mut self.files, &self.paths, self.clock, step)
    }

    fn follow(&mut self, change: &Change<'_>) -> Result<(), AllocError>
        ensures { OnOk result (Follows (turn_of change.now) self.old self.new) }
    {
        self.paths.follow(change)?;
        self.files.follow(change)?;
        self.messages.follow(change)?;
        self.drafts.follow(change.named)
    }
}

/// Takes in what a step does to a file. It holds no more of the watch than that, which keeps its proof short.
fn touch(
    alloc: Global,
    files: &mut Files,
    paths: &Paths,
    clock: u64,
    step: &Step,
) -> Result<(), AllocError>
    ensures { OnOk result
        (touching (file_in paths.now) clock step.now.actor step.now.call files.old.all.items files.new.all.items) }
{
    let Call::At { deed, path, reply } = &step.call else {
        return Ok(());
    };
    match (*deed, *reply) {
        (Deed::Create, Reply::Ok) => {
            let maker = step.actor.again(alloc)?;
            return files.make(Some(maker), clock);
        }
        (Deed::Write, Reply::Ok) => files.write(paths.file_at(path), clock),
        (Deed::Write, Reply::Fault) => files.cut(paths.file_at(path)),
        (Deed::Flush, Reply::Ok) => files.flush(paths.file_at(path)),
        _ => {}
    }
    Ok(())
}

/// A path is added that names the file.
fn added(path: &Path, file: usize) -> Change<'_>
    ensures { turn_of result ≡ adding path.now file }
{
    Change {
        named: Some((path, file)),
        taken: None,
        turned: None,
    }
}
