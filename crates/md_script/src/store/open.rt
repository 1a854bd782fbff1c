//! An open store: its world, and the first readings that are kept.
ghost use Rattle.std.specs.Prelude.{◌≡◌, []};
ghost use Rattle.md_script.specs.Step.{Steps};
ghost use Rattle.md_script.specs.Held.{command_of};
ghost use Rattle.md_script.specs.Sessions.{new_store, act, on_run, list_in, read_in, read_first, read_second};

use crate::command::Command;
use crate::error::PlayKind;
use crate::listing::push_listing;
use crate::observer::Observer;
use crate::storage::Storage;
use crate::store::acts::{finish, step, submit};
use crate::store::kept::{keep, kept_of, use_up};
use crate::store::printing::push_bytes;
use md_core::World;
use md_view::{BegunListing, list_lent};
use std::alloc::Global;
use std::marker::Model;

/// A store that was opened, and of each folder at most one listing that has begun: new was read, and cur is still to be read.
#[derive(Drop)]
pub(super) struct OpenStore<D: Storage> {
    alloc: Global,
    world: World<D>,
    kept: Vec<BegunListing>,
}

impl<D: Storage> Model for OpenStore<D> {
    ghost use Rattle.std.specs.Prelude.{map};
    ghost use Rattle.std.specs.List.{All};
    ghost use Rattle.std.specs.Coded.{codes};
    ghost use Rattle.md_dirs.specs.State.{state_code};
    ghost use Rattle.md_name.specs.contracts.flags.Flags as flags;
    ghost use Rattle.md_listing.specs.Law.{HasBegun};
    ghost use Rattle.md_script.specs.Held.{first_by};
    ghost use Rattle.md_script.specs.Sessions.{ScriptStore};

    ghost Value = { ScriptStore };

    ghost coded = { Prim.hlevel (codes, state_code, flags.the_row.coded) };

    ghost view = { λ s. record { run = s.world; firsts = map first_by s.kept.items } };

    ghost invariant = { λ s. All (HasBegun s.world) s.kept.items };
}

impl<D: Storage> OpenStore<D> {
    /// A store that was just opened: no reading is kept.
    pub(super) fn new(alloc: Global, world: World<D>) -> Self
        ensures { result ≡ new_store world }
    {
        OpenStore {
            alloc,
            world,
            kept: Vec::new(alloc),
        }
    }

    /// Does what a command asks of a store. One that asks nothing of it does nothing.
    pub(super) fn act<O: Observer<D>>(
        &mut self,
        command: Command<'_>,
        observer: &mut O,
        out: &mut Vec<u8>,
    ) -> Result<(), PlayKind>
        ensures { Steps (act self.old (command_of command.entry)) self.new out.old.items out.new.items result }
    {
        match command {
            Command::Submit(call) => submit(&mut self.world, call, observer, out),
            Command::Step(event) => step(&mut self.world, event, observer, out),
            Command::Finish(event) => finish(&mut self.world, event, observer, out),
            Command::List { folder } => {
                self.arrange(folder);
                self.list(folder, out)
            }
            Command::First { folder } => {
                self.arrange(folder);
                self.first(folder)
            }
            Command::Second { folder } => {
                self.arrange(folder);
                self.second(folder, out)
            }
            Command::Read { unique } => self.read(unique, out),
            _ => Ok(()),
        }
    }
}

// The folders that a line names are there, so that only memory can be wanting to a listing.
impl<D: Storage> OpenStore<D> {
    // Makes a folder ready to be listed. Where memory is refused to that, a listing shows the same, later.
    fn arrange(&mut self, folder: u32)
        ensures { self.new ≡ self.old }
    {
        let _arranged = self.world.arrange(folder);
    }

    // Prints the messages of a folder.
    #[tactic(auto, unfolding(crate::specs::Sessions::list_in))]
    fn list(&self, folder: u32, out: &mut Vec<u8>) -> Result<(), PlayKind>
        ensures { Steps (on_run self.now (list_in self.now.run folder)) self.now out.old.items out.new.items result }
    {
        let Ok(listing) = list_lent(self.alloc, &self.world, folder) else {
            return Err(PlayKind::NoMemory);
        };
        push_listing(out, &listing)?;
        Ok(())
    }

    // Prints the bytes of the message of a unique name, or that there is none.
    #[tactic(auto, unfolding(crate::specs::Sessions::read_in))]
    fn read(&self, unique: &[u8], out: &mut Vec<u8>) -> Result<(), PlayKind>
        ensures { Steps (on_run self.now (read_in self.now.run unique.now)) self.now out.old.items out.new.items result }
    {
        push_bytes(out, self.world.read(unique))?;
        Ok(())
    }

    // Reads new of a folder, and keeps the reading in place of an older one.
    fn first(&mut self, folder: u32) -> Result<(), PlayKind>
        ensures { Steps (read_first self.old folder) self.new [] [] result }
    {
        let Ok(listing) = BegunListing::begin(self.alloc, &self.world, folder) else {
            return Err(PlayKind::NoMemory);
        };
        keep(&mut self.kept, listing)?;
        Ok(())
    }

    // Reads cur of a folder, joins it with the kept reading, which is used up, and prints the messages.
    fn second(&mut self, folder: u32, out: &mut Vec<u8>) -> Result<(), PlayKind>
        ensures { Steps (read_second self.old folder) self.new out.old.items out.new.items result }
    {
        let Some(begun) = kept_of(&self.kept, folder) else {
            return Err(PlayKind::NoFirst);
        };
        let Ok(listing) = begun.finish_lent(self.alloc, &self.world) else {
            return Err(PlayKind::NoMemory);
        };
        push_listing(out, &listing)?;
        drop(listing);
        use_up(&mut self.kept, folder);
        Ok(())
    }
}
