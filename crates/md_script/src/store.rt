//! The session of a store: the folders and files that a script names, and the store over them once a command needs it.
ghost use Rattle.std.specs.Prelude.{◌≡◌, ◌++◌, ◌∷◌, [], false, OnOk, Ok, is_some};
ghost use Rattle.md_head.specs.Summaries.{summary_of};
ghost use Rattle.md_script.specs.Step.{Steps};
ghost use Rattle.md_script.specs.Held.{command_of, named_of, Opens};
ghost use Rattle.md_script.specs.Sessions.{act, files_beside, obey, session_line, new_session, in_store, printing};
ghost use Rattle.md_script.specs.Texts.{summary_text};

mod acts;
mod kept;
mod open;
mod opening;
mod printing;

use crate::command::{Command, read_command};
use crate::error::PlayKind;
use crate::observer::Observer;
use crate::session::Session;
use crate::storage::Storage;
use crate::summary::{push_summary, push_unique};
use crate::verb::Mode;
use md_dirs::{HashSeed, ImageFile};
use md_head::summary;
use md_name::{UniqueParts, make_unique};
use md_text::Folders;
use open::OpenStore;
pub use opening::open_store;
pub use printing::push_answer_line;
use std::alloc::{AllocError, Global};
use std::marker::Model;
use std::mem;

/// Folders and files, and a store over them, which is opened at the first command that needs it: no folder and no file is added from
/// then on. An observer is shown what is done.
#[derive(Drop)]
pub(crate) struct StoreSession<D: Storage, O: Observer<D>> {
    alloc: Global,
    seed: HashSeed,
    folders: Folders,
    files: Vec<ImageFile>,
    store: Option<OpenStore<D>>,
    observer: O,
}

impl<D: Storage, O: Observer<D>> Model for StoreSession<D, O> {
    ghost use Rattle.std.specs.Coded.{codes};
    ghost use Rattle.md_dirs.specs.State.{state_code};
    ghost use Rattle.md_name.specs.contracts.flags.Flags as flags;
    ghost use Rattle.md_script.specs.Sessions.{Session, files_beside};

    ghost Value = { Session };

    ghost coded = { Prim.hlevel (codes, state_code, flags.the_row.coded) };

    ghost view = { λ s. record { folders = s.folders; files = files_beside s.store s.files.items; store = s.store } };
}

impl<D: Storage, O: Observer<D>> StoreSession<D, O> {
    /// A session without a folder, whose store will hash names by a seed.
    pub(crate) fn new(alloc: Global, seed: HashSeed, observer: O) -> Self
        ensures { result ≡ new_session }
    {
        StoreSession {
            alloc,
            seed,
            folders: Folders::new(alloc),
            files: Vec::new(alloc),
            store: None,
            observer,
        }
    }

    /// The observer. The store is left as it is, and not given back: the process is to end soon, and the system takes its memory at once.
    pub(crate) fn into_observer(self) -> O {
        mem::forget(self.store);
        self.observer
    }

    // Does what a command says.
    fn obey(&mut self, command: Command<'_>, out: &mut Vec<u8>) -> Result<(), PlayKind>
        ensures { Steps (obey self.old (command_of command.entry)) self.new out.old.items out.new.items result }
    {
        match command {
            Command::Folder { name } => {
                self.folders.add(name)?;
                self.observer.folder(name);
                Ok(())
            }
            Command::File(file) => Ok(self.add_file(file)?),
            Command::Unique(parts) => self.unique(parts, out),
            Command::Summary { message } => self.summary(&message, out),
            other => self.act(other, out),
        }
    }
}

impl<D: Storage, O: Observer<D>> StoreSession<D, O> {
    // Adds a file that the store will begin with.
    fn add_file(&mut self, file: ImageFile) -> Result<(), AllocError>
        ensures { OnOk result (self.new ≡ record self.old { files = files_beside self.old.store (self.old.files ++ file ∷ []) }) }
    {
        Ok(self.files.push(file)?)
    }

    // Does what a command asks of the store.
    fn act(&mut self, command: Command<'_>, out: &mut Vec<u8>) -> Result<(), PlayKind>
        ensures { Steps (in_store self.old (λ t. act t (command_of command.entry))) self.new out.old.items out.new.items result }
    {
        self.open()?;
        let Some(store) = &mut self.store else {
            unreachable!()
        };
        store.act(command, &mut self.observer, out)
    }

    // Opens the store over the folders and the files, if no command did before.
    fn open(&mut self) -> Result<(), PlayKind>
        ensures { Opens self.old self.new result }
    {
        if self.store.is_some() {
            return Ok(());
        }
        self.open_first()
    }

    // Opens the store. Apart, since its locals are large, and each command but the first has a store.
    #[inline(never)]
    fn open_first(&mut self) -> Result<(), PlayKind>
        requires { is_some self.old.store ≡ false }
        ensures { Opens self.old self.new result }
    {
        let files = mem::replace(&mut self.files, Vec::new(self.alloc));
        let world = open_store(self.alloc, self.seed, self.folders.count(), files)?;
        self.observer.opened(&world);
        self.store = Some(OpenStore::new(self.alloc, world));
        Ok(())
    }

    fn unique(&mut self, parts: UniqueParts<'_>, out: &mut Vec<u8>) -> Result<(), PlayKind>
        ensures { Steps (printing self.old (named_of parts.entry)) self.new out.old.items out.new.items result }
    {
        let name = make_unique(self.alloc, parts)?;
        push_unique(out, &name)?;
        Ok(())
    }

    fn summary(&mut self, message: &[u8], out: &mut Vec<u8>) -> Result<(), PlayKind>
        ensures { Steps (printing self.old (Ok (summary_text (summary_of message.now)))) self.new out.old.items out.new.items result }
    {
        let summary = summary(self.alloc, message)?;
        push_summary(out, &summary)?;
        Ok(())
    }
}

impl<D: Storage, O: Observer<D>> Session for StoreSession<D, O> {
    ghost step = { session_line };

    fn run_line(&mut self, number: u64, line: &[u8], out: &mut Vec<u8>) -> Result<(), PlayKind> {
        self.observer.line(number);
        let mode = Mode::Playing {
            is_loaded: self.store.is_some(),
        };
        let command = read_command(self.alloc, &self.folders, mode, line)?;
        self.obey(command, out)
    }
}
