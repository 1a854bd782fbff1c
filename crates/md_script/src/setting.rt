//! The session of a script that sets a store up.
ghost use Rattle.std.specs.Prelude.{◌≡◌};
ghost use Rattle.md_script.specs.Step.{Steps};
ghost use Rattle.md_script.specs.Held.{command_of};
ghost use Rattle.md_script.specs.Setups.{IsSetup, set_up, setting_line, new_setting};

use crate::command::{Command, read_command};
use crate::error::PlayKind;
use crate::session::Session;
use crate::setup::Setup;
use crate::verb::Mode;
use md_core::Call;
use md_dirs::ImageFile;
use md_text::Folders;
use std::alloc::Global;
use std::marker::Model;

/// Folders, files and calls, as their lines name them.
#[derive(Drop)]
pub(crate) struct Setting {
    alloc: Global,
    with_jobs: bool,
    folders: Folders,
    files: Vec<ImageFile>,
    calls: Vec<Call>,
}

impl Model for Setting {
    ghost use Rattle.std.specs.Coded.{codes};
    ghost use Rattle.md_name.specs.contracts.flags.Flags as flags;
    ghost use Rattle.md_script.specs.Setups.{Setting};

    ghost Value = { Setting };

    ghost coded = { Prim.hlevel (codes, flags.the_row.coded) };

    ghost view = { λ s. record { with_jobs = s.with_jobs; folders = s.folders; files = s.files.items; calls = s.calls.items } };
}

impl Setting {
    /// Nothing yet.
    pub(crate) fn new(alloc: Global, with_jobs: bool) -> Self
        ensures { result ≡ new_setting with_jobs }
    {
        Setting {
            alloc,
            with_jobs,
            folders: Folders::new(alloc),
            files: Vec::new(alloc),
            calls: Vec::new(alloc),
        }
    }

    /// The lists. It takes no memory.
    pub(crate) fn into_setup(self) -> Setup
        ensures { IsSetup self result }
    {
        Setup {
            folders: self.folders.into_names(),
            files: self.files,
            calls: self.calls,
        }
    }

    // Does what a command says.
    fn obey(&mut self, command: Command<'_>, out: &mut Vec<u8>) -> Result<(), PlayKind>
        ensures { Steps (set_up self.old (command_of command.entry)) self.new out.old.items out.new.items result }
    {
        match command {
            Command::Folder { name } => Ok(self.folders.add(name)?),
            Command::File(file) => Ok(self.files.push(file)?),
            Command::Submit(call) => Ok(self.calls.push(call)?),
            _ => Err(PlayKind::NotInThisRun),
        }
    }
}

impl Session for Setting {
    ghost step = { setting_line };

    fn run_line(&mut self, _number: u64, line: &[u8], out: &mut Vec<u8>) -> Result<(), PlayKind> {
        let mode = Mode::SettingUp {
            with_jobs: self.with_jobs,
        };
        let command = read_command(self.alloc, &self.folders, mode, line)?;
        self.obey(command, out)
    }
}
