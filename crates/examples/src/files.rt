//! The files of the folder that the program runs in, by their endings.
use crate::judge::judge_file;
use crate::scripts::{play_rows, play_script};
use std::{fs, io};

// What a file is, as its ending says.
#[derive(Clone, Copy)]
enum Kind {
    Script,
    Rows,
    Log,
}

impl Kind {
    fn ending(self) -> &'static str {
        match self {
            Kind::Script => ".script",
            Kind::Rows => ".rows",
            Kind::Log => ".log",
        }
    }

    fn show(self, rt: &HostRuntime, name: &str) -> io::Result<()> {
        match self {
            Kind::Script => play_script(rt, name),
            Kind::Rows => play_rows(rt, name),
            Kind::Log => judge_file(rt, name),
        }
    }
}

/// Plays all scripts and rows, and judges all logs.
pub(crate) fn show_all(rt: &HostRuntime) -> io::Result<()> {
    for kind in [Kind::Script, Kind::Rows, Kind::Log] {
        show(rt, kind)?;
    }
    Ok(())
}

fn show(rt: &HostRuntime, kind: Kind) -> io::Result<()> {
    for name in &names_with(rt, kind.ending())? {
        kind.show(rt, name.as_str())?;
    }
    Ok(())
}

// The files with this ending, without it, in order.
fn names_with(rt: &HostRuntime, ending: &str) -> io::Result<Vec<String>> {
    let mut names = Vec::new(rt.alloc());
    for entry in fs::read_dir(rt, ".")? {
        push_name(rt, &mut names, entry?.file_name(), ending)?;
    }
    names.sort()?;
    Ok(names)
}

fn push_name(
    rt: &HostRuntime,
    names: &mut Vec<String>,
    file: &str,
    ending: &str,
) -> io::Result<()> {
    if let Some(name) = file.strip_suffix(ending) {
        names.push(String::from_str(rt.alloc(), name)?)?;
    }
    Ok(())
}

/// The bytes of the file of this name with this ending.
pub(crate) fn read(rt: &HostRuntime, name: &str, ending: &str) -> io::Result<Vec<u8>> {
    let file = format!(in rt.alloc(); "{name}{ending}")?;
    fs::read(rt, file.as_str())
}
