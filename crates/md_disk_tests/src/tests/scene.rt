//! Two maildirs on a disk for a scene.
use super::are_right;
use super::counting::{Counted, Counting};
use super::step::{Step, are_taken};
use md_disk::{Calls, Disk, Folders, Namer, make_maildir};
use md_jobs::CoreError;
use std::alloc::Global;
use std::fs::Files;
use std::process::Abort;
use std::time::Clock;

/// Where a scene is played: on a host, whose readings are counted, in a folder.
#[derive(Drop)]
pub(super) struct Stage<'h, H: Counted> {
    pub(super) alloc: Global,
    pub(super) host: &'h H,
    pub(super) root: &'h str,
}

/// The path of something in a folder.
pub(super) fn within(alloc: Global, folder: &str, name: &str) -> Result<String, CoreError> {
    let mut path = String::from_str(alloc, folder)?;
    path.push('/')?;
    path.push_str(name)?;
    Ok(path)
}

// A path that is not there yet, in the folder for temporary files.
fn fresh_path<R: Clock>(alloc: Global, clock: &R) -> Result<String, CoreError> {
    let Ok(name) = Namer::new(1, Vec::from_slice(alloc, b"deolmutt-test")?).name(alloc, clock)
    else {
        return Err(CoreError::NoMemory);
    };
    within(
        alloc,
        "/tmp",
        std::str::from_utf8(name.as_slice()).unwrap_or("deolmutt-test"),
    )
}

// Makes the maildirs inbox and other in a folder that is made for them, numbered so.
fn make_boxes<R: Files + Clock>(
    alloc: Global,
    files: &R,
    root: &str,
) -> Result<Folders, CoreError> {
    let mut paths = Vec::new(alloc);
    let _made = files.create_dir(root);
    for name in ["inbox", "other"] {
        let path = within(alloc, root, name)?;
        let _made = make_maildir(alloc, files, path.as_str());
        paths.push(path)?;
    }
    Ok(Folders::new(paths))
}

fn plays_in<H: Counted>(stage: &Stage<'_, H>, steps: &[Step<'_>]) -> Result<bool, CoreError> {
    let folders = make_boxes(stage.alloc, stage.host, stage.root)?;
    let mut disk = Disk::over(Calls::new(stage.host, folders, true));
    are_taken(stage, &mut disk, steps)
}

fn plays<R: Files + Clock>(
    alloc: Global,
    rt: &R,
    is_early: bool,
    steps: &[Step<'_>],
) -> Result<bool, CoreError> {
    let root = fresh_path(alloc, rt)?;
    let host = Counting::new(rt, is_early);
    let stage = Stage {
        alloc,
        host: &host,
        root: root.as_str(),
    };
    let played = plays_in(&stage, steps);
    let _gone = rt.remove_dir_all(alloc, root.as_str());
    played
}

/// Plays the steps of a scene twice, each time on new maildirs, which go afterwards.
pub(super) fn play<R: Files + Clock + Abort>(
    rt: &R,
    alloc: Global,
    is_early: bool,
    steps: &[Step<'_>],
) {
    are_right(
        rt,
        plays(alloc, rt, is_early, steps),
        plays(alloc, rt, is_early, steps),
    );
}
