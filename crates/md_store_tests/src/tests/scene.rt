// Opens a store for a test, plays a scene there, and looks at its world. The store and its passes are lent to the scene, so that each is
// let go in one place alone.
ghost use Rattle.std.specs.Prelude.{◌≡◌, IfSome};
ghost use Rattle.md_view.specs.Named.{named_of};
ghost use Rattle.md_store.specs.Locks.{IsFresh};

use super::fixtures::{call, files, is_file};
use super::gated::{Gate, Gated, Keeper};
use super::stages::play_stages;
use super::stampede::{Stampede, are_beginnings, run_all};
use md_core::World;
use md_dirs::{Hooked, ImageFile, PlainDirs};
use md_store::{Naming, OpenError, OpenRefused, Pass, Prepared, Store, prepare};
use std::alloc::Global;
use std::marker::Brand;
use std::process::Abort;
use std::sync::atomic::AtomicBool;
use std::sync::{Arc, Wait};
use std::thread::Threads;

// What a test does with an open store: stages of acts, or a stampede.
#[derive(Drop)]
pub enum Scene<'a> {
    Acts(&'a str),
    Stampede(&'a Stampede),
}

// A scene, the calls of its world, as rows of fixtures, the passes of its store, and how many jobs, steps and effects the world has after it.
#[derive(Drop)]
pub struct Plan<'a> {
    pub scene: Scene<'a>,
    pub calls: &'a str,
    pub passes: usize,
    pub wanted: (u64, usize, usize),
}

// Plays acts over a world of the files and calls of these rows, with so many passes. The store has to be opened, and its world to have so many
// jobs, steps and effects in the end.
pub fn plays<R: Threads + Wait + Abort + Sync>(
    rt: &R,
    alloc: Global,
    rows: &str,
    passes: usize,
    acts: &str,
    wanted: (u64, usize, usize),
) {
    assert!(rt; is_played(rt, alloc, rows, passes, acts, wanted, None));
}

// Whether the same ends so: the store is opened, or refused.
pub fn is_played<R: Threads + Wait + Abort + Sync>(
    rt: &R,
    alloc: Global,
    rows: &str,
    passes: usize,
    acts: &str,
    wanted: (u64, usize, usize),
    refusal: Option<OpenError>,
) -> bool {
    let plan = Plan {
        scene: Scene::Acts(acts),
        calls: rows,
        passes,
        wanted,
    };
    match files(alloc, rows) {
        Ok(image) => stage(rt, alloc, &plan, image) == Some(refusal),
        Err(_) => false,
    }
}

// Plays a plan over a world of these files, whose gate is open. The refusal of the store, if it wasn't opened. None where there was no memory.
pub fn stage<R: Threads + Wait + Abort + Sync>(
    rt: &R,
    alloc: Global,
    plan: &Plan<'_>,
    image: Vec<ImageFile>,
) -> Option<Option<OpenError>> {
    let gate = Gate {
        reached: AtomicBool::new(false),
        go: AtomicBool::new(true),
    };
    match Arc::new(alloc, gate) {
        Ok(gate) => match world(alloc, plan, image, &gate) {
            Some(world) => Some(play(rt, alloc, world, &gate, plan)),
            None => None,
        },
        Err(_) => None,
    }
}

// A world of two folders and these files, in which the calls of a plan are submitted.
fn world(
    alloc: Global,
    plan: &Plan<'_>,
    image: Vec<ImageFile>,
    gate: &Arc<Gate>,
) -> Option<World<Gated>>
    ensures { IfSome result (λ w. IsFresh w) }
{
    let mut world = loaded(alloc, image, gate)?;
    if are_submitted(alloc, &mut world, plan.calls) {
        Some(world)
    } else {
        None
    }
}

fn loaded(alloc: Global, image: Vec<ImageFile>, gate: &Arc<Gate>) -> Option<World<Gated>>
    ensures { IfSome result (λ w. IsFresh w) }
{
    match PlainDirs::from_image(alloc, 2, image) {
        Ok(dirs) => {
            let gate = Arc::try_clone(gate).ok()?;
            World::load(alloc, Hooked::over(dirs, Keeper { gate })).ok()
        }
        Err(_) => None,
    }
}

// Whether the calls of these rows, between bars, are submitted; the other rows are files.
fn are_submitted(alloc: Global, world: &mut World<Gated>, rows: &str) -> bool
    requires { IsFresh world.old }
    ensures { IsFresh world.new }
{
    for row in rows.split('|') {
        if !row.is_empty() && !is_file(row) && !is_submitted(alloc, world, row) {
            return false;
        }
    }
    true
}

fn is_submitted(alloc: Global, world: &mut World<Gated>, row: &str) -> bool
    requires { IsFresh world.old }
    ensures { IsFresh world.new }
{
    match call(alloc, 0, row) {
        Ok(call) => world.submit(call).is_ok(),
        Err(_) => false,
    }
}

// Opens a store of a world, plays a scene there, and closes it; or says why it wasn't opened.
fn play<R: Threads + Wait + Abort + Sync>(
    rt: &R,
    alloc: Global,
    world: World<Gated>,
    gate: &Gate,
    plan: &Plan<'_>,
) -> Option<OpenError>
    requires { IsFresh world }
{
    match prepare(world, plan.passes) {
        Ok(prepared) => play_in::<Brand, R>(rt, alloc, prepared, gate, plan),
        Err(refused) => refuse(rt, alloc, refused, plan),
    }
}

fn play_in<J: Naming + Send + Sync, R: Threads + Wait + Abort + Sync>(
    rt: &R,
    alloc: Global,
    prepared: Prepared<Gated>,
    gate: &Gate,
    plan: &Plan<'_>,
) -> Option<OpenError>
    requires begun { prepared.run ≡ J.begun }
    requires named { (named_of prepared.run.image ≡ J.opening) × (prepared.book ≡ J.book) }
{
    match prepared.open::<J, R>(rt, alloc) {
        Ok((store, mut passes)) => {
            play_scene(rt, alloc, &store, &mut passes, gate, plan);
            look_at(rt, alloc, &store.close(rt), plan);
            None
        }
        Err(refused) => refuse(rt, alloc, refused, plan),
    }
}

// Plays a scene, where there are as many passes as it wants.
fn play_scene<J: Naming + Send + Sync, R: Threads + Wait + Abort + Sync>(
    rt: &R,
    alloc: Global,
    store: &Store<Gated, J>,
    passes: &mut Vec<Pass<J>>,
    gate: &Gate,
    plan: &Plan<'_>,
) {
    assert!(rt; passes.len() == plan.passes);
    match plan.scene {
        Scene::Acts(stages) => play_stages(rt, alloc, store, passes, gate, stages),
        Scene::Stampede(stampede) => {
            assert!(rt; run_all(rt, alloc, stampede, store, passes) > 500)
        }
    }
}

fn refuse<R: Wait + Abort>(
    rt: &R,
    alloc: Global,
    refused: OpenRefused<Gated>,
    plan: &Plan<'_>,
) -> Option<OpenError> {
    look_at(rt, alloc, &refused.world, plan);
    Some(refused.error)
}

// Looks whether a world after a scene has the jobs, steps and effects that are wanted, or that of a stampede is as its passes saw it.
fn look_at<R: Wait + Abort>(rt: &R, alloc: Global, world: &World<Gated>, plan: &Plan<'_>) {
    match plan.scene {
        Scene::Acts(_) => {
            assert!(rt; (world.jobs(), world.log().len(), world.effects().len()) == plan.wanted)
        }
        Scene::Stampede(stampede) => assert!(rt; are_beginnings(rt, alloc, stampede, world)),
    }
}
