// Sixteen threads of mixed calls over a thousand messages, with listings between them. At the end the log says of each listing that it
// showed two beginnings of the log, those that its pass held as it read new and then cur, and no earlier than those of the listing before nor
// than the effect that its pass was told of last. So no two passes saw the effects in different orders.
use super::fixtures::{call, file, finish};
use md_core::{Call, Change, Effect, World};
use md_dirs::{Dirs, ImageFile, Place};
use md_store::{FirstReading, Naming, News, Pass, Store};
use md_view::{Entry, list};
use std::alloc::{AllocError, Global};
use std::sync::atomic::{AtomicU64, Ordering};
use std::sync::{Mutex, MutexGuard, Wait};
use std::thread;
use std::thread::Threads;

pub const THREADS: usize = 16;

const MESSAGES: u64 = 1000;

/// A listing is made after so many calls.
const CALLS_A_LISTING: u64 = 8;

/// What calls do, and the letter of the names that they do it to: a delivery of a name of its own, and all others to any of the messages that
/// were there first. The rows are as likely as each other.
const KINDS: &str =
    "deliver d|deliver d|deliver d|seen m|seen m|seen m|flag m|flag m|flag m|unflag m|unflag m|move m|move m|copy m|\
expunge m|clean m";

// What a listing showed, as sums over the names of new and of cur; how many effects its pass held as it read new and as it read cur; how many
// at the end of the listing before, and the last job of which it was told before this one.
#[derive(Drop)]
struct Reading {
    folder: u32,
    before: u64,
    told: u64,
    at_new: u64,
    new: u64,
    at_cur: u64,
    cur: u64,
}

// The sums of new and cur of two folders.
type Sums = [u64; 4];

fn sum_number(folder: u32, place: Place) -> usize {
    (folder as usize)
        .wrapping_mul(2)
        .wrapping_add(usize::from(place == Place::Cur))
}

fn hash(name: &[u8]) -> u64 {
    let mut hash = 0xcbf2_9ce4_8422_2325u64;
    for byte in name {
        hash = (hash ^ u64::from(*byte)).wrapping_mul(0x100_0000_01b3);
    }
    hash
}

fn add(sums: &mut Sums, folder: u32, place: Place, amount: u64) {
    if let Some(sum) = sums.get_mut(sum_number(folder, place)) {
        *sum = sum.wrapping_add(amount);
    }
}

fn change(sums: &mut Sums, change: &Change) {
    match change {
        Change::Add {
            folder,
            place,
            name,
            size: _,
        } => add(sums, *folder, *place, hash(name.as_slice())),
        Change::Rename {
            folder,
            place,
            name,
            to_folder,
            to_place,
            to_name,
        } => {
            add(sums, *folder, *place, hash(name.as_slice()).wrapping_neg());
            add(sums, *to_folder, *to_place, hash(to_name.as_slice()));
        }
        Change::Remove {
            folder,
            place,
            name,
        } => add(sums, *folder, *place, hash(name.as_slice()).wrapping_neg()),
        Change::Same => {}
    }
}

// The sum of those entries that are in a place.
fn sum(entries: &[Entry], place: Place) -> u64 {
    let mut sum = 0u64;
    for entry in entries {
        if entry.place == place {
            sum = sum.wrapping_add(hash(entry.name.as_slice()));
        }
    }
    sum
}

// A number that looks like any other, from this one.
fn scattered(number: u64) -> u64 {
    let mixed = number.wrapping_add(1).wrapping_mul(0x9e37_79b9_7f4a_7c15);
    (mixed ^ (mixed >> 29)).wrapping_mul(0xbf58_476d_1ce4_e5b9) >> 20
}

// The call of a number: of eight kinds, each over either folder.
fn numbered(alloc: Global, number: u64) -> Result<Call, AllocError> {
    let any = scattered(number);
    let kind = KINDS
        .split('|')
        .nth(((any / 2) % 16) as usize)
        .unwrap_or("clean m");
    let named = if kind == "deliver d" {
        number
    } else {
        (any / 64) % MESSAGES
    };
    let row = format!(in alloc; "{kind}{named} T c{number}")?;
    call(alloc, (any % 2) as u32, &row)
}

// Submits a call and steps it to its answer. The job, where its effect was told.
fn make<D: Dirs, J: Naming, R: Wait>(
    rt: &R,
    alloc: Global,
    store: &Store<D, J>,
    pass: &mut Pass<J>,
    number: u64,
) -> Option<u64> {
    let call = numbered(alloc, number).ok()?;
    let job = store.submit(rt, call).ok()?;
    match finish(rt, store, pass, job) {
        (Some(_), News::Told) => Some(job),
        _ => None,
    }
}

// Lists the second half of a folder. What both showed.
fn read_on<D: Dirs, J: Naming>(
    alloc: Global,
    store: &Store<D, J>,
    pass: &mut Pass<J>,
    first: &FirstReading<J>,
    before: u64,
    told: u64,
) -> Option<Reading> {
    let at_new = pass.len();
    match store.second(alloc, pass, first) {
        Ok(entries) => Some(Reading {
            folder: first.folder(),
            before,
            told,
            at_new,
            new: sum(first.entries(), Place::New),
            at_cur: pass.len(),
            cur: sum(&entries, Place::Cur),
        }),
        Err(_) => None,
    }
}

// The threads' listings, and the sums of the opening names.
#[derive(Drop)]
pub struct Stampede {
    seed: u64,
    calls: u64,
    opening: Sums,
    readings: Mutex<Vec<Reading>>,
}

impl Stampede {
    // Keeps what a listing showed. How many effects its pass held then.
    fn keep<R: Wait>(&self, rt: &R, reading: Reading) -> u64 {
        let held = reading.at_cur;
        let mut readings = self.readings.lock(rt);
        let _ = readings.push(reading);
        MutexGuard::unlock(readings);
        held
    }

    // Lists a folder in two halves, and keeps what they showed. How many effects the pass held then.
    fn look<D: Dirs, J: Naming, R: Wait>(
        &self,
        rt: &R,
        alloc: Global,
        store: &Store<D, J>,
        pass: &mut Pass<J>,
        folder: u32,
        before: u64,
        told: u64,
    ) -> u64 {
        match store.first(alloc, pass, folder) {
            Ok(first) => match read_on(alloc, store, pass, &first, before, told) {
                Some(reading) => self.keep(rt, reading),
                None => before,
            },
            Err(_) => before,
        }
    }

    // The calls of one thread, and its listings. How many of its effects were told.
    fn run<D: Dirs, J: Naming, R: Wait>(
        &self,
        rt: &R,
        alloc: Global,
        store: &Store<D, J>,
        pass: &mut Pass<J>,
        thread: usize,
    ) -> u64 {
        let mut told = 0;
        let mut before = 0;
        let mut effects = 0u64;
        let seed = self.seed.wrapping_add(thread as u64);
        for turn in 0..self.calls {
            let number = seed.wrapping_mul(self.calls).wrapping_add(turn);
            if let Some(job) = make(rt, alloc, store, pass, number) {
                told = job;
                effects = effects.wrapping_add(1);
            }
            if turn % CALLS_A_LISTING == 0 {
                let folder = (turn / CALLS_A_LISTING % 2) as u32;
                before = self.look(rt, alloc, store, pass, folder, before, told);
            }
        }
        effects
    }
}

// Runs all threads. How many effects were told.
pub fn run_all<D: Dirs + Send + Sync, J: Naming + Send + Sync, R: Threads + Wait + Sync>(
    rt: &R,
    alloc: Global,
    stampede: &Stampede,
    store: &Store<D, J>,
    passes: &mut [Pass<J>],
) -> u64 {
    let effects = AtomicU64::new(0);
    thread::for_each_mut(
        rt,
        passes,
        THREADS,
        &|thread, pass| {
            let told = stampede.run(rt, alloc, store, pass, thread);
            effects.fetch_add(told, Ordering::SeqCst);
        },
    );
    effects.load(Ordering::SeqCst)
}

// The sums at each beginning of the log.
fn beginnings(alloc: Global, opening: Sums, effects: &[Effect]) -> Result<Vec<Sums>, AllocError> {
    let mut sums = opening;
    let mut all = Vec::new(alloc);
    all.push(sums)?;
    for effect in effects {
        change(&mut sums, &effect.change);
        all.push(sums)?;
    }
    Ok(all)
}

// How many effects the first beginning with the effect of a job has.
fn with_effect(effects: &[Effect], job: u64) -> u64 {
    let mut count = 0u64;
    for effect in effects {
        count = count.wrapping_add(1);
        if effect.job == job {
            return count;
        }
    }
    0
}

// Whether the beginning of so many effects has this sum.
fn has_sum(beginnings: &[Sums], effects: u64, number: usize, wanted: u64) -> bool {
    match beginnings.get(effects as usize) {
        Some(sums) => sums.get(number) == Some(&wanted),
        None => false,
    }
}

// Whether a listing showed a beginning that was late enough, and one no earlier than that.
fn is_shown(beginnings: &[Sums], effects: &[Effect], reading: &Reading) -> bool {
    let new = sum_number(reading.folder, Place::New);
    let cur = sum_number(reading.folder, Place::Cur);
    reading.before <= reading.at_new
        && with_effect(effects, reading.told) <= reading.at_new
        && reading.at_new <= reading.at_cur
        && has_sum(beginnings, reading.at_new, new, reading.new)
        && has_sum(beginnings, reading.at_cur, cur, reading.cur)
}

// Whether all listings showed such beginnings.
fn are_shown(beginnings: &[Sums], effects: &[Effect], readings: &[Reading]) -> bool {
    for reading in readings {
        if !is_shown(beginnings, effects, reading) {
            return false;
        }
    }
    !readings.is_empty()
}

// Whether a folder of a world has the names of these sums.
fn has_names<D: Dirs>(alloc: Global, world: &World<D>, folder: u32, sums: &[Sums]) -> bool {
    match list(alloc, world, folder) {
        Ok(entries) => {
            let last = sums.len().wrapping_sub(1) as u64;
            let new = sum_number(folder, Place::New);
            let cur = sum_number(folder, Place::Cur);
            has_sum(sums, last, new, sum(&entries, Place::New))
                && has_sum(sums, last, cur, sum(&entries, Place::Cur))
        }
        Err(_) => false,
    }
}

// Whether each pass saw ever later beginnings of the log of a world, and the log leads to its names.
pub fn are_beginnings<D: Dirs, R: Wait>(
    rt: &R,
    alloc: Global,
    stampede: &Stampede,
    world: &World<D>,
) -> bool {
    match beginnings(alloc, stampede.opening, world.effects()) {
        Ok(all) => {
            let readings = stampede.readings.lock(rt);
            let are = are_shown(&all, world.effects(), &readings);
            MutexGuard::unlock(readings);
            are && has_names(alloc, world, 0, &all) && has_names(alloc, world, 1, &all)
        }
        Err(_) => false,
    }
}

// A thousand messages of two folders, half of them in new.
pub fn image(alloc: Global) -> Result<Vec<ImageFile>, AllocError> {
    let mut image = Vec::new(alloc);
    for number in 0..MESSAGES {
        let (place, info) = if number % 4 < 2 {
            ("new", "")
        } else {
            ("cur", ":2,")
        };
        let row = format!(in alloc; "{place} m{number}{info}")?;
        image.push(file(alloc, (number % 2) as u32, &row)?)?;
    }
    Ok(image)
}

impl Stampede {
    // A stampede of 16 threads with so many calls each. Others have the seeds at a distance of 16.
    pub fn new(alloc: Global, image: &[ImageFile], seed: u64, calls: u64) -> Stampede {
        let mut opening = [0; 4];
        for file in image {
            let path = &file.path;
            add(
                &mut opening,
                path.folder,
                path.place,
                hash(path.name.as_slice()),
            );
        }
        Stampede {
            seed,
            calls,
            opening,
            readings: Mutex::new(Vec::new(alloc)),
        }
    }
}
