//! The heart of a server. In a round, threads share a store: each delivers messages, marks them seen and lists. Between two rounds the store
//! is closed, its world settles, and it is opened again: so there is no end of calls.
ghost use Rattle.std.specs.Prelude.{◌≡◌};
ghost use Rattle.md_view.specs.Named.{named_of};
ghost use Rattle.md_store.specs.Locks.{IsFresh};

use crate::call::go_on;
use crate::deliver::{delivery, new_world};
use crate::name::is_seen;
use anyhow::Result;
use md_core::{Answer, Call, World};
use md_dirs::{Bytes, IndexDirs};
use md_name::{Flags, UniqueParts, make_unique};
use md_store::{Naming, Pass, Prepared, Store, prepare};
use md_view::{Entry, list};
use std::alloc::{AllocError, Global};
use std::marker::Brand;
use std::sync::Wait;
use std::thread;
use std::thread::Threads;

const MAIL: &[u8] = b"From: a@example.org\r\nSubject: hello\r\n\r\nHello.\r\n";

// The second of the store's clock.
const NOW: u64 = 1000;

/// How many threads there are, how many messages each takes in, and after how many of them it lists.
#[derive(Clone, Copy)]
pub struct Plan {
    pub threads: usize,
    pub messages: u64,
    pub listing: u64,
}

/// How many messages were delivered, how many were marked seen, and how many listings showed the message before them, seen.
#[derive(Clone, Copy)]
pub struct Counts {
    pub delivered: u64,
    pub seen: u64,
    pub listed: u64,
}

impl Counts {
    /// Nothing yet.
    pub fn none() -> Counts {
        Counts {
            delivered: 0,
            seen: 0,
            listed: 0,
        }
    }

    /// Both together.
    pub fn and(self, other: Counts) -> Counts {
        Counts {
            delivered: self.delivered.saturating_add(other.delivered),
            seen: self.seen.saturating_add(other.seen),
            listed: self.listed.saturating_add(other.listed),
        }
    }
}

/// What a caller does as a store was opened, and as it is to be closed: between the two there are calls, and between two rounds a pause.
pub trait Watch {
    /// Called in each round before its calls.
    fn opened(&self);

    /// Called in each round after its calls.
    fn closing(&self);
}

/// Nothing is done.
#[derive(Clone, Copy)]
pub struct Unwatched;

impl Watch for Unwatched {
    fn opened(&self) {}

    fn closing(&self) {}
}

// A thread's number, from 0, and its pass.
#[derive(Drop)]
struct Session<J: Naming> {
    number: u64,
    pass: Pass<J>,
}

impl<J: Naming> Session<J> {
    // Takes in the messages of a thread in a round, and lists between them.
    fn run<R: Wait>(
        &mut self,
        rt: &R,
        alloc: Global,
        store: &Store<IndexDirs, J>,
        plan: Plan,
        round: u64,
    ) -> Result<Counts> {
        let mut counts = Counts::none();
        for count in 0..plan.messages {
            let unique = unique_name(alloc, round, self.number, count)?;
            let lists = count.checked_rem(plan.listing) == Some(0);
            counts = counts.and(self.take_turn(rt, alloc, store, &unique, lists)?);
        }
        Ok(counts)
    }

    // Takes in a message, and lists after it where it is time to.
    fn take_turn<R: Wait>(
        &mut self,
        rt: &R,
        alloc: Global,
        store: &Store<IndexDirs, J>,
        unique: &[u8],
        lists: bool,
    ) -> Result<Counts> {
        let counts = self.take_in(rt, alloc, store, unique)?;
        if !lists {
            return Ok(counts);
        }
        Ok(counts.and(self.look(alloc, store, unique)?))
    }

    // Delivers a message, and marks it seen.
    fn take_in<R: Wait>(
        &mut self,
        rt: &R,
        alloc: Global,
        store: &Store<IndexDirs, J>,
        unique: &[u8],
    ) -> Result<Counts> {
        let call = delivery(alloc, unique, MAIL)?;
        let delivered = store.call(rt, &mut self.pass, call, NOW, None)?;
        let marking = marking(alloc, unique)?;
        let marked = store.call(rt, &mut self.pass, marking, NOW, None)?;
        Ok(Counts {
            delivered: u64::from(delivered == Answer::Delivered),
            seen: u64::from(matches!(marked, Answer::Flags(_))),
            listed: 0,
        })
    }

    // Lists, and looks for a message there.
    fn look(
        &mut self,
        alloc: Global,
        store: &Store<IndexDirs, J>,
        unique: &[u8],
    ) -> Result<Counts> {
        let entries = store.list(alloc, &mut self.pass, 0)?;
        let listed = u64::from(shows_seen(&entries, unique));
        Ok(Counts {
            delivered: 0,
            seen: 0,
            listed,
        })
    }
}

// The call that marks a message seen.
fn marking(alloc: Global, unique: &[u8]) -> Result<Call> {
    let flags = Flags::parse(b"S")?;
    Ok(Call::Seen {
        folder: 0,
        unique: Bytes::copied(alloc, unique)?,
        flags,
        tries: 16,
    })
}

// Whether a listing shows a message of this unique name, marked seen.
fn shows_seen(entries: &[Entry], unique: &[u8]) -> bool {
    let found = entries
        .iter()
        .find(|entry| entry.unique.as_slice() == unique);
    found.is_some_and(|entry| is_seen(entry.name.as_slice()))
}

// The unique name of the message that a thread takes in after so many others of a round.
fn unique_name(alloc: Global, round: u64, thread: u64, count: u64) -> Result<Vec<u8>> {
    let parts = UniqueParts {
        sec: NOW.saturating_add(round),
        micro: 5,
        pid: thread,
        count,
        host: b"mx.example.org",
    };
    Ok(make_unique(alloc, parts)?)
}

/// Serves so many rounds over a new store of one folder. What the threads did, and how many messages the folder shows at the end.
pub fn serve<W: Watch, R: Threads + Wait + Sync>(
    rt: &R,
    alloc: Global,
    plan: Plan,
    rounds: u64,
    watch: &W,
) -> Result<(Counts, usize)> {
    let mut world = new_world(alloc)?;
    let mut counts = Counts::none();
    for number in 0..rounds {
        let (left, counted) = round(rt, alloc, world, plan, number, watch)?;
        counts = counts.and(counted);
        world = go_on(left)?;
    }
    let kept = shown(alloc, &world);
    drop(world);
    Ok((counts, kept?))
}

// How many messages the folder shows.
fn shown(alloc: Global, world: &World<IndexDirs>) -> Result<usize> {
    Ok(list(alloc, world, 0)?.len())
}

// One round: opens a store of a world, lets the threads take in their messages, and closes it.
fn round<W: Watch, R: Threads + Wait + Sync>(
    rt: &R,
    alloc: Global,
    world: World<IndexDirs>,
    plan: Plan,
    round: u64,
    watch: &W,
) -> Result<(World<IndexDirs>, Counts)>
    requires { IsFresh world }
{
    match prepare(world, plan.threads) {
        Ok(prepared) => round_in::<Brand, W, R>(rt, alloc, prepared, plan, round, watch),
        Err(refused) => Err(refused.error.into()),
    }
}

fn round_in<J: Naming + Send + Sync, W: Watch, R: Threads + Wait + Sync>(
    rt: &R,
    alloc: Global,
    prepared: Prepared<IndexDirs>,
    plan: Plan,
    round: u64,
    watch: &W,
) -> Result<(World<IndexDirs>, Counts)>
    requires begun { prepared.run ≡ J.begun }
    requires named { (named_of prepared.run.image ≡ J.opening) × (prepared.book ≡ J.book) }
{
    let opened = prepared.open::<J, R>(rt, alloc);
    let (store, passes) = opened.map_err(|refused| refused.error)?;
    watch.opened();
    let counts = by_threads(rt, alloc, &store, passes, plan, round);
    watch.closing();
    let world = store.close(rt);
    Ok((world, counts?))
}

// Each pass in a thread of its own.
fn by_threads<J: Naming + Send + Sync, R: Threads + Wait + Sync>(
    rt: &R,
    alloc: Global,
    store: &Store<IndexDirs, J>,
    passes: Vec<Pass<J>>,
    plan: Plan,
    round: u64,
) -> Result<Counts> {
    let sessions = sessions(alloc, passes)?;
    let run = |mut session: Session<J>| session.run(rt, alloc, store, plan, round);
    sum(thread::map_vec(rt, sessions, &run)?)
}

// Passes with the numbers of their threads.
fn sessions<J: Naming>(alloc: Global, passes: Vec<Pass<J>>) -> Result<Vec<Session<J>>, AllocError> {
    let numbered = passes.into_iter().enumerate();
    numbered
        .map(|(number, pass)| Session {
            number: number as u64,
            pass,
        })
        .collect(alloc)
}

// What all threads did together.
fn sum(counted: Vec<Result<Counts>>) -> Result<Counts> {
    let mut counts = Counts::none();
    for one in counted {
        counts = counts.and(one?);
    }
    Ok(counts)
}
