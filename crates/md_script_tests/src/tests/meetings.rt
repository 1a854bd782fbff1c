//! A gate that sees what the workers do, and has items wait for others.
//!
//! One allocation may be refused anywhere. So each test goes over rounds, of which one refusal spoils no more than one.

use super::messages::{MOST, is_plain};
use md_index::{Gate, IndexError, OpenGate};
use std::alloc::Global;
use std::sync::Wait;
use std::sync::atomic::{AtomicU64, Ordering};
use std::thread;
use std::thread::Threads;

const ROUNDS: usize = 10;

// The items that passed one side of the gate.
#[derive(Drop)]
struct Passed {
    calls: AtomicU64,
    // A bit for each item.
    items: [AtomicU64; 2],
}

impl Passed {
    fn none() -> Self {
        Passed {
            calls: AtomicU64::new(0),
            items: [AtomicU64::new(0), AtomicU64::new(0)],
        }
    }

    fn note(&self, item: usize) {
        if let Some(items) = self.items.get(item / 64) {
            items.fetch_or(1 << (item % 64), Ordering::SeqCst);
        }
        self.calls.fetch_add(1, Ordering::SeqCst);
    }

    fn calls(&self) -> u64 {
        self.calls.load(Ordering::SeqCst)
    }

    // How many items passed, however often.
    fn items(&self) -> u32 {
        let low = self.items[0].load(Ordering::SeqCst).count_ones();
        low + self.items[1].load(Ordering::SeqCst).count_ones()
    }

    // Whether so many items passed, each once.
    fn is_each_once(&self, count: usize) -> bool {
        self.calls() == count as u64 && self.items() as usize == count
    }
}

// Which items wait before their entries are made.
#[derive(Clone, Copy)]
enum Waits {
    /// The first two, each until the other has come.
    Pair,
    /// The first, until all others are done.
    First,
    None,
}

#[derive(Drop)]
struct Watched {
    waits: Waits,
    before: Passed,
    after: Passed,
    // How often an item waited in vain.
    limits: AtomicU64,
}

impl Watched {
    fn new(waits: Waits) -> Self {
        Watched {
            waits,
            before: Passed::none(),
            after: Passed::none(),
            limits: AtomicU64::new(0),
        }
    }

    fn is_held(&self, item: usize) -> bool {
        match self.waits {
            Waits::Pair => item < 2 && self.before.items() < 2,
            Waits::First => item == 0 && self.after.calls() < MOST as u64 - 1,
            Waits::None => false,
        }
    }

    // Whether so many items passed, each once, and none waited in vain.
    fn is_right(&self, count: usize) -> bool {
        self.before.is_each_once(count)
            && self.after.is_each_once(count)
            && self.limits.load(Ordering::SeqCst) == 0
    }
}

impl Gate for Watched {
    fn before(&self, item: usize) {
        self.before.note(item);
        for _ in 0..20_000_000 {
            if !self.is_held(item) {
                return;
            }
            thread::yield_now();
        }
        self.limits.fetch_add(1, Ordering::SeqCst);
    }

    fn after(&self, item: usize) {
        self.after.note(item);
    }
}

// Makes an index at a gate where items wait. None where the round is spoiled.
fn play<R: Threads + Wait + Sync>(
    rt: &R,
    alloc: Global,
    waits: Waits,
    count: usize,
    workers: usize,
) -> Option<bool> {
    let gate = Watched::new(waits);
    match is_plain(rt, alloc, count, workers, &gate) {
        Ok(is_plain) => (!is_plain || gate.is_right(count)).then_some(is_plain),
        Err(refused) => (refused != IndexError::NoMemory).then_some(false),
    }
}

// Whether each round is right, but for one that may be spoiled.
fn are_right<R: Threads + Wait + Sync>(
    rt: &R,
    alloc: Global,
    waits: Waits,
    count: usize,
    workers: usize,
) -> bool {
    let mut spoiled = 0u32;
    for _ in 0..ROUNDS {
        match play(rt, alloc, waits, count, workers) {
            Some(true) => {}
            Some(false) => return false,
            None => spoiled = spoiled.saturating_add(1),
        }
    }
    spoiled <= 1
}

#[test]
fn two_items_wait_for_each_other(rt: HostRuntime) {
    assert!(rt; are_right(&rt, rt.alloc(), Waits::Pair, 2, 2));
}

#[test]
fn items_go_to_whichever_worker_is_free(rt: HostRuntime) {
    assert!(rt; are_right(&rt, rt.alloc(), Waits::First, MOST, 2));
}

#[test]
fn each_item_passes_the_gate_once(rt: HostRuntime) {
    assert!(rt; are_right(&rt, rt.alloc(), Waits::None, MOST, 7));
}

// Whether so many workers are refused.
fn is_refused<R: Threads + Wait + Sync>(rt: &R, alloc: Global, workers: usize) -> bool {
    match is_plain(rt, alloc, 1, workers, &OpenGate) {
        Ok(_) => false,
        Err(refused) => refused == IndexError::BadWorkers,
    }
}

#[test]
fn refuses_bad_numbers_of_workers(rt: HostRuntime) {
    assert!(rt;
        is_refused(&rt, rt.alloc(), 0)
            && is_refused(&rt, rt.alloc(), 65)
            && is_refused(&rt, rt.alloc(), usize::MAX)
    );
}
