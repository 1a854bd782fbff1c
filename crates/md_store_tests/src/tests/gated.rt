// Directories with a gate at each link.
ghost use Rattle.std.specs.Prelude.{true};

use super::fixtures::lists;
use md_dirs::{Called, Hook, Hooked, PlainDirs};
use md_store::{Naming, Pass, Store};
use std::alloc::Global;
use std::sync::Arc;
use std::sync::atomic::{AtomicBool, Ordering};
use std::thread;

/// How often a flag is looked at, at most.
const MOST_TURNS: u32 = 10_000_000;

// A gate at each link.
#[derive(Drop)]
pub struct Gate {
    pub reached: AtomicBool,
    pub go: AtomicBool,
}

// A hook that lets each call through: at a link it says that it was reached, and waits for a while to be let go on.
#[derive(Drop)]
pub struct Keeper {
    pub gate: Arc<Gate>,
}

// Directories with a gate at each link.
pub type Gated = Hooked<PlainDirs, Keeper>;

// Whether the flag was set before the turns were over. Each turn lets other threads run: on a busy machine bare turns are over too soon.
fn is_set(flag: &AtomicBool) -> bool {
    for _ in 0..MOST_TURNS {
        if flag.load(Ordering::SeqCst) {
            return true;
        }
        thread::yield_now();
    }
    false
}

// Shuts the gate.
pub fn shuts(gate: &Gate) -> bool {
    gate.go.store(false, Ordering::SeqCst);
    true
}

// Waits until the link was reached, lists, and opens the gate. Whether it was reached, and nothing was listed.
pub fn peeks<J: Naming>(
    alloc: Global,
    store: &Store<Gated, J>,
    pass: &mut Pass<J>,
    gate: &Gate,
) -> bool {
    let was_reached = is_set(&gate.reached);
    let is_empty = lists(alloc, store, pass, 0, "") == Ok(true);
    gate.go.store(true, Ordering::SeqCst);
    was_reached && is_empty
}

impl Hook for Keeper {
    ghost stopped = { λ _. 0 };

    ghost admits = { λ _ _. true };

    ghost leaves = { λ _ _ _. Unit {0} };

    fn is_let_through(&mut self, called: Called<'_>) -> bool {
        if let Called::Link { .. } = called {
            self.gate.reached.store(true, Ordering::SeqCst);
            let _ = is_set(&self.gate.go);
        }
        true
    }
}
