// Plays acts over an open store. Stages follow one another, with `%` between them. The acts of a stage, between bars, are played by a thread
// for each pass, all at once: each begins with the number of its pass, and a thread plays those of its own in their order.
use super::acts::{On, act};
use super::fixtures::{cut, number};
use super::gated::{Gate, Gated};
use md_store::{FirstReading, Naming, Pass, Store};
use std::alloc::Global;
use std::process::Abort;
use std::sync::Wait;
use std::sync::atomic::{AtomicU64, Ordering};
use std::thread;
use std::thread::Threads;

// Plays those acts of a stage that are a pass's.
fn play_own<J: Naming, R: Wait + Abort>(
    rt: &R,
    on: &On<'_, J>,
    pass: &mut Pass<J>,
    own: usize,
    stage: &str,
) {
    for row in stage.split('|') {
        let (player, words) = cut(row);
        if number(player) as usize == own {
            assert!(rt; act(rt, on, pass, words), "{row}");
        }
    }
}

// Each pass in a thread of its own.
fn play_at_once<'a, J: Naming + Send + Sync, R: Threads + Wait + Abort + Sync>(
    rt: &R,
    alloc: Global,
    store: &'a Store<Gated, J>,
    passes: &mut [Pass<J>],
    gate: &'a Gate,
    given: &'a AtomicU64,
    half: Option<&'a FirstReading<J>>,
    stage: &str,
) {
    let on = On {
        alloc,
        store,
        gate,
        given,
        half,
    };
    let threads = passes.len().max(1);
    thread::for_each_mut(
        rt,
        passes,
        threads,
        &|own, pass| play_own(rt, &on, pass, own, stage),
    );
}

// What one of two passes holds of the other's, or learns from it.
fn compare<J: Naming>(passes: &mut [Pass<J>], words: &str) -> bool {
    if passes.len() != 2 {
        return false;
    }
    let (ones, twos) = passes.split_at_mut(1);
    let one = &mut ones[0];
    let two = &mut twos[0];
    match words {
        "0 begins 1" => one.begins(two),
        "1 begins 0" => two.begins(one),
        "0 is longer" => !one.begins(two),
        "1 learns" => {
            two.learn_from(one);
            true
        }
        _ => false,
    }
}

// A pass reads new of folder 0: the first half of a listing.
fn first<J: Naming>(
    alloc: Global,
    store: &Store<Gated, J>,
    passes: &mut [Pass<J>],
    player: &str,
) -> Option<FirstReading<J>> {
    match passes.get_mut(number(player) as usize) {
        Some(pass) => store.first(alloc, pass, 0).ok(),
        None => None,
    }
}

// Plays the stages. A stage is `both` and what two passes are to each other; `first` and the pass that reads, for all stages after it; `given`
// and how many answers of calls the threads were given; `drop`, which drops the last pass; or acts.
pub fn play_stages<J: Naming + Send + Sync, R: Threads + Wait + Abort + Sync>(
    rt: &R,
    alloc: Global,
    store: &Store<Gated, J>,
    passes: &mut Vec<Pass<J>>,
    gate: &Gate,
    stages: &str,
) {
    let given = AtomicU64::new(0);
    let mut half = None;
    for stage in stages.split('%') {
        match cut(stage) {
            ("both", words) => assert!(rt; compare(passes, words), "{stage}"),
            ("first", player) => half = first(alloc, store, passes, player),
            ("given", count) => assert!(rt;
                given.load(Ordering::SeqCst) == number(count),
                "{stage}"
            ),
            ("drop", _) => drop(passes.pop()),
            _ => play_at_once(
                rt,
                alloc,
                &*store,
                passes,
                &*gate,
                &given,
                half.as_ref(),
                stage,
            ),
        }
    }
}
