//! How a program calls the libraries: one module for each use, in the plainest code.
//!
//! The program plays the example scripts of the folder that it runs in, and judges the logs there. It shows how jobs end that are driven
//! over replies, and why a delivery to no folder is refused. Then it runs the server, by the words THREADS ROUNDS MESSAGES LISTING: in each
//! of so many rounds, each of so many threads takes in so many messages, and lists after each so many of them. It prints what was counted,
//! which is the same whatever the schedule.
#![tactic(auto)]

pub mod call;
pub mod deliver;
mod files;
pub mod head;
pub mod index;
pub mod judge;
pub mod locked;
pub mod name;
pub mod nowhere;
pub mod replies;
mod scripts;
pub mod server;

use anyhow::{Context, Result};
use nowhere::deliver_nowhere;
use server::{Counts, Plan, Unwatched, serve};
use std::env::Args;
use std::{env, io};

// What the words of the command line ask for.
#[derive(Clone, Copy)]
struct Asked {
    plan: Plan,
    rounds: u64,
}

// The next word, a number.
fn number(words: &mut Args) -> Result<u64> {
    let word = words.next().context("THREADS ROUNDS MESSAGES LISTING")?;
    word.parse::<u64>().context("a number")
}

fn read_words(words: &mut Args) -> Result<Asked> {
    let _program = words.next();
    let threads = number(words)? as usize;
    let rounds = number(words)?;
    let messages = number(words)?;
    let listing = number(words)?;
    let plan = Plan {
        threads,
        messages,
        listing,
    };
    Ok(Asked { plan, rounds })
}

fn main(rt: HostRuntime) -> Result<()> {
    files::show_all(&rt)?;
    replies::show_jobs(&rt)?;
    println!(rt; "nowhere: {}", deliver_nowhere(rt.alloc())?)?;
    let Asked { plan, rounds } = read_words(&mut env::args(&rt)?)?;
    let (counts, kept) = serve(&rt, rt.alloc(), plan, rounds, &Unwatched)?;
    Ok(tell(&rt, counts, kept)?)
}

fn tell(rt: &HostRuntime, counts: Counts, kept: usize) -> io::Result<()> {
    println!(rt; "delivered {}", counts.delivered)?;
    println!(rt; "seen {}", counts.seen)?;
    println!(rt; "listed {}", counts.listed)?;
    println!(rt; "kept {kept}")
}
