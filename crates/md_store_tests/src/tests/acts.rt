// The acts of a test, each of a word for what is done, its operands, and what is to come of it.
use super::fixtures::{call, cut, finish, flags, lists, number, shows_all, step};
use super::gated::{Gate, Gated, peeks, shuts};
use super::locked::act_locked;
use md_core::{Answer, Call, CoreError, JobId, SubmitRefused};
use md_store::{CallError, FirstReading, ListError, Naming, News, Pass, Store, StoreError};
use std::alloc::Global;
use std::sync::Wait;
use std::sync::atomic::{AtomicU64, Ordering};
use std::thread;

/// How often a job is looked for, at most.
const MOST_TURNS: u32 = 10_000_000;

// What acts are made on: a store, its gate, the first half of a listing, and how many answers of calls were given so far.
#[derive(Drop)]
pub struct On<'a, J: Naming> {
    pub alloc: Global,
    pub store: &'a Store<Gated, J>,
    pub gate: &'a Gate,
    pub given: &'a AtomicU64,
    pub half: Option<&'a FirstReading<J>>,
}

// The answer that a word stands for, which are letters where it is one of flags.
fn answer(word: &str) -> Answer {
    match word {
        "delivered" => Answer::Delivered,
        "expunged" => Answer::Expunged,
        "copied" => Answer::Copied,
        "gone" => Answer::NotThere,
        letters => Answer::Flags(flags(letters)),
    }
}

// The word for what came of a step.
fn word_of(stepped: Result<News, CoreError>) -> &'static str {
    match stepped {
        Ok(News::NoEffect) => "silent",
        Ok(News::Told) => "told",
        Ok(News::Later) => "later",
        Err(CoreError::Answered) => "answered",
        Err(CoreError::NoJob) => "no-job",
        Err(_) => "refused",
    }
}

// Makes a step of a job, once more where it found no memory.
fn step_again<J: Naming, R: Wait>(
    rt: &R,
    store: &Store<Gated, J>,
    pass: &mut Pass<J>,
    job: JobId,
) -> Result<News, CoreError> {
    match step(rt, store, pass, job) {
        Err(CoreError::NoMemory) => step(rt, store, pass, job),
        made => made,
    }
}

// Whether a step has an effect, which its pass is told of at once, or later.
fn renames<J: Naming, R: Wait>(
    rt: &R,
    store: &Store<Gated, J>,
    pass: &mut Pass<J>,
    job: JobId,
) -> bool {
    matches!(
        step_again(rt, store, pass, job),
        Ok(News::Told) | Ok(News::Later)
    )
}

// Steps a job to its answer. Whether it is this one, and the news of its last effect this.
fn ends<J: Naming, R: Wait>(
    rt: &R,
    store: &Store<Gated, J>,
    pass: &mut Pass<J>,
    job: JobId,
    wanted: &str,
) -> bool {
    let (word, news) = cut(wanted);
    let (answered, told) = finish(rt, store, pass, job);
    answered == Some(answer(word)) && word_of(Ok(told)) == news
}

// The same as `lists`, once more where there was no memory.
fn lists_again<J: Naming>(on: &On<'_, J>, pass: &mut Pass<J>, names: &str) -> bool {
    match lists(on.alloc, on.store, pass, 0, names) {
        Err(ListError::NoMemory) => lists(on.alloc, on.store, pass, 0, names) == Ok(true),
        made => made == Ok(true),
    }
}

// Whether all is published, once more where there was no memory.
fn catches_up<J: Naming, R: Wait>(rt: &R, store: &Store<Gated, J>, pass: &mut Pass<J>) -> bool {
    for _ in 0..2 {
        match store.catch_up(rt, pass) {
            Ok(()) => return true,
            Err(StoreError::NoMemory) => {}
        }
    }
    false
}

// Whether the bytes of a name are read, or that there are none.
fn reads<J: Naming, R: Wait>(rt: &R, on: &On<'_, J>, name: &str, wanted: &str) -> bool {
    match on.store.read(rt, on.alloc, name.as_bytes()) {
        Ok(Some(bytes)) => bytes.as_slice() == wanted.as_bytes(),
        Ok(None) => wanted == "nothing",
        Err(_) => false,
    }
}

// Whether a call comes back that used a name again.
fn is_given_back(refused: &SubmitRefused) -> bool {
    refused.error == CoreError::NameUsed && matches!(refused.call, Call::Deliver { chunk: 4, .. })
}

// Whether a call is submitted as the job of this number, or refused and comes back.
fn submits<J: Naming, R: Wait>(rt: &R, on: &On<'_, J>, wanted: &str, row: &str) -> bool {
    match call(on.alloc, 0, row) {
        Ok(call) => match on.store.submit(rt, call) {
            Ok(job) => job == number(wanted),
            Err(refused) => wanted == "refused" && is_given_back(&refused),
        },
        Err(_) => false,
    }
}

// Whether a call came to this: it was delivered, with its answer given here, or to another thread that stepped the first job; or refused.
fn is_called(called: &Result<Answer, CallError>, given: &AtomicU64, wanted: &str) -> bool {
    match called {
        Ok(answered) => {
            given.fetch_add(1, Ordering::SeqCst);
            wanted == "delivered" && *answered == Answer::Delivered
        }
        Err(CallError::Unanswered { job }) => wanted == "delivered" && *job == 1,
        Err(CallError::Refused(refused)) => wanted == "refused" && is_given_back(refused),
        Err(_) => false,
    }
}

// Whether a call comes to this.
fn calls<J: Naming, R: Wait>(
    rt: &R,
    on: &On<'_, J>,
    pass: &mut Pass<J>,
    wanted: &str,
    row: &str,
) -> bool {
    match call(on.alloc, 0, row) {
        Ok(call) => is_called(&on.store.call(rt, pass, call, 1000, None), on.given, wanted),
        Err(_) => false,
    }
}

// Steps the first job as soon as it is there, until it has its answer. Whether it has it; the answer may be given to another thread.
fn takes<J: Naming, R: Wait>(rt: &R, on: &On<'_, J>, pass: &mut Pass<J>) -> bool {
    for _ in 0..MOST_TURNS {
        match on.store.step(rt, pass, 1, 1000, None) {
            Ok(step) => {
                if step.out.answer.is_some() {
                    on.given.fetch_add(1, Ordering::SeqCst);
                    return true;
                }
            }
            Err(CoreError::Answered) => return true,
            Err(_) => thread::yield_now(),
        }
    }
    false
}

// Calls a flag change. Where there was no memory it is called once more, or its job stepped on.
fn flag<J: Naming, R: Wait>(
    rt: &R,
    store: &Store<Gated, J>,
    pass: &mut Pass<J>,
    call: Call,
) -> Option<Answer> {
    match store.call(rt, pass, call, 1000, None) {
        Ok(answer) => Some(answer),
        Err(CallError::Refused(refused)) => store.call(rt, pass, refused.call, 1000, None).ok(),
        Err(CallError::NoMemory { job }) => finish(rt, store, pass, job).0,
        Err(CallError::Untold { job: _, answer }) => Some(answer),
        Err(CallError::Unanswered { job: _ }) => None,
    }
}

// Whether a flag change, called once more where there was no memory for the call's words, leaves these flags.
fn flags_to<J: Naming, R: Wait>(
    rt: &R,
    on: &On<'_, J>,
    pass: &mut Pass<J>,
    wanted: &str,
    row: &str,
) -> bool {
    for _ in 0..2 {
        if let Ok(call) = call(on.alloc, 0, row) {
            return flag(rt, on.store, pass, call) == Some(answer(wanted));
        }
    }
    false
}

// Ends a listing. Whether its first half showed the names before the `>`, and all of it shows those behind.
fn ends_listing<J: Naming>(on: &On<'_, J>, pass: &mut Pass<J>, names: &str) -> bool {
    let Some(first) = on.half else {
        return false;
    };
    first.is_read();
    match (
        on.store.second(on.alloc, pass, first),
        names.split_once('>'),
    ) {
        (Ok(entries), Some((before, all))) => {
            first.folder() == 0 && shows_all(first.entries(), before) && shows_all(&entries, all)
        }
        _ => false,
    }
}

// Plays an act with a pass. Whether it came to what was wanted. The acts are told apart in three functions, since the proof of one grows
// faster than its arms.
pub fn act<J: Naming, R: Wait>(rt: &R, on: &On<'_, J>, pass: &mut Pass<J>, row: &str) -> bool {
    let (verb, rest) = cut(row);
    let (word, more) = cut(rest);
    let job = number(word);
    match verb {
        "steps" => word_of(step(rt, on.store, pass, job)) == more,
        "again" => word_of(step_again(rt, on.store, pass, job)) == more,
        "renames" => renames(rt, on.store, pass, job),
        "ends" => ends(rt, on.store, pass, job, more),
        "takes" => takes(rt, on, pass),
        "catches-up" => catches_up(rt, on.store, pass),
        _ => look(rt, on, pass, verb, rest),
    }
}

// The acts that show something.
fn look<J: Naming, R: Wait>(
    rt: &R,
    on: &On<'_, J>,
    pass: &mut Pass<J>,
    verb: &str,
    rest: &str,
) -> bool {
    let (word, more) = cut(rest);
    let folder = u32::from(word == "1");
    match verb {
        "lists" => lists(on.alloc, on.store, pass, folder, more) == Ok(true),
        "lists-again" => lists_again(on, pass, rest),
        "no-folder" => { lists(on.alloc, on.store, pass, 2, "") == Err(ListError::NoFolder) }
        "second" => ends_listing(on, pass, rest),
        "holds" => pass.len() == number(word),
        "reads" => reads(rt, on, word, more),
        _ => ask(rt, on, pass, verb, rest),
    }
}

// The acts that make calls, and those that are like no others.
fn ask<J: Naming, R: Wait>(
    rt: &R,
    on: &On<'_, J>,
    pass: &mut Pass<J>,
    verb: &str,
    rest: &str,
) -> bool {
    let (word, more) = cut(rest);
    match verb {
        "submits" => submits(rt, on, word, more),
        "calls" => calls(rt, on, pass, word, more),
        "flags" => flags_to(rt, on, pass, word, more),
        "shuts" => shuts(on.gate),
        "peeks" => peeks(on.alloc, on.store, pass, on.gate),
        "locked" => act_locked(rt, on.alloc, on.store, pass),
        _ => false,
    }
}
