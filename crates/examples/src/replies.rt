//! Jobs over replies that come from anywhere: a disk, another program, a log. Each asks for one directory call at a time, and goes on by
//! whatever is replied.
use anyhow::Result;
use md_dirs::{Bytes, FileName, Row};
use md_jobs::{Answer, Cleaning, CoreError, Delivery, DirReply, Errand, Moment, Purpose};
use md_name::Flags;
use std::alloc::Global;
use std::collections::VecDeque;

// The moment of each call, in seconds.
const NOW: Moment = Moment {
    clock: 1000,
    own: 1000,
};

/// Delivers a body in pieces of four bytes, a call for each reply, and gives the answer, if there is one by then.
pub fn deliver_over(
    alloc: Global,
    body: &[u8],
    replies: &[DirReply],
) -> Result<Option<Answer>, CoreError> {
    let unique = Bytes::copied(alloc, b"1000.M1P1Q1.host")?;
    let mut job = Delivery::new(0, unique, Bytes::copied(alloc, body)?, 4);
    let mut effects = Vec::new(alloc);
    for reply in replies {
        effects.reserve(1)?;
        let ready = job.ask(alloc, NOW)?;
        // Here a program makes the call: it creates, writes, links or unlinks what the request names.
        let _request = job.request(&ready);
        let turned = job.take(1, ready, *reply, &mut effects);
        if turned.out.answer.is_some() {
            return Ok(turned.out.answer);
        }
    }
    Ok(None)
}

/// Adds the flag F to a message, a call for each reply with the row of the message, if one was read.
pub fn flag_over(
    alloc: Global,
    heard: Vec<(DirReply, Option<Row>)>,
) -> Result<Option<Answer>, CoreError> {
    let purpose = Purpose::Flag {
        add: Flags::parse(b"F").unwrap_or(Flags::empty()),
        remove: Flags::empty(),
    };
    let mut job = Errand::new(alloc, 0, Bytes::copied(alloc, b"u")?, purpose, 2);
    let mut effects = Vec::new(alloc);
    for (reply, row) in heard {
        effects.reserve(1)?;
        let ready = job.ask(alloc)?;
        let _request = job.request(&ready);
        let turned = job.take(alloc, 1, ready, reply, row, &mut effects);
        if turned.out.answer.is_some() {
            return Ok(turned.out.answer);
        }
    }
    Ok(None)
}

/// Cleans tmp, a call for each reply with the names of old files, if they were read.
pub fn clean_over(heard: Vec<(DirReply, VecDeque<FileName>)>) -> Option<Answer> {
    let mut job = Cleaning::new(0);
    for (reply, old) in heard {
        let _request = job.request();
        let turned = job.take(reply, old);
        if turned.out.answer.is_some() {
            return turned.out.answer;
        }
    }
    None
}

// The name of the message, as a reading shows it.
fn row(alloc: Global, name: &[u8]) -> Result<Option<Row>, CoreError> {
    Ok(Some(Row {
        name: Bytes::copied(alloc, name)?,
        stamp: 0,
        size: 5,
    }))
}

// A flag that somebody else's change comes before: its name is gone, and is found again.
fn flag_late(alloc: Global) -> Result<Option<Answer>, CoreError> {
    let mut heard = Vec::new(alloc);
    heard.push((DirReply::Ok, row(alloc, b"u:2,S")?))?;
    heard.push((DirReply::NotFound, None))?;
    heard.push((DirReply::Ok, row(alloc, b"u:2,RS")?))?;
    heard.push((DirReply::Ok, None))?;
    flag_over(alloc, heard)
}

// A clean that reads two old names, of which one is gone by then.
fn clean_two(alloc: Global) -> Result<Option<Answer>, CoreError> {
    let mut old = VecDeque::new(alloc);
    old.push_back(FileName::copied(alloc, b"a")?)?;
    old.push_back(FileName::copied(alloc, b"b")?)?;
    let mut heard = Vec::new(alloc);
    heard.push((DirReply::Ok, old))?;
    heard.push((DirReply::NotFound, VecDeque::new(alloc)))?;
    heard.push((DirReply::Ok, VecDeque::new(alloc)))?;
    Ok(clean_over(heard))
}

/// Drives a job of each kind, and prints how it ended.
pub(crate) fn show_jobs(rt: &HostRuntime) -> Result<()> {
    let alloc = rt.alloc();
    // Created, written in two pieces, linked, and its name in tmp taken away.
    let answer = deliver_over(alloc, b"mail\n", &[DirReply::Ok; 5])?;
    println!(rt; "delivery over replies: {answer:?}")?;
    let refused = [DirReply::Ok, DirReply::Ok, DirReply::Fault, DirReply::Ok];
    let answer = deliver_over(alloc, b"mail\n", &refused)?;
    println!(rt; "delivery with a failed write: {answer:?}")?;
    let all = Flags::parse(b"FRS").unwrap_or(Flags::empty());
    let kept = flag_late(alloc)? == Some(Answer::Flags(all));
    println!(rt; "flag keeps what came before: {kept}")?;
    println!(rt; "clean over replies: {:?}", clean_two(alloc)?)?;
    Ok(())
}
