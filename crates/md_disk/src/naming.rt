//! Unique names of messages that this process delivers ("Using maildir format").
use md_name::{Bytes, NameError, UniqueParts, make_unique};
use std::alloc::Global;
use std::fs::{Files, OpenOptions};
use std::io::Read;
use std::time::Clock;

/// Makes unique names of the clock, the process, how many names it made, and the host. One of a process makes no name twice: threads share
/// it. A name that another process made all the same is refused at the delivery (`NameTaken`), and nothing is overwritten.
#[derive(Drop)]
pub struct Namer {
    pid: u64,
    count: u64,
    host: Vec<u8>,
}

impl Namer {
    /// No name was made by this process yet, on this host.
    pub fn new(pid: u64, host: Vec<u8>) -> Namer {
        Namer {
            pid,
            count: 0,
            host,
        }
    }

    /// Another unique name. Refused when out of memory, and where the host's name makes it too long.
    pub fn name(&mut self, alloc: Global, clock: &impl Clock) -> Result<Bytes, NameError> {
        let (sec, micro) = match clock.since_1970() {
            Ok(now) => (now.as_secs(), u64::from(now.subsec_micros())),
            Err(_) => (0, 0),
        };
        let count = self.count;
        self.count = count.wrapping_add(1);
        let parts = UniqueParts {
            sec,
            micro,
            pid: self.pid,
            count,
            host: self.host.as_slice(),
        };
        Ok(Bytes::of(make_unique(alloc, parts)?))
    }
}

/// The name of this host, by /proc, and `localhost` where that can't be read. Refused only when out of memory.
pub fn host_name(alloc: Global, files: &impl Files) -> Result<Vec<u8>, NameError> {
    let mut how = OpenOptions::new();
    how.read(true);
    let mut room = [0u8; 256];
    let mut count = 0;
    if let Ok(mut file) = files.open_file(&how, "/proc/sys/kernel/hostname") {
        if let Ok(read) = file.read(&mut room) {
            count = read;
        }
    }
    let mut host = &room[..count];
    if let Some((last, others)) = host.split_last() {
        if *last == b'\n' {
            host = others;
        }
    }
    if host.is_empty() {
        host = b"localhost";
    }
    Ok(Vec::from_slice(alloc, host)?)
}
