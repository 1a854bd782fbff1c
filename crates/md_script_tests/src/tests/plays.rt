//! A script that is played to its end, and one whose text is taken and not passed on. How the streams of a process fail is in
//! tools/check_face.

use md_script::{InMemory, PlayKind, Reader, Writer, play};
use std::alloc::Global;
use std::io;
use std::io::Write;

const PRINTS: &[u8] = b"unique 1.M2P3Q4.a\n";

// Takes all, and fails to pass it on.
#[derive(Drop)]
struct Unflushed {
    taken: usize,
}

impl Write for Unflushed {
    fn write(&mut self, buf: &[u8]) -> io::Result<usize> {
        self.taken = self.taken.saturating_add(buf.len());
        Ok(buf.len())
    }

    fn flush(&mut self) -> io::Result<()> {
        Err(io::Error::from(io::ErrorKind::StorageFull))
    }
}

// Whether a script prints one line, up to its end.
fn is_played(alloc: Global, script: &[u8]) -> bool {
    let mut out = InMemory::new(alloc);
    match play(alloc, &mut Reader::new(script), &mut out) {
        Ok(()) => out.into_text().as_slice() == PRINTS,
        Err(_) => false,
    }
}

// Whether a script is refused since its line was taken and not passed on.
fn is_not_passed_on(alloc: Global, script: &[u8]) -> bool {
    let mut out = Writer::new(Unflushed { taken: 0 });
    match play(alloc, &mut Reader::new(script), &mut out) {
        Ok(()) => false,
        Err(error) => {
            error.line == 0
                && error.kind == PlayKind::WriteFault
                && out.into_inner().taken == PRINTS.len()
        }
    }
}

#[test]
fn a_write_fault_comes_before_a_refused_line(rt: HostRuntime) {
    assert!(rt;
        is_played(rt.alloc(), b"unique 1 2 3 4 a")
            && is_not_passed_on(rt.alloc(), b"unique 1 2 3 4 a")
            && is_not_passed_on(rt.alloc(), b"unique 1 2 3 4 a\nx")
    );
}
