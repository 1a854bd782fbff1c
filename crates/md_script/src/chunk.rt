//! One read of a script, right after the bytes that are there.
ghost use Rattle.std.specs.Prelude.{◌≡◌, ◌+◌, ◌-◌, ◌≤◌, length, vec_len, take, drop, OnOk};
ghost use Rattle.md_script.specs.Sources.{Reads};

use crate::source::{Got, LEAST_ROOM, Source};
use std::alloc::AllocError;

/// The most bytes of a script.
pub(crate) const MOST_BYTES: usize = 67_108_864;

/// The room that is made at the start, in bytes; later the room grows by a quarter.
const FIRST_ROOM: usize = 65_536;

/// Makes room for a read after the first `filled` bytes.
pub(crate) fn make_room(script: &mut Vec<u8>, filled: usize) -> Result<(), AllocError>
    requires within { filled ≤ MOST_BYTES }
    requires there { filled ≤ vec_len script.old }
    ensures room { OnOk result (filled + LEAST_ROOM ≤ vec_len script.new) }
    ensures front { take filled script.new.items ≡ take filled script.old.items }
{
    if script.len() - filled < LEAST_ROOM {
        script.resize(filled + (filled / 4).max(FIRST_ROOM), 0)?;
    }
    Ok(())
}

/// Reads into the room after the first `filled` bytes.
pub(crate) fn read_behind<S: Source>(source: &mut S, script: &mut Vec<u8>, filled: usize) -> Got
    requires { filled + LEAST_ROOM ≤ vec_len script.old }
    ensures len { vec_len script.new ≡ vec_len script.old }
    ensures front { take filled script.new.items ≡ take filled script.old.items }
    ensures read { Reads (S.state source.old) (S.state source.new) (drop filled script.new.items) result }
    ensures counted { (S.state source.new).reads ≤ (S.state source.old).reads + 1 }
{
    source.read(&mut script[filled..])
}

/// Moves the bytes from one place up to another to the front of the room.
pub(crate) fn move_to_front(room: &mut Vec<u8>, start: usize, end: usize)
    requires ordered { start ≤ end }
    requires there { end ≤ vec_len room.old }
    ensures len { vec_len room.new ≡ vec_len room.old }
    ensures moved { take (end - start) room.new.items ≡ take (end - start) (drop start room.old.items) }
{
    move_within(room.as_mut_slice(), start, end)
}

fn move_within(room: &mut [u8], start: usize, end: usize)
    requires ordered { start ≤ end }
    requires there { end ≤ length room.old }
    ensures moved { take (end - start) room.new ≡ take (end - start) (drop start room.old) }
{
    room.copy_within(start..end, 0);
}
