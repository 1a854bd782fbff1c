//! The name of a file, in place where it is short.
ghost use Rattle.std.specs.Prelude.{◌≡◌, ◌≤◌, IfOk, IsOk, length};

use crate::bytes::Bytes;
use crate::short::Short;
use std::alloc::{AllocError, Global};
use std::fmt::{Debug, Error, Formatter, Write};
use std::marker::Model;

// Where the bytes of a name are.
#[derive(Drop)]
enum Room {
    Short(Short),
    Long(Bytes),
}

/// The name of a file. Any byte may be anywhere in it. A name of at most 53 bytes, as those of usual deliverers are, lies in place, and
/// takes no memory of its own.
#[derive(Drop)]
pub struct FileName {
    room: Room,
}

impl Model for FileName {
    ghost use Rattle.std.specs.Prelude.{List, ℕ};
    ghost use Rattle.md_name.specs.FileNames.{room_bytes};

    ghost Value = { List ℕ };

    ghost view = { λ n. room_bytes n.room };
}

impl FileName {
    /// The name of these bytes, which are moved in. It takes no memory.
    pub fn of(name: Bytes) -> Self
        ensures { result ≡ name }
    {
        let room = match Short::copied(name.as_slice()) {
            Some(short) => Room::Short(short),
            None => Room::Long(name),
        };
        FileName { room }
    }

    /// A name of copied bytes. It is refused only when out of memory, and a name of at most 53 bytes never is.
    pub fn copied(alloc: Global, name: &[u8]) -> Result<Self, AllocError>
        ensures copy { IfOk result (λ copy. copy ≡ name.now) }
        ensures short { length name.now ≤ 53 → IsOk result }
    {
        let room = match Short::copied(name) {
            Some(short) => Room::Short(short),
            None => Room::Long(Bytes::copied(alloc, name)?),
        };
        Ok(FileName { room })
    }

    /// A copy of this name. It is refused only when out of memory, and that of a name of at most 53 bytes never is.
    pub fn again(&self, alloc: Global) -> Result<Self, AllocError>
        ensures copy { IfOk result (λ copy. copy ≡ self.now) }
        ensures short { length self.now ≤ 53 → IsOk result }
    {
        FileName::copied(alloc, self.as_slice())
    }

    /// The bytes, lent.
    pub fn as_slice(&self) -> &[u8]
        ensures { result.now ≡ self.now }
    {
        match &self.room {
            Room::Short(name) => name.as_slice(),
            Room::Long(name) => name.as_slice(),
        }
    }
}

impl Debug for FileName {
    /// The bytes, as those of a slice.
    fn fmt<W: Write>(&self, f: &mut Formatter<W>) -> Result<(), Error> {
        self.as_slice().fmt(f)
    }
}
