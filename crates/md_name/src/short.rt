//! A few bytes, in place.
ghost use Rattle.std.specs.Prelude.{◌≡◌, ◌≤◌, ◌↔◌, length, IsSome, IfSome};

use std::marker::Model;

// How many bytes lie in place at most. The names of usual deliverers have fewer, with three flags too.
const SHORT: usize = 53;

/// A few bytes, in place.
#[derive(Drop)]
pub struct Short {
    bytes: [u8; SHORT],
    len: u8,
}

impl Model for Short {
    ghost use Rattle.std.specs.Prelude.{List, ℕ, take, ◌≤◌};

    ghost Value = { List ℕ };

    ghost view = { λ s. take s.len s.bytes };

    ghost invariant = { λ s. s.len ≤ 53 };
}

impl Short {
    /// A copy of bytes, where they are at most 53.
    pub fn copied(items: &[u8]) -> Option<Short>
        ensures few { IsSome result ↔ (length items.now ≤ SHORT) }
        ensures copy { IfSome result (λ short. short ≡ items.now) }
    {
        if items.len() > SHORT {
            return None;
        }
        let mut bytes = [0; SHORT];
        bytes[..items.len()].copy_from_slice(items);
        Some(Short {
            bytes,
            len: items.len() as u8,
        })
    }

    /// The bytes, lent.
    pub fn as_slice(&self) -> &[u8]
        ensures { result.now ≡ self.now }
    {
        &self.bytes[..self.len as usize]
    }
}
