//! How names are hashed.
ghost use Rattle.std.specs.Prelude.{◌≡◌, ◌+◌, ◌≤◌, length};
ghost use Rattle.md_dirs.specs.Hashing as hashing;

use std::hash::{BuildHasher, Hasher};
use std::io;
use std::random::RandomSource;

/// The two words that names are hashed by.
///
/// Who knows them can choose names that collide, and so make calls slow, never wrong. `drawn` asks a source for words that nobody knows;
/// `fixed` has the same in each run. It is no cryptographic hash: it holds off names that were chosen beforehand, and not somebody who
/// measures how long calls take and goes by that.
#[derive(Clone, Copy)]
pub struct HashSeed {
    initial: NameHasher,
}

impl HashSeed {
    /// The seed of each run that is given none.
    pub fn fixed() -> Self
        ensures { result ≡ hashing.fixed }
    {
        HashSeed::of(0x243f_6a88_85a3_08d3, 0x9e37_79b9_7f4a_7c15)
    }

    /// A seed of random words, from 16 bytes of the source. It is refused where the source is.
    pub fn drawn(source: &impl RandomSource) -> io::Result<Self> {
        let mut words = [0; 16];
        source.fill_bytes(&mut words)?;
        Ok(HashSeed::of(word_at(&words, 0), word_at(&words, 8)))
    }

    // The seed of two words.
    fn of(state: u64, multiplier: u64) -> Self
        ensures { result ≡ hashing.seed_of state multiplier }
    {
        HashSeed {
            initial: NameHasher { state, multiplier },
        }
    }
}

impl BuildHasher for HashSeed {
    type Hasher = NameHasher;

    ghost build_hasher = { λ seed. seed.initial };

    fn build_hasher(&self) -> NameHasher {
        self.initial
    }
}

/// The hasher of names: the library's `FoldHasher` with both of its words drawn.
///
/// It multiplies 16 bytes at a time to 128 bits, and joins the halves by xor. A word of the seed is added to each factor by xor. Where that was
/// done to only one, a name could be chosen whose other factor is 0, whatever the seed is. The first word is turned by the length, and not added
/// to it: else names of several lengths could be chosen whose first bytes make up for it.
#[derive(Clone, Copy)]
pub struct NameHasher {
    state: u64,
    multiplier: u64,
}

impl NameHasher {
    // Takes two words in.
    fn mix(&mut self, first: u64, second: u64)
        ensures { self.new ≡ hashing.mix self.old first second }
    {
        let product = (first ^ self.state) as u128 * (second ^ self.multiplier) as u128;
        self.state = (product & 0xFFFF_FFFF_FFFF_FFFF) as u64 ^ (product >> 64) as u64;
    }
}

// The eight bytes from one on, as a number of which the lowest byte is first.
fn word_at(bytes: &[u8], at: usize) -> u64
    requires { at + 8 ≤ length bytes.now }
    ensures { result ≡ hashing.word_at bytes.now at }
{
    u64::from_le_bytes([
        bytes[at],
        bytes[at + 1],
        bytes[at + 2],
        bytes[at + 3],
        bytes[at + 4],
        bytes[at + 5],
        bytes[at + 6],
        bytes[at + 7],
    ])
}

// Up to eight bytes as a number.
fn short_word(bytes: &[u8]) -> u64
    ensures { result ≡ hashing.short_word bytes.now }
{
    let mut word = 0u64;
    for byte in bytes {
        word = word << 8 | *byte as u64;
    }
    word
}

impl Hasher for NameHasher {
    ghost write = { hashing.write };

    ghost finish = { λ hasher. hasher.state };

    fn finish(&self) -> u64 {
        self.state
    }

    fn write(&mut self, bytes: &[u8]) {
        let len = bytes.len();
        if len <= 8 {
            self.mix(short_word(bytes), len as u64);
            return;
        }
        self.state = self.state.rotate_left((len % 64) as u32);
        let mut at = 0;
        while len - at > 16 {
            self.mix(word_at(bytes, at), word_at(bytes, at + 8));
            at += 16;
        }
        self.mix(
            word_at(bytes, len.saturating_sub(16)),
            word_at(bytes, len - 8),
        );
    }
}
