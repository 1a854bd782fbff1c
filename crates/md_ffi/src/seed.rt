//! What names are hashed by.
use md_dirs::HashSeed;
use std::io;
use std::io::{Error, ErrorKind};
use std::random::RandomSource;

// Random bytes that C drew from its system.
#[derive(Drop)]
struct Drawn<'a> {
    bytes: &'a [u8],
}

impl<'a> RandomSource for Drawn<'a> {
    fn fill_bytes(&self, buf: &mut [u8]) -> io::Result<()> {
        let Some(drawn) = self.bytes.get(..buf.len()) else {
            return Err(Error::from(ErrorKind::UnexpectedEof));
        };
        buf.copy_from_slice(drawn);
        Ok(())
    }
}

/// The seed of the first 16 random bytes, and the fixed one where there are fewer.
pub(crate) fn seed_of(random: &[u8]) -> HashSeed {
    let drawn = Drawn { bytes: random };
    HashSeed::drawn(&drawn).unwrap_or(HashSeed::fixed())
}
