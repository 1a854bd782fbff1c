//! The sort keys of names.
ghost use Rattle.std.specs.Prelude.{◌≡◌, slice_index_or};
ghost use Rattle.md_dirs.specs.Keys.{IsKeyOf};

// A byte of a name, and zero behind it.
fn byte_at(name: &[u8], at: usize) -> u8
    ensures { result ≡ slice_index_or name.now at 0 }
{
    name.get(at).copied().unwrap_or(0)
}

// The key of a name that may be shorter than a key, byte by byte.
fn short_key(name: &[u8]) -> u128
    ensures { IsKeyOf result name.now }
{
    let mut key: u128 = 0;
    for at in 0..16 {
        let byte = byte_at(name, at);
        key = key * 256 + byte as u128;
    }
    key
}

/// The sort key of a name: its first 16 bytes as one number, the first highest, and zeros behind a shorter name. Where the keys of two names
/// differ, they go as the names do.
pub(crate) fn key_of(name: &[u8]) -> u128
    ensures { IsKeyOf result name.now }
{
    match name.first_chunk::<16>() {
        Some(first) => u128::from_be_bytes(*first),
        None => short_key(name),
    }
}
