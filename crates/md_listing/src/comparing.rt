// How the unique names of entries compare.
ghost use Rattle.std.specs.Prelude.{◌≡◌, IfSome};
ghost use Rattle.md_dirs.specs.Keys.{IsKeyOf};
ghost use Rattle.md_core.specs.Mailbox.{name_cmp};

use std::cmp::Ordering;

/// How two names compare. Names of messages begin with a second and its microseconds, so that their first 16 bytes nearly always
/// differ: these are compared as numbers, and only names with the same ones, or with fewer, byte by byte.
#[inline(always)]
pub(crate) fn compare(first: &[u8], second: &[u8]) -> Ordering
    ensures { result ≡ name_cmp first.now second.now }
{
    let Some(key) = long_key(first) else {
        return compare_whole(first, second);
    };
    let Some(other) = long_key(second) else {
        return compare_whole(first, second);
    };
    match key.cmp(&other) {
        Ordering::Equal => compare_whole(first, second),
        order => order,
    }
}

/// The sort key of a name that has all of its bytes: the first 16 as one number, the first highest.
#[inline(always)]
fn long_key(name: &[u8]) -> Option<u128>
    ensures { IfSome result (λ key. IsKeyOf key name.now) }
{
    let first = name.first_chunk::<16>()?;
    Some(u128::from_be_bytes(*first))
}

/// The same as `compare`, byte by byte. Apart, since few names come to it.
#[inline(never)]
fn compare_whole(first: &[u8], second: &[u8]) -> Ordering
    ensures { result ≡ name_cmp first.now second.now }
{
    first.cmp(second)
}
