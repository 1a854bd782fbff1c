//! What no program asks of names. How they are split and made is in tools/tests/ffi/names.c.

use md_name::{Bytes, Flags, Info, NameError, UniqueParts, first_colon, laws};
use std::alloc::{AllocError, Global};

// Letters as flags. What is no flag gives none.
fn flags(letters: &[u8]) -> Flags {
    match Flags::parse(letters) {
        Ok(flags) => flags,
        Err(_) => Flags::empty(),
    }
}

// Whether all letters are among the flags, and no other byte.
fn are_letters(all: Flags) -> bool {
    for byte in 0..=255u8 {
        if all.has(byte) != byte.is_ascii_alphabetic() {
            return false;
        }
    }
    true
}

// Whether these are the letters of flags. So they may be, too, where memory was wanting.
fn are_written(alloc: Global, flags: Flags, letters: &[u8]) -> bool {
    match flags.write(alloc) {
        Ok(text) => text.as_slice() == letters,
        Err(error) => error == NameError::NoMemory,
    }
}

// Whether each info has its flags.
fn are_of_infos(flags: Flags) -> bool {
    Info::Bare.flags() == Some(Flags::empty())
        && Info::Opaque.flags().is_none()
        && Info::Two(flags).flags() == Some(flags)
}

#[test]
fn flags_are_sets_of_letters(rt: HostRuntime) {
    assert!(rt;
        are_letters(flags(b"ABCDEFGHIJKLMNOPQRSTUVWXYZabcdefghijklmnopqrstuvwxyz"))
            && are_written(rt.alloc(), flags(b"TSSa"), b"STa")
            && are_of_infos(flags(b"FSa"))
            && first_colon(b"a:b:2,S") == Some(1)
            && first_colon(b"s,S=5").is_none()
    );
}

// Whether a copy is as it was, when the bytes that it was made of have become longer.
fn is_kept(alloc: Global, bytes: &mut Bytes) -> Result<bool, AllocError> {
    let copy = bytes.again(alloc)?;
    bytes.extend(b"\0")?;
    Ok(bytes.len() == 4 && *bytes != copy && copy.as_slice() == b"a b".as_slice())
}

// Whether bytes are kept. So they may be, too, where memory was wanting.
fn are_kept(alloc: Global) -> bool {
    match Bytes::copied(alloc, b"a b") {
        Ok(mut bytes) => match is_kept(alloc, &mut bytes) {
            Ok(is_kept) => is_kept && bytes.into_vec().as_slice() == b"a b\0".as_slice(),
            Err(_) => true,
        },
        Err(_) => true,
    }
}

#[test]
fn bytes_are_kept(rt: HostRuntime) {
    assert!(rt; are_kept(rt.alloc()) && Bytes::of(Vec::new(rt.alloc())).is_empty());
}

fn is_sent<T: Send>() {}

#[test]
fn laws_may_be_called_and_values_cross_threads() {
    let flags = flags(b"FS");
    let made = UniqueParts {
        sec: 1000,
        micro: 5,
        pid: 7,
        count: 1,
        host: b"a",
    };
    laws::only_letters(flags);
    laws::a_spelling_names_its_set(flags);
    laws::spellings_tell_sets_apart(flags, flags);
    laws::made_names_tell_their_parts(made, made);
    is_sent::<Flags>();
    is_sent::<Info>();
    is_sent::<NameError>();
    is_sent::<UniqueParts<'_>>();
    is_sent::<Bytes>();
}
