// How names are hashed, and by what.
use md_dirs::{Dirs, FailAt, HashSeed, IndexDirs, NameKey, PlainDirs};
use std::hash::BuildHasher;
use std::io;
use std::io::{Error, ErrorKind};
use std::random::RandomSource;

/// A source that gives a number and those after it, or none.
#[derive(Drop)]
enum Source {
    From(u8),
    Refusing,
}

impl RandomSource for Source {
    fn fill_bytes(&self, buf: &mut [u8]) -> io::Result<()> {
        let Source::From(first) = self else {
            return Err(Error::from(ErrorKind::Unsupported));
        };
        let mut next = *first;
        for byte in buf {
            *byte = next;
            next = next.wrapping_add(1);
        }
        Ok(())
    }
}

// The seed of the words 0x0807_0605_0403_0201 and 0x100f_0e0d_0c0b_0a09, or those after them.
pub fn seed_from(first: u8) -> HashSeed {
    match HashSeed::drawn(&Source::From(first)) {
        Ok(seed) => seed,
        Err(_) => HashSeed::fixed(),
    }
}

fn hash(seed: HashSeed, name: &[u8]) -> u64 {
    seed.hash_one(NameKey::lent(name))
}

// The numbers are computed from the definition, by a program in Python.
#[test]
fn names_of_all_lengths_are_hashed_by_both_words(rt: HostRuntime) {
    let seed = seed_from(1);
    let hashes: [(&[u8], u64); 8] = [
        (b"", 0x99b4_09a1_11a1_b1a5),
        (b"a", 0x8644_f857_add4_7eb2),
        (b"1000.M5P", 0xedce_d22e_0bca_7462),
        (b"1000.M5P7", 0xadc7_c95e_d354_b278),
        (b"1000.M5P7Q1.host", 0x45a8_e976_feee_5712),
        (b"1000.M5P7Q1.host1", 0x40d4_c97a_38f9_a010),
        (b"1792406400.M123456P7890Q1.mail.exa", 0xca16_a758_43cd_08bb),
        (
            b"1792406400.M123456P7890Q12.mail.example.org",
            0xbc71_fdb7_7581_9209,
        ),
    ];
    for (name, expected) in hashes {
        assert_eq!(rt; hash(seed, name), expected);
    }
}

// A name with a number in front and the second word of the fixed seed behind it. The factor that hides that word is 0 then, so that the number
// has no part in the hash by the fixed seed.
fn chosen_name(number: u16) -> [u8; 24] {
    let mut name = *b"00000000\x15\x7c\x4a\x7f\xb9\x79\x37\x9e.M1.host";
    let mut left = number;
    for at in 0..8 {
        name[7 - at] = b'0' + (left % 10) as u8;
        left /= 10;
    }
    name
}

// How many of a thousand chosen names have the hash of the first.
fn count_alike(seed: HashSeed) -> usize {
    let first = hash(seed, &chosen_name(0));
    let mut count = 0usize;
    for number in 0..1000 {
        if hash(seed, &chosen_name(number)) == first {
            count = count.saturating_add(1);
        }
    }
    count
}

#[test]
fn names_chosen_to_collide_do_so_under_the_fixed_seed_alone(rt: HostRuntime) {
    assert_eq!(rt; count_alike(HashSeed::fixed()), 1000);
    for first in [1, 17, 100, 255] {
        assert_eq!(rt; count_alike(seed_from(first)), 1);
    }
    let Ok(drawn) = HashSeed::drawn(&rt) else {
        panic!(rt; "the system gives no random words")
    };
    assert_eq!(rt; count_alike(drawn), 1);
}

#[test]
fn seeds_are_drawn_anew(rt: HostRuntime) {
    assert!(rt; HashSeed::drawn(&Source::Refusing).is_err());
    let (Ok(first), Ok(second)) = (HashSeed::drawn(&rt), HashSeed::drawn(&rt)) else {
        panic!(rt; "the system gives no random words")
    };
    assert!(rt; hash(first, b"a") != hash(second, b"a"));
}

#[test]
fn directories_tell_what_they_hash_by(rt: HostRuntime) {
    let alloc = rt.alloc();
    let seed = seed_from(1);
    let fixed = hash(HashSeed::fixed(), b"a");
    let hashed = IndexDirs::with_seed(alloc, seed, 1);
    let image = IndexDirs::from_image_with_seed(alloc, seed, 1, Vec::new(alloc));
    assert_eq!(rt; hash(hashed.hash_seed(), b"a"), hash(seed, b"a"));
    assert!(rt; image.is_ok_and(|dirs| hash(dirs.hash_seed(), b"a") == hash(seed, b"a")));
    assert_eq!(rt;
        hash(FailAt::new(hashed, 0).hash_seed(), b"a"),
        hash(seed, b"a")
    );
    assert_eq!(rt; hash(IndexDirs::new(alloc, 1).hash_seed(), b"a"), fixed);
    assert_eq!(rt; hash(PlainDirs::new(alloc, 1).hash_seed(), b"a"), fixed);
}
