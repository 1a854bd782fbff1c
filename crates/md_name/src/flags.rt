//! The flags of a message, a set of ASCII letters.
ghost use Rattle.std.specs.Prelude.{◌≡◌, ◌++◌, ◌<◌, ◌≤◌, ℕ, filter, take, length, true, false, MatchResult, OnOk, OnErr};
ghost use Rattle.std.specs.List.{list_all};
ghost use Rattle.std.specs.FinSet as set;
ghost use Rattle.md_name.specs.declared.error.NameError.TheVariants.{NoMemory, BadFlag};
ghost use Rattle.md_name.specs.Letters.{is_letter, letters, IsOfLetters, spelling};
ghost use Rattle.md_name.specs.Words.{place_of, word_of};

use crate::error::NameError;
use std::alloc::{AllocError, Global};
use std::marker::Model;

// The letters in ASCII order. The place of a letter here is the place of its bit in a set's word.
const LETTERS: &[u8; 52] = b"ABCDEFGHIJKLMNOPQRSTUVWXYZabcdefghijklmnopqrstuvwxyz";

/// A set of ASCII letters, each the flag of a message.
///
/// maildir(5) gives six of them a meaning: P passed, R replied, S seen, T trashed, D draft, F flagged.
/// This store keeps each of the 52. Contracts see a set of letters; in memory it's one word.
#[derive(Clone, Copy, Debug, PartialEq, Eq)]
#[tactic(auto, using(crate::specs::WordSets::word_of_seen))]
pub struct Flags {
    word: u64,
}

impl Model for Flags {
    ghost use Rattle.std.specs.Prelude.{◌<◌, ◌^◌};
    ghost use Rattle.std.specs.Ordering.{nat_cmp};
    ghost use Rattle.std.specs.Coded.{coded_ℕ};
    ghost use Rattle.std.specs.FinSet as set;
    ghost use Rattle.md_name.specs.Words.{letters_in, word_of};
    ghost use Rattle.md_name.specs.WordSets.{word_of_fields};

    ghost Value = { set.FinSet nat_cmp };

    ghost coded = { set.code coded_ℕ };

    ghost view = { λ f. letters_in f.word };

    ghost invariant = { λ f. f.word < 2 ^ 52 };

    ghost inverse = { λ s. record { word = word_of s } };

    ghost inverse_ok = { λ f within. word_of_fields f within };
}

fn is_letter(byte: u8) -> bool
    ensures { result ≡ is_letter byte }
{
    byte.is_ascii_alphabetic()
}

// The place of a letter among `LETTERS`.
fn place(letter: u8) -> u8
    requires { is_letter letter ≡ true }
    ensures place { result ≡ place_of letter }
    ensures within { result < 52 }
{
    if letter.is_ascii_uppercase() {
        letter - b'A'
    } else {
        letter - b'a' + 26
    }
}

impl Flags {
    /// No flags.
    pub fn empty() -> Flags
        ensures { result ≡ set.empty }
    {
        Flags { word: 0 }
    }

    /// The flags that the letters name, which may come in any order and more than once.
    ///
    /// Refused `BadFlag` exactly where a byte is no ASCII letter.
    pub fn parse(letters: &[u8]) -> Result<Flags, NameError>
        ensures { MatchResult result
            (λ flags. (list_all is_letter letters.now ≡ true) × (flags ≡ set.from_list letters.now))
            (λ error. (list_all is_letter letters.now ≡ false) × (error ≡ BadFlag)) }
    {
        let mut flags = Flags::empty();
        for letter in letters {
            if !is_letter(*letter) {
                return Err(NameError::BadFlag);
            }
            flags = flags.with_letter(*letter);
        }
        Ok(flags)
    }

    /// The flags of this set and of the other.
    pub fn with(self, other: Flags) -> Flags
        ensures { result ≡ set.union self other }
    {
        Flags {
            word: self.word | other.word,
        }
    }

    /// The flags of this set that the other lacks.
    pub fn without(self, other: Flags) -> Flags
        ensures { result ≡ set.difference self other }
    {
        Flags {
            word: self.word & !other.word,
        }
    }

    /// Whether the letter is one of the flags. No other byte is.
    pub fn has(self, letter: u8) -> bool
        ensures { result ≡ set.contains self letter }
    {
        is_letter(letter) && (self.word >> place(letter)) & 1 == 1
    }

    /// The letters of the flags in ASCII order, each once.
    ///
    /// Refused `NoMemory` where no memory was to be had, and for nothing else.
    pub fn write(self, alloc: Global) -> Result<Vec<u8>, NameError>
        ensures { MatchResult result (λ text. text.items ≡ spelling self) (λ error. error ≡ NoMemory) }
    {
        let mut text = Vec::with_capacity(alloc, self.count())?;
        self.write_onto(&mut text)?;
        Ok(text)
    }

    /// Appends the letters of the flags in ASCII order, each once. It takes memory only where the text has no room for them. Where memory
    /// runs out, the text has the first of the letters more, or none.
    pub fn write_onto(self, text: &mut Vec<u8>) -> Result<(), AllocError>
        ensures ok { OnOk result (text.new.items ≡ text.old.items ++ spelling self) }
        ensures err { OnErr result ((n : ℕ) × (text.new.items ≡ text.old.items ++ take n (spelling self))) }
    {
        let mut place = 0usize;
        loop {
            let left = self.word >> place;
            if left == 0 {
                return Ok(());
            }
            // The letters that are no flags are passed over at once.
            let next = place + left.trailing_zeros() as usize;
            text.push(LETTERS[next])?;
            place = next + 1;
        }
    }

    /// The set as a word: a bit for each letter, A's the lowest, a's the 27th.
    pub fn bits(self) -> u64
        ensures { result ≡ word_of self }
    {
        self.word
    }

    /// How many flags there are.
    pub(crate) fn count(self) -> usize
        ensures { result ≤ 64 }
    {
        self.word.count_ones() as usize
    }

    // The set with one letter more.
    fn with_letter(self, letter: u8) -> Flags
        requires { is_letter letter ≡ true }
        ensures { result ≡ set.insert self letter }
    {
        Flags {
            word: self.word | (1 << place(letter)),
        }
    }
}

/// A set of flags holds letters alone.
pub fn only_letters(flags: Flags)
    ensures { IsOfLetters flags }
{
    let _word = &flags.word;
}
