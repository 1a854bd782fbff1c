//! The line of an entry, laid in a buffer.
ghost use Rattle.std.specs.Prelude.{◌≡◌, ◌≤◌, ◌+◌, ◌++◌, ◌∷◌, [], IfSome, IfNone, take, length, codes};
ghost use Rattle.std.specs.Fmt.{decimal};
ghost use Rattle.md_text.specs.Places.{place_text};
ghost use Rattle.md_script.specs.Texts.{letters_text, line_end, entry_line};

use crate::digits::MOST_DIGITS;
use crate::flags::{NO_FLAGS, written_flags};
use itoa::write_digits;
use md_dirs::Place;
use md_view::EntryRef;

/// The most bytes of the unique name of a usual line.
const USUAL_UNIQUE: usize = 128;

/// The most letters of the flags of a usual line.
const USUAL_LETTERS: usize = 7;

/// The most bytes of a usual line.
pub(crate) const LONGEST_USUAL: usize = 4 + USUAL_UNIQUE + 1 + USUAL_LETTERS + 1 + MOST_DIGITS + 1;

/// Lays the line of an entry at a position of a buffer, and gives the position after it. None where it isn't a usual line: one of a long
/// unique name, or of flags that don't stand in the whole name as they print. What is before the position stays.
#[inline(always)]
pub(crate) fn lay_line(buffer: &mut [u8], at: usize, entry: &EntryRef<'_>) -> Option<usize>
    requires room { at + 162 ≤ length buffer.old }
    ensures line { IfSome result (λ end. take end buffer.new ≡ take at buffer.old ++ entry_line entry.now) }
    ensures within { IfSome result (λ end. end ≤ length buffer.new) }
    ensures unusual { IfNone result (take at buffer.new ≡ take at buffer.old) }
    ensures length { length buffer.new ≡ length buffer.old }
{
    let unique = entry.unique();
    let letters = written_flags(entry.name(), entry.colon())?;
    if unique.len() > USUAL_UNIQUE || letters.len() > USUAL_LETTERS {
        return None;
    }
    let at = lay_place(buffer, at, entry.place());
    let at = lay(buffer, at, unique);
    let at = lay_letters(buffer, at, letters);
    Some(lay_size(buffer, at, entry.size()))
}

/// Lays the name of a directory of a maildir, and a space.
#[inline(always)]
fn lay_place(buffer: &mut [u8], at: usize, place: Place) -> usize
    requires { at + 4 ≤ length buffer.old }
    ensures after { result ≡ at + 4 }
    ensures front { take result buffer.new ≡ take at buffer.old ++ place_text place ++ codes " " }
    ensures length { length buffer.new ≡ length buffer.old }
{
    let word = match place {
        Place::Tmp => b"tmp ",
        Place::New => b"new ",
        Place::Cur => b"cur ",
    };
    lay(buffer, at, word)
}

/// Lays letters, and a hyphen where there are none, between two spaces.
#[inline(always)]
fn lay_letters(buffer: &mut [u8], at: usize, letters: &[u8]) -> usize
    requires { at + 3 + length letters.now ≤ length buffer.old }
    ensures front { take result buffer.new ≡ take at buffer.old ++ codes " " ++ letters_text letters.now ++ codes " " }
    ensures within { result ≤ at + 3 + length letters.now }
    ensures length { length buffer.new ≡ length buffer.old }
{
    // One letter is its byte, with no call to copy it.
    match letters {
        [] => lay(buffer, at, &[b' ', NO_FLAGS, b' ']),
        [letter] => lay(buffer, at, &[b' ', *letter, b' ']),
        _ => {
            let at = lay(buffer, at, b" ");
            let at = lay(buffer, at, letters);
            lay(buffer, at, b" ")
        }
    }
}

/// Lays a number in decimal, and a line feed.
#[inline(always)]
#[tactic(auto, using(crate::proofs::Decimals::short_decimal))]
fn lay_size(buffer: &mut [u8], at: usize, size: u64) -> usize
    requires { at + 21 ≤ length buffer.old }
    ensures front { take result buffer.new ≡ take at buffer.old ++ decimal size ++ line_end }
    ensures within { result ≤ at + 21 }
    ensures length { length buffer.new ≡ length buffer.old }
{
    // One digit is its byte, with no digits to count.
    if size < 10 {
        return lay(buffer, at, &[b'0' + size as u8, b'\n']);
    }
    // The digits come in front of the line feed.
    let mut digits = [b'\n'; MOST_DIGITS + 1];
    let start = write_digits(size, &mut digits, MOST_DIGITS);
    lay(buffer, at, &digits[start..])
}

/// Lays bytes, and gives the position after them.
#[inline(always)]
fn lay(buffer: &mut [u8], at: usize, bytes: &[u8]) -> usize
    requires { at + length bytes.now ≤ length buffer.old }
    ensures after { result ≡ at + length bytes.now }
    ensures front { take result buffer.new ≡ take at buffer.old ++ bytes.now }
    ensures length { length buffer.new ≡ length buffer.old }
{
    let after = at + bytes.len();
    buffer[at..after].copy_from_slice(bytes);
    after
}
