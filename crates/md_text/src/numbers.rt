//! Numbers in decimal.
ghost use Rattle.std.specs.Prelude.{◌≡◌, ◌+◌, ◌-◌, ◌*◌, ◌^◌, ◌<◌, ◌≤◌, ℕ, length, slice_get, slice_index, take, IfNone, IfSome, Some, SomeIff};
ghost use Rattle.std.specs.Int.{IsInRange};
ghost use Rattle.std.specs.Option.{option_copied};
ghost use Rattle.std.specs.Str.Parse.{digits_value};
ghost use Rattle.md_text.specs.Words.{Spells, SpellsNone, number_in};

use crate::words::Rest;

/// How many digits a time has. Most numbers have no more.
const MOST_SHORT: usize = 10;

/// The number that a word of 1 to `most` decimal digits spells, below 2^64; leading zeros are fine, and a sign is none.
pub fn number(word: &[u8], most: usize) -> Option<u64>
    ensures { result ≡ number_in most word.now }
{
    if word.is_empty() || word.len() > most {
        return None;
    }
    let mut value = 0;
    for byte in word {
        let Some(next) = with_digit(value, *byte) else {
            return None;
        };
        value = next;
    }
    Some(value)
}

/// The number that a digit makes of the one before it, if it is a digit and the number fits.
fn with_digit(value: u64, byte: u8) -> Option<u64>
    ensures { SomeIff result (IsInRange 48 57 byte × (value * 10 + (byte - 48) < 2 ^ 64)) (value * 10 + (byte - 48)) }
{
    match byte {
        b'0'..=b'9' => {
            let Some(tens) = value.checked_mul(10) else {
                return None;
            };
            tens.checked_add(u64::from(byte - b'0'))
        }
        _ => None,
    }
}

/// The next word as a number of 1 to 10 digits, which make none that is too large. Other words are left to `number`.
#[inline(always)]
pub fn short_number(text: &[u8]) -> Option<(u64, Rest<'_>)>
    ensures some { IfSome result (λ read. Spells 20 (Some text.now) read.0 (option_copied read.1)) }
    ensures none { IfNone result (SpellsNone 10 (Some text.now)) }
{
    match text.first_chunk::<MOST_SHORT>() {
        Some(near) => near_number(near, text),
        None => near_number(text, text),
    }
}

/// The same of a number whose digits the front of the text holds. Where that is an array, its loop becomes straight code.
#[inline(always)]
fn near_number<'a>(near: &[u8], text: &'a [u8]) -> Option<(u64, Rest<'a>)>
    requires front { near.now ≡ take (length near.now) text.now }
    requires few { length near.now ≤ MOST_SHORT }
    requires rest { length near.now < MOST_SHORT → length near.now ≡ length text.now }
    ensures some { IfSome result (λ read. Spells 20 (Some text.now) read.0 (option_copied read.1)) }
    ensures none { IfNone result (SpellsNone 10 (Some text.now)) }
{
    let mut value = 0;
    for at in 0..near.len() {
        let digit = u64::from(near[at]).wrapping_sub(u64::from(b'0'));
        if digit > 9 {
            return ended_number(text, value, at, Some(near[at]));
        }
        value = value * 10 + digit;
    }
    ended_number(text, value, near.len(), text.get(near.len()).copied())
}

/// The number of the digits in front of a place, where their word ends there: at a space, or with the text.
#[inline(always)]
fn ended_number(text: &[u8], value: u64, end: usize, next: Option<u8>) -> Option<(u64, Rest<'_>)>
    requires digits { (k : ℕ) → k < end → IsInRange 48 57 (slice_index text.now k) }
    requires value { value ≡ digits_value 10 (take end text.now) }
    requires within { (end ≤ length text.now) × (end ≤ MOST_SHORT) }
    requires next { next ≡ slice_get text.now end }
    requires stops { end < MOST_SHORT → ¬ IsInRange 48 57 (slice_index text.now end) }
    ensures some { IfSome result (λ read. Spells 20 (Some text.now) read.0 (option_copied read.1)) }
    ensures none { IfNone result (SpellsNone 10 (Some text.now)) }
{
    match next {
        None if end > 0 => Some((value, None)),
        Some(b' ') if end > 0 => Some((value, Some(&text[end + 1..]))),
        _ => None,
    }
}
