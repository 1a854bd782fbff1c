//! A change of flags as words say it.
ghost use Rattle.std.specs.Prelude.{◌≡◌, ◌<◌, length, position, IfSome};
ghost use Rattle.md_maildirs.specs.Changes.{change_of, signed, added, is_minus, changed as changed_by, letters_of};

use md_name::Flags;

/// Flags that a message gets, and flags that it then loses.
#[derive(Clone, Copy)]
pub struct Change {
    pub add: Flags,
    pub remove: Flags,
}

/// The change that a word says: `+` and letters that are added, `-` and letters that are removed, or the first and then the second, as
/// `+FS-T`. None for any other word.
pub fn parse_change(word: &[u8]) -> Option<Change>
    ensures { result ≡ change_of word.now }
{
    match word {
        [] => None,
        [sign, letters @ ..] => parse_signed(*sign, letters),
    }
}

// The change whose word is this sign and then these bytes.
fn parse_signed(sign: u8, word: &[u8]) -> Option<Change>
    ensures { result ≡ signed sign word.now }
{
    match sign {
        b'+' => parse_added(word),
        b'-' => changed(Some(Flags::empty()), parse_letters(word)),
        _ => None,
    }
}

// The change whose word has this behind its plus sign.
fn parse_added(word: &[u8]) -> Option<Change>
    ensures { result ≡ added word.now }
{
    match minus(word) {
        None => changed(parse_letters(word), Some(Flags::empty())),
        Some(at) => changed(parse_letters(&word[..at]), parse_letters(&word[at + 1..])),
    }
}

// Where the first minus sign is.
fn minus(word: &[u8]) -> Option<usize>
    ensures found { result ≡ position is_minus word.now }
    ensures within { IfSome result (λ at. at < length word.now) }
{
    word.iter().position(|byte| *byte == b'-')
}

// The change by flags that are added and removed, if both are named.
fn changed(add: Option<Flags>, remove: Option<Flags>) -> Option<Change>
    ensures { result ≡ changed_by add remove }
{
    match (add, remove) {
        (Some(add), Some(remove)) => Some(Change { add, remove }),
        _ => None,
    }
}

/// The flags that letters name, one at least. None where there is no letter, and where a byte is none.
pub fn parse_letters(word: &[u8]) -> Option<Flags>
    ensures { result ≡ letters_of word.now }
{
    if word.is_empty() {
        return None;
    }
    match Flags::parse(word) {
        Ok(flags) => Some(flags),
        Err(_) => None,
    }
}
