//! How words name a message.
ghost use Rattle.std.specs.Prelude.{◌≡◌, option_map};
ghost use Rattle.md_maildirs.specs.Keys.{key_of, key_view, is_named, named as named_as};
ghost use Rattle.md_name.specs.Names.{unique_of};

use md_dirs::Place;
use md_name::{holds_separator, is_message, unique_part};

/// A message that a word names.
#[derive(Drop)]
pub(crate) struct Key<'a> {
    /// The unique part of its name.
    pub(crate) unique: &'a [u8],
    /// Where a path says that it is.
    pub(crate) place: Option<Place>,
    /// The name that the word ends with.
    pub(crate) name: &'a [u8],
}

/// The message of a maildir that a word names: by the name of its file, of which the unique part counts, or by its path, which is the path
/// of the maildir as it was given, `/new/` or `/cur/`, and that name. None for any other word, and where the name is no message's or holds
/// NUL, LF or CR.
pub(crate) fn parse_key<'a>(maildir: &[u8], word: &'a [u8]) -> Option<Key<'a>>
    ensures { option_map key_view result ≡ key_of maildir.now word.now }
{
    if word.starts_with(maildir) {
        let rest = &word[maildir.len()..];
        if rest.starts_with(b"/new/") {
            return named(Some(Place::New), &rest[5..]);
        }
        if rest.starts_with(b"/cur/") {
            return named(Some(Place::Cur), &rest[5..]);
        }
    }
    named(None, word)
}

// The message of a name.
fn named<'a>(place: Option<Place>, name: &'a [u8]) -> Option<Key<'a>>
    ensures { option_map key_view result ≡ named_as place name.now }
{
    let unique = unique_part(name);
    if !is_named(name, unique) {
        return None;
    }
    Some(Key {
        unique,
        place,
        name,
    })
}

// Whether a name is a message's and one of a file, from its unique part.
#[tactic(auto, unfolding(crate::specs::Keys::is_named))]
fn is_named(name: &[u8], unique: &[u8]) -> bool
    requires { unique.now ≡ unique_of name.now }
    ensures { result ≡ is_named name.now }
{
    is_message(name, unique) && !holds_separator(name)
}
