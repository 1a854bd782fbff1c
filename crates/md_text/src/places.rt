//! The names of a maildir's directories.
ghost use Rattle.std.specs.Prelude.{◌≡◌};
ghost use Rattle.md_text.specs.Places.{place_named, place_text};

use md_dirs::Place;

/// The directory of the words `tmp`, `new` and `cur`.
#[tactic(auto, unfolding(crate::specs::Places::place_named))]
pub fn place_from(word: &[u8]) -> Option<Place>
    ensures { result ≡ place_named word.now }
{
    match word {
        b"tmp" => Some(Place::Tmp),
        b"new" => Some(Place::New),
        b"cur" => Some(Place::Cur),
        _ => None,
    }
}

/// The name of a directory of a maildir.
pub fn place_text(place: Place) -> &'static [u8]
    ensures { result.now ≡ place_text place }
{
    match place {
        Place::Tmp => b"tmp",
        Place::New => b"new",
        Place::Cur => b"cur",
    }
}
