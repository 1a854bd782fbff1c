//! Flags, as a word spells them.
ghost use Rattle.std.specs.Prelude.{◌≡◌};
ghost use Rattle.md_text.specs.Flags.{flags_in};

use md_name::Flags;

/// The flags of a word. A hyphen is none; other words are letters, in any order and perhaps repeated.
#[tactic(auto, unfolding(crate::specs::Flags::flags_in))]
pub fn flags_from(word: &[u8]) -> Option<Flags>
    ensures { result ≡ flags_in word.now }
{
    match word {
        b"-" => Some(Flags::empty()),
        letters => Flags::parse(letters).ok(),
    }
}
