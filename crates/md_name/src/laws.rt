//! What holds of names by their definitions alone. Each law is a function that does nothing: its
//! contract is the law, and a caller that calls it may rely on it.
ghost use Rattle.std.specs.Prelude.{◌≡◌, ◌+◌, ◌≤◌, length, Some, true, false};
ghost use Rattle.std.specs.List.{list_any, list_all};
ghost use Rattle.std.specs.FinSet as set;
ghost use Rattle.md_name.specs.declared.info.Info.TheVariants.{Bare, Two};
ghost use Rattle.md_name.specs.Letters.{is_letter, spelling};
ghost use Rattle.md_name.specs.Names.{is_slash, is_terminator, unique_of, is_message_name, split_of, flagged, is_maildir_unique};
ghost use Rattle.md_name.specs.Made.{is_backslash, escaped, name_of};

use crate::flags::Flags;
pub use crate::flags::only_letters;
use crate::unique::UniqueParts;

/// The name made of a unique name, `:2,` and the letters of some flags has that unique part and those
/// flags, where the unique name keeps the rule of maildir(5).
pub fn a_flagged_name_has_its_parts(unique: &[u8], flags: Flags)
    requires { is_maildir_unique unique.now ≡ true }
    ensures { split_of (flagged unique.now flags) ≡ Some (unique.now, Two flags) }
{
    only_letters(flags);
}

/// Whatever flags a message is given, its name keeps its unique part and has those flags.
pub fn a_message_keeps_its_unique_part(name: &[u8], flags: Flags)
    requires { is_message_name name.now ≡ true }
    ensures { split_of (flagged (unique_of name.now) flags) ≡ Some (unique_of name.now, Two flags) }
{
    only_letters(flags);
}

/// A unique name by itself, as it's delivered under, has that unique part and no info.
pub fn a_unique_name_is_bare(unique: &[u8])
    requires { is_maildir_unique unique.now ≡ true }
    ensures { split_of unique.now ≡ Some (unique.now, Bare) }
{}

/// A name with flags is at most 55 bytes longer than its unique name: a unique name of 200 bytes gives
/// a file name of at most 255, the most that a file name has (POSIX's NAME_MAX on the usual systems).
pub fn a_flagged_name_is_short(unique: &[u8], flags: Flags)
    ensures { length (flagged unique.now flags) ≤ length unique.now + 55 }
{}

/// Flags bring no slash, NUL, LF or CR into a name.
pub fn a_flagged_name_is_clean(unique: &[u8], flags: Flags)
    ensures slash { list_any is_slash (flagged unique.now flags) ≡ list_any is_slash unique.now }
    ensures terminator { list_any is_terminator (flagged unique.now flags) ≡ list_any is_terminator unique.now }
{}

/// What the spelling of a set names is that set.
pub fn a_spelling_names_its_set(flags: Flags)
    ensures letters { list_all is_letter (spelling flags) ≡ true }
    ensures same { set.from_list (spelling flags) ≡ flags }
{
    only_letters(flags);
}

/// Two sets of flags that are written alike are one.
pub fn spellings_tell_sets_apart(first: Flags, second: Flags)
    requires { spelling first ≡ spelling second }
    ensures { first ≡ second }
{
    only_letters(first);
    only_letters(second);
}

/// Two made names that are equal were made of one second, one microsecond, one process, one count and
/// one escaped host.
pub fn made_names_tell_their_parts(first: UniqueParts<'_>, second: UniqueParts<'_>)
    requires { name_of first ≡ name_of second }
    ensures sec { first.entry.sec ≡ second.entry.sec }
    ensures micro { first.entry.micro ≡ second.entry.micro }
    ensures pid { first.entry.pid ≡ second.entry.pid }
    ensures count { first.entry.count ≡ second.entry.count }
    ensures host { escaped first.entry.host.now ≡ escaped second.entry.host.now }
{}

/// Two hosts without a backslash that are equal once escaped are equal.
pub fn escaped_hosts_tell_hosts(first: &[u8], second: &[u8])
    requires first_plain { list_any is_backslash first.now ≡ false }
    requires second_plain { list_any is_backslash second.now ≡ false }
    requires same { escaped first.now ≡ escaped second.now }
    ensures { first.now ≡ second.now }
{}
