//! What a step is found to break of the law beside what is owed, by what is kept.
ghost use Rattle.std.specs.Prelude.{◌≡◌};
ghost use Rattle.md_monitor.specs.Found.{makes_message};
ghost use Rattle.md_kept.specs.Files.{lent_as};
ghost use Rattle.md_watch.specs.Found.{empties_trash, shows_too_early, is_in_sight, shows_cut, shows_trashed, shows_unflushed, is_back, is_gone};

use super::Watch;
use md_kept::{Named, is_cur, is_message, message_of};
use md_log::{Call, Deed, Reply};
use md_name::split;

impl Watch {
    /// Whether a message is made empty, a file is written to that readers see, or may have been, or one begins to be seen whose last write has
    /// failed.
    pub(super) fn shows_too_early(
        &self,
        call: &Call,
        written: Option<usize>,
        named: Option<Named<'_>>,
    ) -> bool
        ensures { result ≡ shows_too_early self.now call.now written (lent_as named.entry) }
    {
        makes_message(call) || self.is_in_sight(written) || self.shows_cut(named)
    }

    fn is_in_sight(&self, file: Option<usize>) -> bool
        ensures { result ≡ is_in_sight self.now file }
    {
        file.is_some_and(|file| self.files.is_seen(file))
    }

    fn shows_cut(&self, named: Option<Named<'_>>) -> bool
        ensures { result ≡ shows_cut self.now (lent_as named.entry) }
    {
        named.is_some_and(|(path, file)| {
            is_message(path) && !self.files.is_seen(file) && self.files.is_cut(file)
        })
    }

    /// Whether a file begins to be seen that was not flushed since a write.
    pub(super) fn shows_unflushed(&self, named: Option<Named<'_>>) -> bool
        ensures { result ≡ shows_unflushed self.now (lent_as named.entry) }
    {
        named.is_some_and(|(path, file)| {
            is_message(path) && !self.files.is_seen(file) && self.files.is_unflushed(file)
        })
    }

    /// Whether a message that had gone from the folder comes to be there as a file that it never was there.
    pub(super) fn is_back(&self, named: Option<Named<'_>>) -> bool
        ensures { result ≡ is_back self.now (lent_as named.entry) }
    {
        let messages = &self.messages;
        named.is_some_and(|(path, file)| {
            message_of(path).is_some_and(|unique| {
                messages.count_in(path.folder, unique) == 0
                    && messages.was_in(path.folder, unique)
                    && !messages.was_file_in(path.folder, unique, file)
            })
        })
    }

    /// Whether the message has no path in its folder, and the file of the path is the message in no other.
    pub(super) fn is_gone(&self, taken: Option<Named<'_>>) -> bool
        ensures { result ≡ is_gone self.now (lent_as taken.entry) }
    {
        let messages = &self.messages;
        taken.is_some_and(|(path, file)| {
            message_of(path).is_some_and(|unique| {
                messages.count_in(path.folder, unique) == 0 && messages.count_as(unique, file) == 0
            })
        })
    }
}

/// Whether a call makes a message empty.
fn makes_message(call: &Call) -> bool
    ensures { result ≡ makes_message call.now }
{
    match call {
        Call::At {
            deed: Deed::Create,
            path,
            reply: Reply::Ok,
        } => is_message(path),
        _ => false,
    }
}

/// Whether a call unlinks a path in cur that shows the flag T.
pub(super) fn empties_trash(call: &Call) -> bool
    ensures { result ≡ empties_trash call.now }
{
    match call {
        Call::At {
            deed: Deed::Unlink,
            path,
            reply: Reply::Ok,
        } => is_cur(path.place) && shows_trashed(path.name.as_slice()),
        _ => false,
    }
}

/// Whether the name of a message shows the flag T.
fn shows_trashed(name: &[u8]) -> bool
    ensures { result ≡ shows_trashed name.now }
{
    let Some((_, info)) = split(name) else {
        return false;
    };
    info.flags().is_some_and(|flags| flags.has(b'T'))
}
