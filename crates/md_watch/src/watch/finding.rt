//! What a step is found to break of what its program owes the others, by what is kept.
ghost use Rattle.std.specs.Prelude.{◌≡◌};
ghost use Rattle.md_monitor.specs.Found.{is_from_new};
ghost use Rattle.md_kept.specs.Changes.{turn_of, file_in};
ghost use Rattle.md_kept.specs.Files.{lent_as};
ghost use Rattle.md_watch.specs.Found.{written_by, makes, adds, is_early, is_mixed, is_anothers, is_rewritten, is_moved_back, is_used_twice, is_made_again, is_late, is_second, is_elsewhere, is_hidden};

use super::{LONG, Watch};
use md_kept::{Change, Named, is_message, is_new, is_tmp, message_of};
use md_log::{Call, Deed, Reply, Step};

impl Watch {
    /// The file to which a call writes, or may have written a part.
    pub(super) fn written(&self, call: &Call) -> Option<usize>
        ensures { result ≡ written_by (file_in self.now.paths) call.now }
    {
        match call {
            Call::At {
                deed: Deed::Write,
                reply: Reply::NotFound,
                ..
            } => None,
            Call::At {
                deed: Deed::Write,
                path,
                ..
            } => self.paths.file_at(path),
            _ => None,
        }
    }

    /// Whether a path of a message is added.
    pub(super) fn adds(&self, change: &Change<'_>) -> bool
        ensures { result ≡ adds (turn_of change.now) }
    {
        match (change.named, change.turned) {
            (Some((path, _)), None) => is_message(path),
            _ => false,
        }
    }

    /// Whether a path of tmp leaves a young file that another made.
    pub(super) fn is_early(&self, actor: &[u8], named: Option<Named<'_>>) -> bool
        ensures { result ≡ is_early self.now actor.now (lent_as named.entry) }
    {
        named.is_some_and(|(path, file)| {
            is_tmp(path.place)
                && !self.files.is_maker(file, actor)
                && self.clock.saturating_sub(self.files.stamp(file)) < LONG
        })
    }

    /// Whether the file was made by another.
    pub(super) fn is_mixed(&self, actor: &[u8], file: Option<usize>) -> bool
        ensures { result ≡ is_mixed self.now actor.now file }
    {
        file.is_some_and(|file| !self.files.is_maker(file, actor))
    }

    /// Whether a path comes to name a file that readers don't see and that another made.
    pub(super) fn is_anothers(&self, step: &Step, named: Option<Named<'_>>) -> bool
        ensures { result ≡ is_anothers self.now step.now (lent_as named.entry) }
    {
        named.is_some_and(|(_, file)| {
            !self.files.is_seen(file)
                && !makes(&step.call)
                && !self.files.is_maker(file, step.actor.as_slice())
        })
    }

    pub(super) fn is_rewritten(&self, file: Option<usize>) -> bool
        ensures { result ≡ is_rewritten self.now file }
    {
        file.is_some_and(|file| self.files.was_seen(file))
    }

    /// Whether a message that was in cur is named in new.
    pub(super) fn is_moved_back(&self, named: Option<Named<'_>>) -> bool
        ensures { result ≡ is_moved_back self.now (lent_as named.entry) }
    {
        named.is_some_and(|(path, file)| {
            is_message(path) && is_new(path.place) && self.files.was_cur(file)
        })
    }

    /// Whether a path of a message comes to name a file that the message never was, and it was another.
    pub(super) fn is_used_twice(&self, named: Option<Named<'_>>) -> bool
        ensures { result ≡ is_used_twice self.now (lent_as named.entry) }
    {
        let messages = &self.messages;
        named.is_some_and(|(path, file)| {
            message_of(path).is_some_and(|unique| {
                messages.was(unique) && !messages.was_file(unique, file)
            })
        })
    }

    pub(super) fn is_made_again(&self, named: Option<Named<'_>>) -> bool
        ensures { result ≡ is_made_again self.now (lent_as named.entry) }
    {
        named.is_some_and(|(path, file)| {
            is_tmp(path.place) && self.drafts.named_other(path, file)
        })
    }

    /// Whether nobody has written to the file for long.
    pub(super) fn is_late(&self, file: Option<usize>) -> bool
        ensures { result ≡ is_late self.now file }
    {
        file.is_some_and(|file| self.clock.saturating_sub(self.files.stamp(file)) >= LONG)
    }

    /// Whether the message has more than one path in its folder.
    pub(super) fn is_second(&self, named: Option<Named<'_>>) -> bool
        ensures { result ≡ is_second self.now (lent_as named.entry) }
    {
        let messages = &self.messages;
        named.is_some_and(|(path, _)| {
            message_of(path).is_some_and(|unique| messages.count_in(path.folder, unique) > 1)
        })
    }

    /// Whether the message has a path in another folder.
    pub(super) fn is_elsewhere(&self, named: Option<Named<'_>>) -> bool
        ensures { result ≡ is_elsewhere self.now (lent_as named.entry) }
    {
        let messages = &self.messages;
        named.is_some_and(|(path, _)| {
            message_of(path).is_some_and(|unique| {
                messages.count_in(path.folder, unique) < messages.count(unique)
            })
        })
    }

    /// Whether readers don't see the file of a path.
    pub(super) fn is_hidden(&self, named: Option<Named<'_>>) -> bool
        ensures { result ≡ is_hidden self.now (lent_as named.entry) }
    {
        named.is_some_and(|(_, file)| !self.files.is_seen(file))
    }
}

/// Whether a call makes a file.
pub(super) fn makes(call: &Call) -> bool
    ensures { result ≡ makes call.now }
{
    match call {
        Call::At {
            deed: Deed::Create,
            reply: Reply::Ok,
            ..
        } => true,
        _ => false,
    }
}

/// Whether a call renames or links a message in new.
pub(super) fn is_from_new(call: &Call) -> bool
    ensures { result ≡ is_from_new call.now }
{
    match call {
        Call::Between { old, .. } => is_message(old) && is_new(old.place),
        _ => false,
    }
}
