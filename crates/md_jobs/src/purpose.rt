//! The table of errands, a row for each purpose: the places that it looks in, what it decides of a message that it found, and what it does
//! with it.
ghost use Rattle.std.specs.Prelude.{◌≡◌, IfOk, IfErr, IfSome, OnErr, MatchResult};
ghost use Rattle.md_dirs.specs.Calls.{Obeys};
ghost use Rattle.md_jobs.specs.Tasks.Views.Errands.{deed_view};
ghost use Rattle.md_name.specs.Letters.{is_same_set};
ghost use Rattle.md_name.specs.Names.{flags_of, flagged};
ghost use Rattle.md_jobs.specs.Requests.{request_view};
ghost use Rattle.md_jobs.specs.Turn.{IsUntouched};
ghost use Rattle.md_jobs.specs.Asked.{ask_of, shown_call};
ghost use Rattle.md_jobs.specs.Machines.Purposes.{first, searches, place_after, info_in, wanted as wanted_by, shown as shown_by, has_trashed, act_if as act_if_by, decide_flag, decide as decide_by, answer_by, name_copied, deed_by};
ghost use Rattle.md_jobs.specs.Machines.Errand.{asked_of, change_of, taken_by};

use crate::answer::Answer;
use crate::effect::Change;
use crate::error::CoreError;
use crate::refusal::Refusal;
use crate::request::Request;
use crate::spot::Spot;
use crate::step::DirCall;
use md_dirs::{Bytes, DirError, Dirs, Place};
use md_name::laws::only_letters;
use md_name::{Flags, Info, split, with_flags};
use std::alloc::{AllocError, Global};

/// What an errand is for.
#[derive(Drop)]
pub enum Purpose {
    /// A new message goes to cur, its flags joined by these.
    Seen(Flags),
    /// A message of cur gets those that are added, and then loses those that are removed.
    Flag { add: Flags, remove: Flags },
    /// A message goes to another folder, and keeps its place and its whole name.
    Move { to: u32 },
    /// A message gets a second one of its file, under a fresh name in the same place of a folder.
    Copy { to: u32, fresh: Bytes },
    /// A message of cur that has the flag T (trashed) goes.
    Expunge,
}

/// What an errand does with a message that it found.
#[derive(Clone, Copy)]
pub enum Decision {
    /// It ends without an effect.
    Refuse(Refusal),
    /// The message is as it should be: that takes effect at once.
    Keep,
    /// It acts on the name.
    Act,
}

/// A directory call that an errand makes on the path that it found, and the path that it makes.
#[derive(Drop)]
pub enum Deed {
    Rename { new: Spot },
    Link { new: Spot },
    Unlink,
}

/// The info of a message's name. What is no message's name has other info.
pub(crate) fn info_of(name: &[u8]) -> Info
    ensures { result ≡ info_in name.now }
{
    match split(name) {
        Some((_, info)) => info,
        None => Info::Opaque,
    }
}

// Whether two sets have the same letters.
fn is_same(first: Flags, second: Flags) -> bool
    ensures { result ≡ is_same_set first second }
{
    only_letters(first);
    only_letters(second);
    first == second
}

// The flags of a message, and none where it has other info.
fn shown(info: Info) -> Flags
    ensures { result ≡ shown_by info }
{
    info.flags().unwrap_or(Flags::empty())
}

// Whether a message of this info has the flag T.
fn is_trashed(info: Info) -> bool
    ensures { result ≡ has_trashed (flags_of info) }
{
    info.flags().is_some_and(|flags| flags.has(b'T'))
}

// What is done by a test, or refused.
fn act_if(test: bool, refusal: Refusal) -> Decision
    ensures { result ≡ act_if_by test refusal }
{
    if test {
        return Decision::Act;
    }
    Decision::Refuse(refusal)
}

// A unique name with flags.
fn named(alloc: Global, unique: &Bytes, flags: Flags) -> Result<Bytes, CoreError>
    ensures { MatchResult result (λ name. name ≡ flagged unique.now flags) (λ e. e ≡ CoreError.NoMemory) }
{
    match with_flags(alloc, unique.as_slice(), flags) {
        Ok(name) => Ok(Bytes::of(name)),
        Err(_) => Err(CoreError::NoMemory),
    }
}

// The whole name of a copy: it shows the flags of the message, where that has info.
fn copied_name(alloc: Global, fresh: &Bytes, info: Info) -> Result<Bytes, CoreError>
    ensures { MatchResult result (λ name. name ≡ name_copied fresh.now info) (λ e. e ≡ CoreError.NoMemory) }
{
    match info {
        Info::Two(flags) => named(alloc, fresh, flags),
        Info::Bare | Info::Opaque => Ok(fresh.again(alloc)?),
    }
}

impl Purpose {
    /// The place that is looked in first.
    pub(crate) fn first(&self) -> Place
        ensures { result ≡ first self.now }
    {
        match self {
            Purpose::Seen(_) | Purpose::Move { .. } | Purpose::Copy { .. } => Place::New,
            Purpose::Flag { .. } | Purpose::Expunge => Place::Cur,
        }
    }

    // Whether cur is looked in too, where the message is not in new.
    fn searches(&self) -> bool
        ensures { result ≡ searches self.now }
    {
        matches!(self, Purpose::Move { .. } | Purpose::Copy { .. })
    }

    /// The place that is looked in after this one.
    pub(crate) fn after(&self, place: Place) -> Option<Place>
        ensures { result ≡ place_after (searches self.now) place }
    {
        match place {
            Place::New if self.searches() => Some(Place::Cur),
            Place::Tmp | Place::New | Place::Cur => None,
        }
    }

    // The flags that a message with these gets.
    fn wanted(&self, had: Flags) -> Flags
        ensures { result ≡ wanted_by self.now had }
    {
        match self {
            Purpose::Seen(given) => had.with(*given),
            Purpose::Flag { add, remove } => had.with(*add).without(*remove),
            Purpose::Move { .. } | Purpose::Copy { .. } | Purpose::Expunge => had,
        }
    }

    // A Flag keeps the name of a message that has its flags.
    fn decide_flag(&self, info: Info) -> Decision
        ensures { result ≡ decide_flag self.now (flags_of info) }
    {
        let Some(had) = info.flags() else {
            return Decision::Refuse(Refusal::OtherInfo);
        };
        if is_same(had, self.wanted(had)) {
            return Decision::Keep;
        }
        Decision::Act
    }

    // What is decided of a message of this info.
    fn decide_by(&self, info: &Info) -> Decision
        ensures { result ≡ decide_by self.now info.now }
    {
        match self {
            Purpose::Seen(_) | Purpose::Copy { .. } => {
                act_if(info.flags().is_some(), Refusal::OtherInfo)
            }
            Purpose::Flag { .. } => self.decide_flag(*info),
            Purpose::Move { .. } => Decision::Act,
            Purpose::Expunge => act_if(is_trashed(*info), Refusal::NotTrashed),
        }
    }

    /// What is decided of a message of this name, and the info of the name, where that was read: a Move goes by no info.
    pub fn decide(&self, name: &[u8]) -> (Decision, Option<Info>)
        ensures decision { result.0 ≡ decide_by self.now (info_in name.now) }
        ensures info { IfSome result.1 (λ info. info ≡ info_in name.now) }
    {
        if matches!(self, Purpose::Move { .. }) {
            return (Decision::Act, None);
        }
        let info = info_of(name);
        let decision = self.decide_by(&info);
        (decision, Some(info))
    }

    /// The answer of one whose call took effect on a message of this name.
    pub(crate) fn answer(&self, name: &[u8]) -> Answer
        ensures { result ≡ answer_by self.now (info_in name.now) }
    {
        match self {
            Purpose::Seen(_) | Purpose::Flag { .. } => {
                Answer::Flags(self.wanted(shown(info_of(name))))
            }
            Purpose::Move { .. } => Answer::Moved,
            Purpose::Copy { .. } => Answer::Copied,
            Purpose::Expunge => Answer::Expunged,
        }
    }

    /// What is done with a message of this unique name and path, and the answer where it is done. The path that is made is ready then, so
    /// that a directory call that was made needs no memory, and the info is read once, where it plays a part.
    pub(crate) fn deed(
        &self,
        alloc: Global,
        unique: &Bytes,
        old: &Spot,
    ) -> Result<(Deed, Answer), CoreError>
        ensures deed { IfOk result (λ done. deed_view old.now done.0 ≡
            deed_by self.now old.now.folder unique.now old.now.place old.now.name (info_in old.now.name)) }
        ensures answer { IfOk result (λ done. done.1 ≡ answer_by self.now (info_in old.now.name)) }
        ensures memory { IfErr result (λ e. e ≡ CoreError.NoMemory) }
    {
        match self {
            Purpose::Seen(_) | Purpose::Flag { .. } => {
                let flags = self.wanted(shown(old.info()));
                let new = Spot::new(old.folder, Place::Cur, named(alloc, unique, flags)?);
                Ok((Deed::Rename { new }, Answer::Flags(flags)))
            }
            Purpose::Move { to } => {
                let new = Spot::new(*to, old.place, old.name.again(alloc)?);
                Ok((Deed::Rename { new }, Answer::Moved))
            }
            Purpose::Copy { to, fresh } => {
                let name = copied_name(alloc, fresh, old.info())?;
                let new = Spot::new(*to, old.place, name);
                Ok((Deed::Link { new }, Answer::Copied))
            }
            Purpose::Expunge => Ok((Deed::Unlink, Answer::Expunged)),
        }
    }
}

impl Deed {
    /// Makes the directory call on this path, and gives its answer. No clock plays a part in it. Where there is no memory for the paths, no
    /// call is made.
    pub(crate) fn make<D: Dirs>(
        &self,
        alloc: Global,
        dirs: &mut D,
        old: &Spot,
    ) -> Result<Result<(), DirError>, AllocError>
        ensures meets { IfOk result (λ made.
            Obeys (ask_of (asked_of (deed_view old.now self.now)) 0) (D.device dirs.old) made (D.device dirs.new)) }
        ensures dirs { OnErr result (IsUntouched (D.device dirs.old) (D.device dirs.new)) }
    {
        let old = old.path(alloc)?;
        match self {
            Deed::Rename { new } => Ok(dirs.rename(&old, &new.path(alloc)?)),
            Deed::Link { new } => Ok(dirs.link(&old, &new.path(alloc)?)),
            Deed::Unlink => Ok(dirs.unlink(&old)),
        }
    }

    /// The directory call on this path, with its paths.
    pub(crate) fn request<'a>(&'a self, old: &'a Spot) -> Request<'a>
        ensures { request_view result ≡ asked_of (deed_view old.now self.now) }
    {
        let old = old.lent();
        match self {
            Deed::Rename { new } => Request::Rename {
                old,
                new: new.lent(),
            },
            Deed::Link { new } => Request::Link {
                old,
                new: new.lent(),
            },
            Deed::Unlink => Request::Unlink { path: old },
        }
    }

    /// The directory call, as a step shows it.
    pub(crate) fn shown(&self) -> DirCall
        ensures { (old : _) → result ≡ shown_call (asked_of (deed_view old self.now)) }
    {
        match self {
            Deed::Rename { .. } => DirCall::Rename,
            Deed::Link { .. } => DirCall::Link,
            Deed::Unlink => DirCall::Unlink,
        }
    }

    /// What it changed on this path, with a message of this size.
    pub(crate) fn change(self, old: Spot, size: u64) -> Change
        ensures { result ≡ change_of (deed_view old self) size }
    {
        match self {
            Deed::Rename { new } => Change::Rename {
                folder: old.folder,
                place: old.place,
                name: old.name,
                to_folder: new.folder,
                to_place: new.place,
                to_name: new.name,
            },
            Deed::Link { new } => Change::Add {
                folder: new.folder,
                place: new.place,
                name: new.name,
                size,
            },
            Deed::Unlink => Change::Remove {
                folder: old.folder,
                place: old.place,
                name: old.name,
            },
        }
    }

    /// What it says where a name is there: a link makes a name, and nothing else does.
    pub(crate) fn taken(&self) -> Refusal
        ensures { (old : _) → result ≡ taken_by (deed_view old self.now) }
    {
        match self {
            Deed::Link { .. } => Refusal::NameTaken,
            Deed::Rename { .. } | Deed::Unlink => Refusal::Fault,
        }
    }
}
