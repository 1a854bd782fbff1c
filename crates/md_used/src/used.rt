//! The names that are used up, looked up by their hash.
ghost use Rattle.std.specs.Prelude.{◌≡◌, ◌||◌, ◌++◌, ◌+◌, ◌-◌, ◌^◌, [], length, min, not, is_some, OnOk, OnErr, IfOk, IfSome, Some, None as Nothing, if◌then◌else◌};
ghost use Rattle.std.specs.Str.{bytes_eq};
ghost use Rattle.md_used.specs.Used.{AreKept, IsAllOf, is_among, may_be_among};

use md_dirs::{HashSeed, NameKey};
use std::alloc::{AllocError, Global};
use std::collections::HashSet;
use std::marker::Model;
use std::mem::replace;

/// Names, each once.
#[derive(Drop)]
pub struct NameSet {
    alloc: Global,
    names: HashSet<NameKey<'static>, HashSeed, Global>,
}

impl Model for NameSet {
    ghost use Rattle.std.specs.Prelude.{List, ℕ};

    ghost Value = { List (List ℕ) };

    ghost view = { λ s. s.names.keys };
}

impl NameSet {
    /// No name. It takes no memory.
    pub fn empty(alloc: Global, seed: HashSeed) -> NameSet
        ensures { result ≡ [] }
    {
        NameSet {
            alloc,
            names: HashSet::with_hasher(alloc, seed),
        }
    }

    /// No name, and room for so many, which are hashed by a seed.
    pub fn with_room(alloc: Global, seed: HashSeed, count: usize) -> Result<NameSet, AllocError>
        ensures { IfOk result (λ names. names ≡ []) }
    {
        Ok(NameSet {
            alloc,
            names: HashSet::with_capacity_and_hasher(alloc, count, seed)?,
        })
    }

    /// How many names these are.
    pub fn len(&self) -> usize
        ensures { result ≡ length self.now }
    {
        self.names.len()
    }

    /// Whether a name is among these. Where there is none, the name is not hashed.
    pub fn contains(&self, name: &[u8]) -> bool
        ensures { result ≡ is_among name.now self.now }
    {
        if self.names.is_empty() {
            return false;
        }
        let key = NameKey::lent(name);
        self.names.contains(&key)
    }

    /// Adds a name, and answers whether it is new. After a refusal nothing has changed.
    pub fn insert(&mut self, name: &[u8]) -> Result<bool, AllocError>
        ensures new { IfOk result (λ is_new. is_new ≡ not (is_among name.now self.old)) }
        ensures ok { OnOk result ((u : _) → is_among u self.new ≡ (bytes_eq name.now u || is_among u self.old)) }
        ensures len { IfOk result (λ is_new. length self.new ≡ length self.old + (if is_new then 1 else 0)) }
        ensures err { OnErr result (self.new ≡ self.old) }
    {
        let key = NameKey::copied(self.alloc, name)?;
        Ok(self.names.insert(key)?)
    }

    /// Makes room for so many names more, so that the table doesn't grow as they come one by one.
    pub fn reserve(&mut self, count: usize) -> Result<(), AllocError>
        ensures same { (u : _) → is_among u self.new ≡ is_among u self.old }
        ensures len { length self.new ≡ length self.old }
        ensures err { OnErr result (self.new ≡ self.old) }
    {
        self.names.reserve(count)
    }

    // No name, which would be hashed as these are.
    fn none(&self) -> NameSet
        ensures { result ≡ [] }
    {
        NameSet::empty(self.alloc, *self.names.hasher())
    }

    // These names, and none is left here.
    fn take(&mut self) -> NameSet
        ensures taken { result ≡ self.old }
        ensures left { self.new ≡ [] }
    {
        let none = self.none();
        replace(self, none)
    }

    // Adds those names, whose bytes are not copied.
    fn append(&mut self, more: NameSet) -> Result<(), AllocError>
        ensures { OnOk result ((u : _) → is_among u self.new ≡ (is_among u self.old || is_among u more)) }
    {
        for key in more.names {
            self.names.insert(key)?;
        }
        Ok(())
    }
}

/// What a world keeps of the names that are used up: those of `since`, and those of `were` that its directories hold.
#[derive(Drop)]
pub struct Used {
    /// The names that calls make, or may take away, since the world began or settled.
    pub since: NameSet,
    /// Once a call made a name, all others that the directories may hold. A settle keeps these and those since, so some may have left the
    /// directories.
    pub were: Option<UsedNames>,
}

impl Used {
    /// What a world keeps that begins, with the names of its directories if they were gathered.
    pub fn beginning(alloc: Global, seed: HashSeed, were: Option<UsedNames>) -> Used
        ensures { (result.since ≡ []) × (result.were ≡ were) }
    {
        Used {
            since: NameSet::empty(alloc, seed),
            were,
        }
    }

    /// Whether directories may hold a name: if not, no look at them is needed.
    pub fn may_be_held(&self, name: &[u8]) -> bool
        ensures { result ≡ may_be_among name.now self.now.were }
    {
        match &self.were {
            Some(names) => names.contains(name),
            None => true,
        }
    }

    /// Puts the names of calls before the last settle among those that were gathered. It takes time only at the first call after a settle.
    /// Where memory runs out nothing is kept of those gathered.
    pub fn merge(&mut self) -> Result<(), AllocError>
        ensures since { self.new.since ≡ self.old.since }
        ensures were { AreKept self.old.were self.new.were }
        ensures kept { OnOk result (is_some self.new.were ≡ is_some self.old.were) }
        ensures lost { OnErr result (self.new.were ≡ Nothing) }
    {
        let Some(names) = &mut self.were else {
            return Ok(());
        };
        let merged = names.merge();
        if merged.is_err() {
            self.were = None;
        }
        merged
    }

    /// The names that were gathered, if any were, and those since.
    pub fn all(self) -> Option<UsedNames>
        ensures { IfSome result (IsAllOf self.since self.were) }
    {
        self.were?.with_late(self.since)
    }
}

/// Names that were gathered: those of messages and of deliveries, and beside them those of files in tmp, as a file in tmp may have the
/// name of a message.
#[derive(Drop)]
pub struct UsedNames {
    messages: NameSet,
    tmp: NameSet,
    // Those of the calls before the last settle, until the next call puts them among the others.
    late: NameSet,
    // How many more may come or go before it is asked again how many of them may have left.
    spare: usize,
}

impl Model for UsedNames {
    ghost use Rattle.std.specs.Prelude.{List, ℕ, ◌++◌};

    ghost Value = { List (List ℕ) };

    ghost view = { λ u. u.messages ++ u.tmp ++ u.late };
}

impl UsedNames {
    /// The names of messages and of files in tmp.
    pub fn of(messages: NameSet, tmp: NameSet) -> UsedNames
        ensures { result ≡ messages ++ tmp }
    {
        let late = messages.none();
        UsedNames {
            messages,
            tmp,
            late,
            spare: 0,
        }
    }

    /// No name, and room for so many, which are hashed by a seed.
    pub fn with_room(alloc: Global, seed: HashSeed, count: usize) -> Result<UsedNames, AllocError>
        ensures { IfOk result (λ used. used ≡ []) }
    {
        let messages = NameSet::with_room(alloc, seed, count)?;
        Ok(UsedNames::of(messages, NameSet::empty(alloc, seed)))
    }

    // The same names and those, which wait until the next call. None where others wait already.
    fn with_late(self, late: NameSet) -> Option<UsedNames>
        ensures { IfSome result (IsAllOf late (Some self)) }
    {
        if late.len() == 0 {
            return Some(self);
        }
        if self.late.len() > 0 {
            return None;
        }
        Some(UsedNames { late, ..self })
    }

    // Puts the names that wait among the others.
    fn merge(&mut self) -> Result<(), AllocError>
        ensures { OnOk result ((u : _) → is_among u self.new ≡ is_among u self.old) }
    {
        if self.late.len() == 0 {
            return Ok(());
        }
        let late = self.late.take();
        self.messages.append(late)
    }

    /// How many names these are, where one of a message and of a file in tmp counts twice; or as many as can be counted.
    pub fn len(&self) -> usize
        ensures { result ≡ min (length self.now) (2 ^ 64 - 1) }
    {
        self.messages
            .len()
            .saturating_add(self.tmp.len())
            .saturating_add(self.late.len())
    }

    /// Whether so many more may come or go; if so, it counts them.
    pub fn spares(&mut self, changes: usize) -> bool
        ensures { self.new ≡ self.old }
    {
        match self.spare.checked_sub(changes) {
            Some(spare) => {
                self.spare = spare;
                true
            }
            None => false,
        }
    }

    /// The same names, of which so many may come or go from now on.
    pub fn with_spare(self, spare: usize) -> UsedNames
        ensures { result ≡ self }
    {
        UsedNames { spare, ..self }
    }

    /// Whether a name is used.
    pub fn contains(&self, name: &[u8]) -> bool
        ensures { result ≡ is_among name.now self.now }
    {
        self.messages.contains(name) || self.tmp.contains(name) || self.late.contains(name)
    }

    /// Uses a name. After a refusal nothing has changed.
    pub fn insert(&mut self, name: &[u8]) -> Result<(), AllocError>
        ensures ok { OnOk result ((u : _) → is_among u self.new ≡ (bytes_eq name.now u || is_among u self.old)) }
        ensures err { OnErr result (self.new ≡ self.old) }
    {
        self.messages.insert(name)?;
        Ok(())
    }
}
