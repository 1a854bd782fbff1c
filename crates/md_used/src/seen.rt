//! What was seen of the files that have names, and what is wrong with a name.
ghost use Rattle.std.specs.Prelude.{◌≡◌, [], ◌||◌, max, None, IfOk, OnOk, MatchResult};
ghost use Rattle.md_used.specs.Loading.{is_bad_name};
ghost use Rattle.md_used.specs.Seen.{IsFault, fault_after, message_fault, is_of, is_message_of, is_tmp_of, somewhere};
ghost use Rattle.md_used.specs.Used.{is_among};

use crate::used::NameSet;
use md_dirs::{HashSeed, Place, RowRef};
use md_jobs::CoreError;
use md_name::{holds_separator, is_message};
use std::alloc::{AllocError, Global};

/// The longest file name of the usual systems, in bytes.
const MOST_NAME_BYTES: usize = 255;

/// The longest unique part, in bytes.
pub const MOST_UNIQUE_BYTES: usize = 200;

/// What was seen so far of the files that have names: the unique names of messages, the names in tmp, and the greatest stamp in seconds.
#[derive(Drop)]
pub struct Seen {
    pub messages: NameSet,
    pub tmp: NameSet,
    pub clock: u64,
}

impl Seen {
    /// Nothing was seen, and there is room for so many messages, and names in tmp, which are hashed by a seed. It is refused only when out of
    /// memory.
    pub fn with_room(
        alloc: Global,
        seed: HashSeed,
        messages: usize,
        tmp: usize,
    ) -> Result<Seen, AllocError>
        ensures { IfOk result (λ seen. (seen.messages ≡ []) × (seen.tmp ≡ []) × (seen.clock ≡ 0)) }
    {
        Ok(Seen {
            messages: NameSet::with_room(alloc, seed, messages)?,
            tmp: NameSet::with_room(alloc, seed, tmp)?,
            clock: 0,
        })
    }

    /// Looks at one more name, and refuses it where it has a fault: after that what was seen is not to be used. It is refused when out of
    /// memory, too.
    #[inline(always)]
    pub fn add(&mut self, place: Place, row: &RowRef<'_>) -> Result<(), CoreError>
        ensures fault { let fault = fault_after self.old.messages (somewhere place row.now) in MatchResult result (λ _. fault ≡ None) (IsFault fault) }
        ensures messages { OnOk result ((u : _) →
            is_among u self.new.messages ≡ (is_message_of u (somewhere place row.now) || is_among u self.old.messages)) }
        ensures tmp { OnOk result ((u : _) → is_among u self.new.tmp ≡ (is_tmp_of u (somewhere place row.now) || is_among u self.old.tmp)) }
        ensures clock { OnOk result (self.new.clock ≡ max self.old.clock row.now.stamp) }
    {
        if is_bad(row.name()) {
            return Err(CoreError::BadName);
        }
        match place {
            Place::Tmp => {
                self.tmp.insert(row.name())?;
            }
            Place::New | Place::Cur => self.add_message(row)?,
        }
        self.clock = self.clock.max(row.stamp());
        Ok(())
    }

    // Adds the unique name of a message, where the name is a message's.
    fn add_message(&mut self, row: &RowRef<'_>) -> Result<(), CoreError>
        ensures fault { let fault = message_fault self.old.messages row.now.name in MatchResult result (λ _. fault ≡ None) (IsFault fault) }
        ensures messages { OnOk result ((u : _) → is_among u self.new.messages ≡ (is_of u row.now.name || is_among u self.old.messages)) }
        ensures same { (self.new.tmp ≡ self.old.tmp) × (self.new.clock ≡ self.old.clock) }
    {
        let unique = row.unique();
        if !is_message(row.name(), unique) {
            return Ok(());
        }
        if unique.len() > MOST_UNIQUE_BYTES {
            return Err(CoreError::LongUnique);
        }
        if !self.messages.insert(unique)? {
            return Err(CoreError::DuplicateUnique);
        }
        Ok(())
    }
}

/// Whether a world refuses the name as `BadName`: it is empty, over 255 bytes long, or has a slash, NUL, LF or CR.
pub fn is_bad(name: &[u8]) -> bool
    ensures { result ≡ is_bad_name name.now }
{
    name.is_empty() || name.len() > MOST_NAME_BYTES || holds_separator(name)
}
