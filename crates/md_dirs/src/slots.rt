//! Files by their numbers, in blocks.
ghost use Rattle.std.specs.Prelude.{◌≡◌, ◌<◌, ◌++◌, [], ◌∷◌, Some, OnOk, OnErr, length, slice_set, vec_len, vec_capacity};
ghost use Rattle.std.specs.Option.{option_copied};
ghost use Rattle.md_dirs.specs.Files.{slot_at, grown_slot, with_names, let_go};
ghost use Rattle.md_dirs.specs.Places.{there, places};

use crate::files::{Kept, fill_slot, grow_slot, release_slot};
use md_name::Bytes;
use std::alloc::{AllocError, Global};
use std::mem::replace;

// How many files a block has. Small, so that a few files that stay keep little room for those that are gone; and large, so that
// the 32 bytes of a block of none are little.
const BLOCK: usize = 64;

/// Some files side by side, and how many of them are there.
#[derive(Drop)]
pub(crate) struct Block {
    slots: Vec<Option<Kept>>,
    left: usize,
    ghost counted: { left ≡ there slots.items },
}

/// The files by their numbers. No number is used again, so a file that is gone keeps its place; but a block whose files are all
/// gone is empty, and keeps no room for them.
///
/// A file comes into the tail, which is a block once it has as many as one.
#[derive(Drop)]
pub(crate) struct Slots {
    alloc: Global,
    blocks: Vec<Block>,
    tail: Block,
    ghost short: { length tail.slots.items < 64 },
}

impl Block {
    // No file. It takes no memory.
    fn new(alloc: Global) -> Self
        ensures { result.slots.items ≡ [] }
    {
        Block {
            slots: Vec::new(alloc),
            left: 0,
        }
    }

    // The file at a place.
    #[inline(always)]
    fn get(&self, at: usize) -> Option<&Kept>
        ensures { option_copied result ≡ slot_at self.now.slots.items at }
    {
        match self.slots.get(at) {
            Some(Some(kept)) => Some(kept),
            _ => None,
        }
    }

    // Puts a file behind all, where there is room for it.
    fn push(&mut self, kept: Kept)
        requires { vec_len self.old.slots < vec_capacity self.old.slots }
        ensures { self.new.slots.items ≡ self.old.slots.items ++ Some kept ∷ [] }
    {
        self.slots.push_reserved(Some(kept));
        self.left += 1;
    }

    // Adds bytes at the end of the file at a place.
    fn grow(&mut self, at: usize, bytes: &[u8], now: u64) -> Result<(), AllocError>
        ensures ok { OnOk result (self.new.slots.items
            ≡ slice_set self.old.slots.items at (grown_slot bytes.now now (slot_at self.old.slots.items at))) }
        ensures err { OnErr result (self.new.slots.items ≡ self.old.slots.items) }
    {
        if at < self.slots.len() {
            grow_slot(&mut self.slots[at], bytes, now)?;
        }
        Ok(())
    }

    // Adds all bytes of a body at the end of the file at a place, which may take the body itself.
    fn fill(&mut self, at: usize, body: &mut Bytes, now: u64) -> Result<(), AllocError>
        ensures ok { OnOk result (self.new.slots.items
            ≡ slice_set self.old.slots.items at (grown_slot body.old now (slot_at self.old.slots.items at))) }
        ensures err { OnErr result (self.new.slots.items ≡ self.old.slots.items) }
        ensures body { OnErr result (body.new ≡ body.old) }
    {
        if at < self.slots.len() {
            fill_slot(&mut self.slots[at], body, now)?;
        }
        Ok(())
    }

    // Says how many names the file at a place has.
    fn set_names(&mut self, at: usize, names: usize)
        ensures { self.new.slots.items ≡ slice_set self.old.slots.items at (with_names names (slot_at self.old.slots.items at)) }
    {
        if at < self.slots.len() {
            count_slot(&mut self.slots[at], names);
        }
    }

    // Counts one name less of the file at a place, and gives it back where that was its last.
    fn release(&mut self, at: usize)
        ensures { self.new.slots.items ≡ let_go (Some at) self.old.slots.items }
    {
        if at >= self.slots.len() {
            return;
        }
        if release_slot(&mut self.slots[at]) {
            self.left -= 1;
        }
    }

    // Gives the room back where all files are gone.
    fn shrink(&mut self, alloc: Global)
        ensures { places self.new.slots.items ≡ places self.old.slots.items }
    {
        if self.left == 0 {
            self.slots = Vec::new(alloc);
        }
    }
}

// Says how many names a file has.
fn count_slot(slot: &mut Option<Kept>, names: usize)
    ensures { slot.new ≡ with_names names slot.old }
{
    if let Some(kept) = slot {
        kept.names = names;
    }
}

impl Slots {
    ghost use Rattle.std.specs.Prelude.{◌≡◌, ◌<◌, ◌++◌, [], ◌∷◌, Some, OnOk, OnErr, IfOk, length, slice_set};
    ghost use Rattle.std.specs.Option.{option_copied};
    ghost use Rattle.md_dirs.specs.Files.{slot_at, grown_slot, with_names, let_go};
    ghost use Rattle.md_dirs.specs.Slots.{slots_of, HasRoom};

    /// No file. It takes no memory.
    pub(crate) fn new(alloc: Global) -> Self
        ensures { slots_of result ≡ [] }
    {
        Slots {
            alloc,
            blocks: Vec::new(alloc),
            tail: Block::new(alloc),
        }
    }

    /// The file of a number.
    #[inline(always)]
    pub(crate) fn get(&self, number: usize) -> Option<&Kept>
        requires { number < length (slots_of self.now) }
        ensures { option_copied result ≡ slot_at (slots_of self.now) number }
    {
        let block = number / BLOCK;
        if block < self.blocks.len() {
            self.blocks[block].get(number % BLOCK)
        } else {
            self.tail.get(number % BLOCK)
        }
    }

    /// Makes room for one more file, and gives the number that it will have.
    pub(crate) fn make_room(&mut self) -> Result<usize, AllocError>
        ensures number { IfOk result (λ number. number ≡ length (slots_of self.old)) }
        ensures room { OnOk result (HasRoom self.new) }
        ensures same { slots_of self.new ≡ slots_of self.old }
    {
        let before = self.blocks.len().checked_mul(BLOCK).ok_or(AllocError)?;
        let number = before.checked_add(self.tail.slots.len()).ok_or(AllocError)?;
        self.tail.slots.reserve(BLOCK - self.tail.slots.len())?;
        self.blocks.reserve(1)?;
        Ok(number)
    }

    /// Puts a file behind all, where there is room for it.
    pub(crate) fn push(&mut self, kept: Kept)
        requires { HasRoom self.old }
        ensures { slots_of self.new ≡ slots_of self.old ++ Some kept ∷ [] }
    {
        self.tail.push(kept);
        if self.tail.slots.len() == BLOCK {
            let full = replace(&mut self.tail, Block::new(self.alloc));
            self.blocks.push_reserved(full);
        }
    }

    /// Adds bytes at the end of the file of a number. When out of memory, nothing has changed.
    pub(crate) fn grow(&mut self, number: usize, bytes: &[u8], now: u64) -> Result<(), AllocError>
        requires { number < length (slots_of self.old) }
        ensures ok { OnOk result (slots_of self.new ≡ slice_set (slots_of self.old) number (grown_slot bytes.now now (slot_at (slots_of self.old) number))) }
        ensures err { OnErr result (slots_of self.new ≡ slots_of self.old) }
    {
        let block = number / BLOCK;
        if block < self.blocks.len() {
            self.blocks[block].grow(number % BLOCK, bytes, now)
        } else {
            self.tail.grow(number % BLOCK, bytes, now)
        }
    }

    /// Adds all bytes of a body at the end of the file of a number, as `grow` does. A file without bytes takes the body itself. When out
    /// of memory, nothing has changed.
    pub(crate) fn fill(
        &mut self,
        number: usize,
        body: &mut Bytes,
        now: u64,
    ) -> Result<(), AllocError>
        requires { number < length (slots_of self.old) }
        ensures ok { OnOk result (slots_of self.new ≡ slice_set (slots_of self.old) number (grown_slot body.old now (slot_at (slots_of self.old) number))) }
        ensures err { OnErr result (slots_of self.new ≡ slots_of self.old) }
        ensures body { OnErr result (body.new ≡ body.old) }
    {
        let block = number / BLOCK;
        if block < self.blocks.len() {
            self.blocks[block].fill(number % BLOCK, body, now)
        } else {
            self.tail.fill(number % BLOCK, body, now)
        }
    }

    /// Says how many names the file of a number has.
    pub(crate) fn set_names(&mut self, number: usize, names: usize)
        requires { number < length (slots_of self.old) }
        ensures { slots_of self.new ≡ slice_set (slots_of self.old) number (with_names names (slot_at (slots_of self.old) number)) }
    {
        let block = number / BLOCK;
        if block < self.blocks.len() {
            self.blocks[block].set_names(number % BLOCK, names);
        } else {
            self.tail.set_names(number % BLOCK, names);
        }
    }

    /// Counts one name less of the file of a number, and gives it back where that was its last, and the room of its block
    /// where it was the last there.
    pub(crate) fn release(&mut self, number: usize)
        requires { number < length (slots_of self.old) }
        ensures { slots_of self.new ≡ let_go (Some number) (slots_of self.old) }
    {
        let block = number / BLOCK;
        if block < self.blocks.len() {
            let block = &mut self.blocks[block];
            block.release(number % BLOCK);
            block.shrink(self.alloc);
        } else {
            self.tail.release(number % BLOCK);
        }
    }
}
