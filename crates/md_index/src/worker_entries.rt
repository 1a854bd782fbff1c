//! What one worker brings.
ghost use Rattle.std.specs.Prelude.{◌≡◌, List, All, IfSome};
ghost use Rattle.md_index.specs.Index.{IsBrought};
ghost use Rattle.md_index.specs.declared.item.Message.{Message};

use crate::item::{Indexed, Message};
use std::collections::VecDeque;
use std::marker::Model;

/// The number of a message, and the entry that was made of it.
pub(crate) type Brought = (usize, Indexed);

/// Entries of these messages, which one worker made, in the order in which it made them. They are taken by their numbers.
#[derive(Drop)]
pub(crate) struct WorkerEntries<'a> {
    messages: &'a [Message<'a>],
    brought: VecDeque<Brought>,
}

impl<'a> Model for WorkerEntries<'a> {
    ghost Value = { List Message };

    ghost view = { λ w. w.messages.now };

    ghost invariant = { λ load. All (IsBrought load.messages.now) load.brought.items };
}

impl<'a> WorkerEntries<'a> {
    /// What a worker brought.
    pub(crate) fn of(messages: &'a [Message<'a>], brought: Vec<Brought>) -> Self
        requires { All (IsBrought messages.now) brought.items }
        ensures { result ≡ messages.now }
    {
        WorkerEntries {
            messages,
            brought: VecDeque::from(brought),
        }
    }

    /// The entry of this number, if it is the next.
    pub(crate) fn take(&mut self, item: usize) -> Option<Indexed>
        ensures same { self.new ≡ self.old }
        ensures entry { IfSome result (λ made. IsBrought self.old (item, made)) }
    {
        let (next, _) = self.brought.front()?;
        if *next != item {
            return None;
        }
        let (_, made) = self.brought.pop_front()?;
        Some(made)
    }
}
