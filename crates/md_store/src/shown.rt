// What is published: the names, with the history that led to them.
ghost use Rattle.std.specs.Prelude.{◌≡◌, MatchResult};
ghost use Rattle.md_store.specs.Publishing.{page_after};
ghost use Rattle.std.specs.Coded.{codes};
ghost use Rattle.md_name.specs.contracts.flags.Flags as flags;
ghost use Rattle.md_store.specs.Pages.{Note, Page};
ghost use Rattle.md_view.specs.Named.{named_code};

use crate::book::Front;
use left_right::Absorb;
use md_core::Effect;
use md_view::TreeNames;
use std::alloc::AllocError;
use std::marker::Model;

/// An effect that is to be published, and the history that ends with it.
#[derive(Drop)]
pub struct Post {
    pub(crate) effect: Effect,
    pub(crate) front: Front,
}

impl Model for Post {
    ghost Value = { Note };

    ghost coded = { Prim.hlevel (codes, flags.the_row.coded) };

    ghost view = { λ p. record { effect = p.effect; front = p.front } };
}

/// The names, and the history that led to them from the opening names.
#[derive(Drop)]
pub struct Shown {
    names: TreeNames,
    front: Front,
}

impl Model for Shown {
    ghost Value = { Page };

    ghost coded = { Prim.hlevel (codes, named_code, flags.the_row.coded) };

    ghost view = { λ s. record { front = s.front; names = s.names } };
}

impl Shown {
    pub fn new(names: TreeNames, front: Front) -> Shown
        ensures { (result.front ≡ front) × (result.names ≡ names) }
    {
        Shown { names, front }
    }

    pub fn front(&self) -> &Front
        ensures { result.now ≡ self.now.front }
    {
        &self.front
    }

    pub fn names(&self) -> &TreeNames
        ensures { result.now ≡ self.now.names }
    {
        &self.names
    }

    fn take(&mut self, post: &Post) -> Result<(), AllocError>
        ensures { MatchResult result (λ _. self.new ≡ page_after self.old post.now) (λ _. self.new ≡ self.old) }
    {
        if self.names.apply(&post.effect.change).is_err() {
            return Err(AllocError);
        }
        self.front = post.front.again();
        Ok(())
    }
}

impl Absorb<Post> for Shown {
    type State = Shown;

    ghost state = { λ s. s };

    ghost applied = { page_after };

    fn absorb_first(&mut self, operation: &Post, _other: &Shown) -> Result<(), AllocError> {
        self.take(operation)
    }
}
