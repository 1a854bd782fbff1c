//! The rule of what is published.
use crate::book::Front;
use crate::shown::{Post, Shown};
use atomic_table::{Join, Split};
use crossbeam_utils::rule::{Outcome, Protocol};
use left_right::reader::Reader;
use left_right::writer::Writer;
use md_view::TreeNames;

/// What a seat knows. No value of it is made.
pub struct Knowledge {
    pub opened: bool,
    pub opening: TreeNames,
    pub held: Front,
}

pub struct Published;

impl Protocol<Shown, Knowledge> for Published {
    ghost use Rattle.md_store.specs.Publishing.{Kept, newcomer};

    ghost holds = { Kept };

    ghost first = { newcomer };
}

/// Publishing, and entering what is published.
pub struct Learning;

impl Outcome<Shown, Knowledge> for Learning {
    ghost use Rattle.md_store.specs.Publishing.{Learns};

    ghost then = { Learns };
}

/// Telling a new seat which store it is of.
pub struct Seats;

impl Split<Knowledge> for Seats {
    ghost left = { λ v. v };

    ghost right = { λ v. v };
}

impl Join<Knowledge> for Seats {
    ghost use Rattle.md_store.specs.Publishing.{newcomer};

    ghost both = { λ v w. w };

    ghost spent = { newcomer };
}

pub type StoreReader = Reader<Shown, Knowledge, Published>;

pub type StoreWriter = Writer<Shown, Post, Knowledge, Published>;
