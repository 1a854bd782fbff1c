//! Sets of clauses.
ghost use Rattle.std.specs.Prelude.{◌≡◌, ◌↔◌, ◌⊎◌, IsTrue};
ghost use Rattle.md_log.specs.declared.clause.Clause.{Clause};
ghost use Rattle.md_judge.specs.Clauses.{Has};

use md_log::{CLAUSES, Clause};

/// A set of clauses.
#[derive(Clone, Copy)]
pub(crate) struct Clauses {
    has: [bool; CLAUSES.len()],
}

impl Clauses {
    pub(crate) fn none() -> Self
        ensures { (c : Clause) → Has result c → ⊥ }
    {
        Clauses {
            has: [false; CLAUSES.len()],
        }
    }

    pub(crate) fn add(&mut self, clause: Clause)
        ensures { (c : Clause) → Has self.new c ↔ (Has self.old c ⊎ (c ≡ clause)) }
    {
        self.has[clause.index()] = true;
    }

    pub(crate) fn contains(&self, clause: Clause) -> bool
        ensures { IsTrue result ↔ Has self.now clause }
    {
        self.has[clause.index()]
    }
}
