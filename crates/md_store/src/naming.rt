// Which store it is.
use std::marker::Brand;

/// Names a store: the run that it was opened with, its opening names, and the book of its run. Each call of a program picks them.
pub trait Naming {
    ghost use Rattle.logbook.specs.Pages.{Book};
    ghost use Rattle.md_core.specs.Runs.{Run};
    ghost use Rattle.md_view.specs.Named.{Named};

    ghost begun: { Run };

    ghost opening: { Named };

    ghost book: { Book };
}

impl Naming for Brand {
    ghost use Rattle.md_store.specs.Ongoing.{no_run};
    ghost use Rattle.md_store.specs.Publishing.{no_names, no_book};

    ghost begun = { no_run };

    ghost opening = { no_names };

    ghost book = { no_book };
}
