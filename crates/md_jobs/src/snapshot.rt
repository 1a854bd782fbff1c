//! A value as it was at one moment, for clauses alone.
ghost use Rattle.std.specs.Prelude.{◌≡◌};
ghost use base.Fml.{ftrue};

use std::marker::{Model, PhantomData};

/// What a value was at one moment. It takes no bytes, and contracts read it as `value`.
#[derive(Drop)]
pub struct Snapshot<D> {
    of: PhantomData<D>,
    pub ghost value: { D },
}

impl<D> Model for Snapshot<D> {
    ghost also_owns = { λ _. ftrue };
}

unsafe impl<D> Send for Snapshot<D> {}

unsafe impl<D> Sync for Snapshot<D> {}

impl<D> Snapshot<D> {
    /// The snapshot of a value as it is.
    pub fn of(dirs: &D) -> Snapshot<D>
        ensures { result.value ≡ dirs.now }
    {
        Snapshot { of: PhantomData }
    }
}
