//! Directories of which one call fails.
ghost use Rattle.std.specs.Prelude.{◌≡◌, ◌-◌, ◌==◌, not};

use crate::calls::Dirs;
use crate::count::Count;
use crate::hooked::{Called, Hook, Hooked};

/// Other directories, of which one call fails.
///
/// Each call counts, whatever it answers, `list`, `find` and `list_old` alike. The call at the count answers `Fault` and doesn't reach
/// the other directories; every other call is passed on, and so is every look.
pub type FailAt<D> = Hooked<D, FailOnce>;

/// A hook that stops one call, that at a count.
#[derive(Drop)]
pub struct FailOnce {
    // The number of calls up to and with that one, where it is still to come, and else 0.
    at: u64,
    failed: Count,
}

impl Hook for FailOnce {
    ghost stopped = { λ f. f.failed.value };

    ghost admits = { λ f _. not (f.at == 1) };

    // Each call counts.
    ghost leaves = { λ old _ new. new.at ≡ old.at - 1 };

    fn is_let_through(&mut self, _called: Called<'_>) -> bool {
        let due = self.at == 1;
        self.at = self.at.saturating_sub(1);
        if due {
            self.failed.raise();
        }
        !due
    }
}

impl<D: Dirs> Hooked<D, FailOnce> {
    /// Directories whose call number `at`, counted from 1, fails. With 0 none does. It takes no memory.
    pub fn new(dirs: D, at: u64) -> Self
        ensures dirs { result.dirs ≡ dirs }
        ensures at { result.hook.at ≡ at }
        ensures failed { result.hook.failed.value ≡ 0 }
    {
        Hooked::over(
            dirs,
            FailOnce {
                at,
                failed: Count::zero(),
            },
        )
    }
}
