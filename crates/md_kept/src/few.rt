//! Values by numbers, where there is mostly one number.
ghost use Rattle.std.specs.Prelude.{◌≡◌, ◌+◌, ◌-◌, None as Nothing, Some, is_some, OnOk};
ghost use Rattle.std.specs.Option.{option_map, option_copied};
ghost use Rattle.md_kept.specs.Few.{few_at, times_at, IsLeast, Puts};

use std::alloc::{AllocError, Global};
use std::collections::BTreeMap;
use std::mem::replace;

/// Values by numbers. A number that is alone has its value here, and takes no memory of its own.
#[derive(Drop)]
pub(crate) enum Few<V> {
    None,
    One(usize, V),
    Many(BTreeMap<usize, V>),
}

impl<V: Drop> Few<V> {
    pub(crate) fn get(&self, number: usize) -> Option<&V>
        ensures { option_copied result ≡ few_at self.now number }
    {
        match self {
            Few::None => None,
            Few::One(only, value) => (*only == number).then_some(value),
            Few::Many(all) => all.get(&number),
        }
    }

    /// The least number.
    pub(crate) fn first(&self) -> Option<usize>
        ensures { IsLeast (λ n. is_some (few_at self.now n)) result }
    {
        match self {
            Few::None => None,
            Few::One(only, _) => Some(*only),
            Few::Many(all) => {
                let (first, _) = all.first_key_value()?;
                Some(*first)
            }
        }
    }

    pub(crate) fn put(&mut self, alloc: Global, number: usize, value: V) -> Result<(), AllocError>
        ensures { OnOk result (Puts number (Some value) self.old self.new) }
    {
        *self = match replace(self, Few::None) {
            Few::None => Few::One(number, value),
            Few::One(only, _old) if only == number => Few::One(number, value),
            Few::One(only, old) => {
                let mut all = BTreeMap::new(alloc);
                all.insert(only, old)?;
                all.insert(number, value)?;
                Few::Many(all)
            }
            Few::Many(mut all) => {
                all.insert(number, value)?;
                Few::Many(all)
            }
        };
        Ok(())
    }

    /// Takes a value out.
    pub(crate) fn take(&mut self, number: usize) -> Option<V>
        ensures taken { result ≡ few_at self.old number }
        ensures puts { Puts number Nothing self.old self.new }
    {
        match replace(self, Few::None) {
            Few::None => None,
            Few::One(only, value) if only == number => Some(value),
            Few::One(only, value) => {
                *self = Few::One(only, value);
                None
            }
            Few::Many(mut all) => {
                let value = all.remove(&number);
                *self = Few::Many(all);
                value
            }
        }
    }
}

impl Few<usize> {
    /// One more.
    pub(crate) fn raise(&mut self, alloc: Global, number: usize) -> Result<(), AllocError>
        ensures { OnOk result (Puts number (Some (times_at self.old number + 1)) self.old self.new) }
    {
        let times = self.get(number).copied().unwrap_or(0);
        let more = times.checked_add(1).ok_or(AllocError)?;
        self.put(alloc, number, more)
    }

    /// One less, where there is any.
    pub(crate) fn lower(&mut self, alloc: Global, number: usize) -> Result<(), AllocError>
        ensures { OnOk result (Puts number (option_map (λ n. n - 1) (few_at self.old number)) self.old self.new) }
    {
        match self.take(number) {
            None => Ok(()),
            Some(times) => self.put(alloc, number, times.saturating_sub(1)),
        }
    }
}
