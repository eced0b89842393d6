//! Addresses in ascending order, of which the first are kept and the others are counted.

ghost use Rattle.std.specs.Prelude.{◌≡◌, ℕ, ◌+◌, ◌<◌, ◌≤◌, ◌++◌, List, [], OnOk};
ghost use Rattle.rom80_find.specs.Listed.{Shows};
ghost use Rattle.rom80_find.specs.Places.{place_if};

use std::alloc::{AllocError, Global};

/// The number of a module's places that are printed; the others are counted.
pub(crate) const SHOWN: usize = 16;

/// The addresses at which a module's code lies: the first sixteen, and how many there are.
#[derive(Drop)]
pub(crate) struct Places {
    /// The first sixteen, or all if there are fewer.
    pub first: Vec<u16>,
    /// How many there are.
    pub count: usize,
}

impl Places {
    /// Returns no places.
    pub(crate) fn new(alloc: Global) -> Places
        ensures { Shows result [] }
    {
        Places {
            first: Vec::new(alloc),
            count: 0,
        }
    }

    /// Adds an address behind all others, if `lies` is true.
    pub(crate) fn push_if(&mut self, lies: bool, address: u16) -> Result<(), AllocError>
        requires { self.old.count < 65536 }
        ensures count { OnOk result (self.new.count ≤ self.old.count + 1) }
        ensures places { OnOk result ((all : List ℕ) → Shows self.old all → Shows self.new (all ++ place_if lies address)) }
    {
        if !lies {
            return Ok(());
        }
        if self.count < SHOWN {
            self.first.push(address)?;
        }
        self.count += 1;
        Ok(())
    }
}
