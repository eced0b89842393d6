//! The refusal of this crate. It prints as its name.

ghost use Rattle.std.specs.Prelude.{◌≡◌};
ghost use Rattle.omf_model.specs.Fault.{parts_fault_code};

use thiserror::Error;

/// Why no module can be made of some [`Parts`](crate::Parts).
#[derive(Clone, Copy, PartialEq, Eq, Debug, Error)]
pub enum PartsFault {
    /// The parts break a rule that modules keep.
    #[error("Rule")]
    Rule,
    /// Out of memory for the module.
    #[error("Memory")]
    Memory,
}

impl PartsFault {
    /// The fault's number: 1 `Rule`, 2 `Memory`.
    pub fn code(&self) -> u8
        ensures { result ≡ parts_fault_code self.now }
    {
        match self {
            PartsFault::Rule => 1,
            PartsFault::Memory => 2,
        }
    }
}
