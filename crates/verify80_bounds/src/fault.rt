//! Why there are no bounds.

use std::alloc::AllocError;
use thiserror::Error;

/// Why there are no bounds.
#[derive(Clone, Copy, Debug, Error)]
pub enum BoundsFault {
    /// The call at this address leads back to its own procedure.
    #[error("Recursion {0:04X}")]
    Recursion(u16),
    /// Out of memory.
    #[error("Memory")]
    Memory,
}

impl From<AllocError> for BoundsFault {
    ghost use Rattle.std.specs.Prelude.{◌≡◌};
    ghost use Rattle.verify80_bounds.specs.declared.fault.BoundsFault.TheVariants.{Memory};

    ghost from_gives = { λ _ fault. fault ≡ Memory };

    /// Running out of memory is the fault `Memory`.
    fn from(_: AllocError) -> BoundsFault {
        BoundsFault::Memory
    }
}
