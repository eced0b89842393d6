//! Why the lines of a run weren't written.

ghost use Rattle.std.specs.Prelude.{◌≡◌};

use std::alloc::AllocError;
use stream80::Failed;
use thiserror::Error;

/// Why the lines of a run weren't written.
#[derive(Clone, Copy, Debug, PartialEq, Eq, Error)]
pub enum TraceFault {
    /// A write failed, or took no byte.
    #[error("Write")]
    Write,
    /// Out of memory.
    #[error("Memory")]
    Memory,
}

impl From<AllocError> for TraceFault {
    ghost use Rattle.loader80_trace.specs.declared.fault.TraceFault.TheVariants.{Memory};

    ghost from_gives = { λ _ fault. fault ≡ Memory };

    /// The fault `Memory`.
    fn from(_: AllocError) -> TraceFault {
        TraceFault::Memory
    }
}

impl From<Failed> for TraceFault {
    ghost use Rattle.loader80_trace.specs.declared.fault.TraceFault.TheVariants.{Write};

    ghost from_gives = { λ _ fault. fault ≡ Write };

    /// The fault `Write`.
    fn from(_: Failed) -> TraceFault {
        TraceFault::Write
    }
}
