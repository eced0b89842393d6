//! Why raw bytes or dumps are refused.

use std::alloc::{AllocError, AllocFailed};
use thiserror::Error;

/// Why bytes can't be taken out of an image, put into one or compared with it.
#[derive(Clone, Copy, Debug, PartialEq, Eq, Error)]
pub enum RomFault {
    /// The bytes go past FFFF, the last address.
    #[error("PastMemory")]
    PastMemory,
    /// Out of memory.
    #[error("Memory")]
    Memory,
    /// A dump has no bytes.
    #[error("EmptyFile")]
    EmptyFile,
    /// An address belongs to two dumps.
    #[error("DumpsOverlap")]
    DumpsOverlap,
}

impl From<AllocError> for RomFault {
    ghost use Rattle.std.specs.Prelude.{◌≡◌};
    ghost use Rattle.rom80.specs.declared.fault.RomFault.TheVariants.{Memory};

    ghost from_gives = { λ _ fault. fault ≡ Memory };

    /// The fault `Memory`.
    fn from(_error: AllocError) -> RomFault {
        RomFault::Memory
    }
}

impl<T: Drop> From<AllocFailed<T>> for RomFault {
    ghost use Rattle.std.specs.Prelude.{◌≡◌};
    ghost use Rattle.rom80.specs.declared.fault.RomFault.TheVariants.{Memory};

    ghost from_gives = { λ _ fault. fault ≡ Memory };

    /// The fault `Memory`.
    fn from(_error: AllocFailed<T>) -> RomFault {
        RomFault::Memory
    }
}
