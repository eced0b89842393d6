//! Why two frames have none in common.

ghost use Rattle.std.specs.Prelude.{◌≡◌};

use std::alloc::AllocError;
use thiserror::Error;

/// Why two frames of one point can't be merged.
#[derive(Clone, Copy, PartialEq, Eq, Debug, Error)]
pub enum MeetFault {
    /// The frames differ in the words taken or in the number of words.
    #[error("HeightsDiffer")]
    HeightsDiffer,
    /// Out of memory.
    #[error("Memory")]
    Memory,
}

impl From<AllocError> for MeetFault {
    ghost use Rattle.frames80_interned.specs.declared.fault.MeetFault.TheVariants.{Memory};

    ghost from_gives = { λ _ fault. fault ≡ Memory };

    /// Running out of memory is the fault `Memory`.
    fn from(_: AllocError) -> MeetFault {
        MeetFault::Memory
    }
}
