//! Why a program can't be located.

use omf_core::Name;
use std::alloc::{AllocError, AllocFailed};
use thiserror::Error;

/// Why a program can't be located: the first of these that holds, in the order of their numbers, or that memory
/// ran out. Segments and pairs of them are checked in the order of their places: CODE, STACK, the named commons by id,
/// the unnamed common, DATA, MEMORY.
#[derive(Debug, PartialEq, Eq, Drop, Error)]
pub enum PlaceFault {
    /// The first external, for which LINK found no public.
    #[error("Unresolved {0}")]
    Unresolved(Name),
    /// The module has no start: it is no main program.
    #[error("NoStart")]
    NoStart,
    /// The first segment, by its id, that passes the end of memory, or MEMORY if its length no longer holds its content.
    #[error("OutsideMemory {0:02X}")]
    OutsideMemory(u8),
    /// The ids of the first two segments that share an address; or else 0 for the first absolute content that shares
    /// one, and the id of the first segment that it meets. `locate_with_restart` counts its jump as absolute content.
    #[error("Overlap {0:02X} {1:02X}")]
    Overlap(u8, u8),
    /// A fixup takes the high byte of an address that isn't a multiple of 256.
    #[error("HighNotPaged")]
    HighNotPaged,
    /// The program's start isn't an address of CODE.
    #[error("StartNotCode")]
    StartNotCode,
    /// Out of memory.
    #[error("Memory")]
    Memory,
}

impl PlaceFault {
    ghost use Rattle.std.specs.Prelude.{◌≡◌};
    ghost use Rattle.place80.specs.PlaceFault.{place_fault_code};

    /// The fault's number, from 1 `Unresolved` to 7 `Memory`.
    pub fn code(&self) -> u8
        ensures { result ≡ place_fault_code self.now }
    {
        match self {
            PlaceFault::Unresolved(_) => 1,
            PlaceFault::NoStart => 2,
            PlaceFault::OutsideMemory(_) => 3,
            PlaceFault::Overlap(_, _) => 4,
            PlaceFault::HighNotPaged => 5,
            PlaceFault::StartNotCode => 6,
            PlaceFault::Memory => 7,
        }
    }
}

impl From<AllocError> for PlaceFault {
    ghost use Rattle.std.specs.Prelude.{◌≡◌};
    ghost use Rattle.place80.specs.declared.place_fault.PlaceFault.TheVariants.{Memory};

    ghost from_gives = { λ _ fault. fault ≡ Memory };

    /// The fault `Memory`.
    fn from(_error: AllocError) -> PlaceFault {
        PlaceFault::Memory
    }
}

impl<T: Drop> From<AllocFailed<T>> for PlaceFault {
    ghost use Rattle.std.specs.Prelude.{◌≡◌};
    ghost use Rattle.place80.specs.declared.place_fault.PlaceFault.TheVariants.{Memory};

    ghost from_gives = { λ _ fault. fault ≡ Memory };

    /// The fault `Memory`.
    fn from(_error: AllocFailed<T>) -> PlaceFault {
        PlaceFault::Memory
    }
}
