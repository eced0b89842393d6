//! Why modules make no image.

use link80::LinkFault;
use place80::PlaceFault;
use thiserror::Error;

/// Why modules make no image. A fault of `link` or `locate` prints as itself; if they run out of
/// memory, the fault is `Memory` here.
#[derive(Debug, PartialEq, Eq, Drop, Error)]
pub enum BuildFault {
    /// The modules can't be linked, for this reason.
    #[error("{0}")]
    Link(LinkFault),
    /// The linked module can't be located, for this reason.
    #[error("{0}")]
    Place(PlaceFault),
    /// Out of memory.
    #[error("Memory")]
    Memory,
}

impl BuildFault {
    ghost use Rattle.std.specs.Prelude.{◌≡◌};
    ghost use Rattle.laws80.specs.Built.{build_fault_code};

    /// The fault's number: 1 `Link`, 2 `Place`, 3 `Memory`.
    pub fn code(&self) -> u8
        ensures { result ≡ build_fault_code self.now }
    {
        match self {
            BuildFault::Link(_) => 1,
            BuildFault::Place(_) => 2,
            BuildFault::Memory => 3,
        }
    }
}

impl From<LinkFault> for BuildFault {
    ghost use Rattle.std.specs.Prelude.{◌≡◌};
    ghost use Rattle.laws80.specs.Built.{from_link};

    ghost from_gives = { λ cause fault. fault ≡ from_link cause };

    /// Converts a fault of `link` to `Link`; running out of memory is `Memory`.
    fn from(cause: LinkFault) -> BuildFault {
        match cause {
            LinkFault::Memory => BuildFault::Memory,
            fault => BuildFault::Link(fault),
        }
    }
}

impl From<PlaceFault> for BuildFault {
    ghost use Rattle.std.specs.Prelude.{◌≡◌};
    ghost use Rattle.laws80.specs.Built.{from_place};

    ghost from_gives = { λ cause fault. fault ≡ from_place cause };

    /// Converts a fault of `locate` to `Place`; running out of memory is `Memory`.
    fn from(cause: PlaceFault) -> BuildFault {
        match cause {
            PlaceFault::Memory => BuildFault::Memory,
            fault => BuildFault::Place(fault),
        }
    }
}
