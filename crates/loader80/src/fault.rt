//! Why a session has no outcome.

ghost use Rattle.std.specs.Prelude.{◌≡◌};
ghost use Rattle.loader80.specs.Fault.{session_code};

use image80::RegionsFault;
use image80_file::ImageFault;
use thiserror::Error;
use verify80::Refusal;

/// Why a session has no outcome.
#[derive(Clone, Copy, Debug, PartialEq, Eq, Error)]
pub enum SessionFault {
    /// A read failed: of the image 1, the regions 2 or the inputs 3.
    #[error("Read {0}")]
    Read(u8),
    /// A write failed, or took no byte.
    #[error("Write")]
    Write,
    /// The bytes of the image are no image.
    #[error("{0}")]
    Image(ImageFault),
    /// The bytes of the regions are no regions text.
    #[error("{0}")]
    Regions(RegionsFault),
    /// The number, counted from 1, of the first line of the inputs that isn't a line of inputs.
    #[error("Inputs {0}")]
    Inputs(usize),
    /// The verifier refuses the image.
    #[error("{0}")]
    Refused(Refusal),
    /// Out of memory.
    #[error("Memory")]
    Memory,
    /// More than 1,048,576 bytes came: of the image 1, the regions 2 or the inputs 3.
    #[error("TooLong {0}")]
    TooLong(u8),
}

impl SessionFault {
    /// The fault's number: 1 `Read`, 2 `Write`, 3 `Image`, 4 `Regions`, 5 `Inputs`, 6 `Refused`, 7 `Memory`, 8 `TooLong`.
    pub fn code(&self) -> u8
        ensures { result ≡ session_code self.now }
    {
        match self {
            SessionFault::Read(_) => 1,
            SessionFault::Write => 2,
            SessionFault::Image(_) => 3,
            SessionFault::Regions(_) => 4,
            SessionFault::Inputs(_) => 5,
            SessionFault::Refused(_) => 6,
            SessionFault::Memory => 7,
            SessionFault::TooLong(_) => 8,
        }
    }
}
