//! Why a bundle has no outcome.

ghost use Rattle.std.specs.Prelude.{◌≡◌};
ghost use Rattle.loader80_text.specs.Fault.{bundle_code};

use loader80::SessionFault;
use thiserror::Error;

/// Why a bundle has no outcome.
#[derive(Clone, Copy, Debug, PartialEq, Eq, Error)]
pub enum BundleFault {
    /// A fault of the session on the bundle's three texts.
    #[error("{0}")]
    Session(SessionFault),
    /// The bytes can't be split into an image, regions and inputs.
    #[error("BadBundle")]
    BadBundle,
}

impl BundleFault {
    /// The fault's number: 1 to 8 as that of a session, 9 `BadBundle`.
    pub fn code(&self) -> u8
        ensures { result ≡ bundle_code self.now }
    {
        match self {
            BundleFault::Session(fault) => fault.code(),
            BundleFault::BadBundle => 9,
        }
    }
}
