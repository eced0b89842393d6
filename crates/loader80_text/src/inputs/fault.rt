//! Why words give no text of inputs.

use std::alloc::AllocError;
use thiserror::Error;

/// Why a word names no inputs.
#[derive(Clone, Copy, Debug, PartialEq, Eq, Error)]
pub enum WordFault {
    /// A word isn't `pp=item,item..`, or an item isn't `hh` or `n*hh`.
    #[error("BadInput")]
    BadInput,
    /// Out of memory for the inputs.
    #[error("Memory")]
    Memory,
}

impl From<AllocError> for WordFault {
    ghost use Rattle.std.specs.Prelude.{◌≡◌};
    ghost use Rattle.loader80_text.specs.declared.inputs.fault.WordFault.TheVariants.{Memory};

    ghost from_gives = { λ _ fault. fault ≡ Memory };

    /// The fault `Memory`.
    fn from(_: AllocError) -> WordFault {
        WordFault::Memory
    }
}

/// Why inputs have no text.
#[derive(Clone, Copy, Debug, PartialEq, Eq, Error)]
pub enum LengthFault {
    /// The text would have more bytes than `loader80::TEXT_LIMIT`.
    #[error("TooLong")]
    TooLong,
    /// Out of memory for the text.
    #[error("Memory")]
    Memory,
}

impl From<AllocError> for LengthFault {
    ghost use Rattle.std.specs.Prelude.{◌≡◌};
    ghost use Rattle.loader80_text.specs.declared.inputs.fault.LengthFault.TheVariants.{Memory};

    ghost from_gives = { λ _ fault. fault ≡ Memory };

    /// The fault `Memory`.
    fn from(_: AllocError) -> LengthFault {
        LengthFault::Memory
    }
}
