//! Why bytes are no image.

use omf_module::{Cause, ModuleFault};
use std::alloc::AllocError;
use thiserror::Error;

/// Why bytes are no image: the first of these that holds, in the order of their numbers, or that memory ran out.
#[derive(Clone, Copy, Debug, PartialEq, Eq, Error)]
pub enum ImageFault {
    /// The bytes are no object file.
    #[error("{0}")]
    Module(ModuleFault),
    /// The object file has other than one module.
    #[error("NotOneModule")]
    NotOneModule,
    /// The module has an external name or a fixup, or has content or its start in a segment other than 0.
    #[error("NotAbsolute")]
    NotAbsolute,
    /// The module is no main program.
    #[error("NoStart")]
    NoStart,
    /// Out of memory.
    #[error("Memory")]
    Memory,
}

impl ImageFault {
    ghost use Rattle.std.specs.Prelude.{◌≡◌};
    ghost use Rattle.image80_file.specs.ImageFile.{image_fault_code};

    /// The fault's number, from 1 `Module` to 5 `Memory`.
    pub fn code(&self) -> u8
        ensures { result ≡ image_fault_code self.now }
    {
        match self {
            ImageFault::Module(_) => 1,
            ImageFault::NotOneModule => 2,
            ImageFault::NotAbsolute => 3,
            ImageFault::NoStart => 4,
            ImageFault::Memory => 5,
        }
    }
}

impl From<AllocError> for ImageFault {
    ghost use Rattle.std.specs.Prelude.{◌≡◌};
    ghost use Rattle.image80_file.specs.declared.image_fault.ImageFault.TheVariants.{Memory};

    ghost from_gives = { λ _ fault. fault ≡ Memory };

    /// The fault `Memory`.
    fn from(_error: AllocError) -> ImageFault {
        ImageFault::Memory
    }
}

impl From<ModuleFault> for ImageFault {
    ghost use Rattle.std.specs.Prelude.{◌≡◌};
    ghost use Rattle.image80_file.specs.ImageFile.{of_module_fault};

    ghost from_gives = { λ cause fault. fault ≡ of_module_fault cause };

    /// The fault `Memory` if the module's fault is that memory ran out, and otherwise `Module` with the module's fault.
    fn from(fault: ModuleFault) -> ImageFault {
        match fault.cause {
            Cause::Memory => ImageFault::Memory,
            _ => ImageFault::Module(fault),
        }
    }
}
