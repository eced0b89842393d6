//! The refusals of this crate. Each prints as its name, then its values with one space before each; a fault of a module
//! prints alone.

ghost use Rattle.std.specs.Prelude.{◌≡◌, ◌≢◌, None, Some};
ghost use Rattle.omf_library.specs.Fault.{library_fault_code, library_put_fault_code, of_module};
ghost use Rattle.omf_library.specs.declared.fault.LibraryFault.TheVariants.{Memory as OutOfMemory, Module as InModule};
ghost use Rattle.omf_library.specs.declared.fault.LibraryPutFault.TheVariants.{Memory as NoMemory};
ghost use Rattle.omf_module.specs.Uses.{fault_by};

use omf_module::{Cause, ModuleFault};
use std::alloc::{AllocError, AllocFailed};
use thiserror::Error;

/// Why bytes aren't a library. Places are in bytes from the start of the file.
#[derive(Clone, Copy, PartialEq, Eq, Debug, Error)]
pub enum LibraryFault {
    /// A module has this fault; or outside the modules the bytes are no record, or one of a type
    /// that may not stand there.
    #[error("{0}")]
    Module(ModuleFault),
    /// The bytes don't begin with a library header record that has the number of modules.
    #[error("NotLibrary")]
    NotLibrary,
    /// The first number, of the header, isn't the second, that of the modules that were found.
    #[error("CountDiffers {0} {1}")]
    CountDiffers(u16, usize),
    /// The file ends at this place, outside the modules, where the library should go on.
    #[error("NoEnd {0}")]
    NoEnd(usize),
    /// Out of memory for the library.
    #[error("Memory")]
    Memory,
}

impl LibraryFault {
    /// The fault's number: 1 `Module`, 2 `NotLibrary`, 3 `CountDiffers`, 4 `NoEnd`, 5 `Memory`.
    pub fn code(&self) -> u8
        ensures { result ≡ library_fault_code self.now }
    {
        match self {
            LibraryFault::Module(_) => 1,
            LibraryFault::NotLibrary => 2,
            LibraryFault::CountDiffers(_, _) => 3,
            LibraryFault::NoEnd(_) => 4,
            LibraryFault::Memory => 5,
        }
    }

    /// The fault itself, or `None` if it is `Memory`.
    pub(crate) fn unless_memory(self) -> Option<LibraryFault>
        ensures memory { self ≡ LibraryFault.Memory → result ≡ None }
        ensures other { self ≢ LibraryFault.Memory → result ≡ Some self }
    {
        match self {
            LibraryFault::Memory => None,
            fault => Some(fault),
        }
    }

    /// The fault of a record outside the modules: its place and what is wrong with it.
    pub(crate) fn of_record(at: usize, cause: Cause) -> LibraryFault
        ensures { result ≡ InModule (fault_by at cause) }
    {
        LibraryFault::Module(ModuleFault { at, cause })
    }
}

impl From<ModuleFault> for LibraryFault {
    ghost from_gives = { λ fault given. given ≡ of_module fault };

    /// Converts a module's fault to `Module`; running out of memory is the library's own `Memory`.
    fn from(fault: ModuleFault) -> LibraryFault {
        match fault.cause {
            Cause::Memory => LibraryFault::Memory,
            _ => LibraryFault::Module(fault),
        }
    }
}

impl From<AllocError> for LibraryFault {
    ghost from_gives = { λ _ fault. fault ≡ OutOfMemory };

    fn from(_e: AllocError) -> LibraryFault {
        LibraryFault::Memory
    }
}

impl<T: Drop> From<AllocFailed<T>> for LibraryFault {
    ghost from_gives = { λ _ fault. fault ≡ OutOfMemory };

    fn from(_e: AllocFailed<T>) -> LibraryFault {
        LibraryFault::Memory
    }
}

/// Why no library can be written of some modules.
#[derive(Clone, Copy, PartialEq, Eq, Debug, Error)]
pub enum LibraryPutFault {
    /// The library has more modules, names or bytes than its header and its index can count.
    #[error("TooLarge")]
    TooLarge,
    /// Out of memory for the library.
    #[error("Memory")]
    Memory,
}

impl LibraryPutFault {
    /// The fault's number: 1 `TooLarge`, 2 `Memory`.
    pub fn code(&self) -> u8
        ensures { result ≡ library_put_fault_code self.now }
    {
        match self {
            LibraryPutFault::TooLarge => 1,
            LibraryPutFault::Memory => 2,
        }
    }
}

impl From<AllocError> for LibraryPutFault {
    ghost from_gives = { λ _ fault. fault ≡ NoMemory };

    fn from(_e: AllocError) -> LibraryPutFault {
        LibraryPutFault::Memory
    }
}
