//! Files read in pieces, each handed on before the next one is read.

ghost use Rattle.std.specs.Prelude.{◌≡◌, ◌≢◌, ℕ, ◌++◌, List, IsErrAnd, OnErr, OnOk, Err};
ghost use Rattle.omf_module.specs.Fault.{no_memory};

use omf_library::{LibraryFault, LibraryFeed};
use omf_module::{Cause, FileFeed, ModuleFault};
use std::alloc::AllocError;

/// A reader of files that takes their bytes in pieces.
pub trait TakePieces {
    // What holds of the reader when it has taken these bytes.
    ghost has_taken: { Self → List ℕ → Type 0 };

    /// Takes the next piece of the file. `AllocError` only if memory runs out; a fault of the bytes is no error here: the pieces after it
    /// are taken too.
    fn take(&mut self, piece: &[u8]) -> Result<(), AllocError>
        ensures { OnOk result ((bytes : List ℕ) → has_taken self.old bytes → has_taken self.new (bytes ++ piece.now)) };
}

impl TakePieces for FileFeed {
    ghost use Rattle.plm80_console.specs.Pieces.{HasTakenFile};

    ghost has_taken = { HasTakenFile };

    fn take(&mut self, piece: &[u8]) -> Result<(), AllocError> {
        check_module_memory(self.piece(piece))
    }
}

/// `AllocError` if memory ran out at a piece of an object file; `Ok` for every other fault, which the feed keeps.
fn check_module_memory(answer: Result<usize, ModuleFault>) -> Result<(), AllocError>
    ensures taken { OnOk result (answer ≢ Err no_memory) }
    ensures memory { OnErr result (IsErrAnd answer (λ fault. fault.cause ≡ Cause.Memory)) }
{
    match answer {
        Err(
            ModuleFault {
                cause: Cause::Memory,
                ..
            },
        ) => Err(AllocError),
        _ => Ok(()),
    }
}

impl TakePieces for LibraryFeed {
    ghost use Rattle.plm80_console.specs.Pieces.{HasTakenLibrary};

    ghost has_taken = { HasTakenLibrary };

    fn take(&mut self, piece: &[u8]) -> Result<(), AllocError> {
        check_library_memory(self.piece(piece))
    }
}

/// `AllocError` if memory ran out at a piece of a library; `Ok` for every other fault, which the feed keeps.
fn check_library_memory(answer: Result<usize, LibraryFault>) -> Result<(), AllocError>
    ensures taken { OnOk result (answer ≢ Err LibraryFault.Memory) }
    ensures memory { OnErr result (answer ≡ Err LibraryFault.Memory) }
{
    match answer {
        Err(LibraryFault::Memory) => Err(AllocError),
        _ => Ok(()),
    }
}
