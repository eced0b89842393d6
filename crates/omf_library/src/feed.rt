//! Libraries that come in pieces.

ghost use Rattle.std.specs.Prelude.{◌≡◌, ◌≢◌, ◌++◌, List, [], None, Some, Ok, Err, IfOk, IfErr, OnOk};
ghost use Rattle.omf_model.specs.Modules.{ModuleValue};
ghost use Rattle.omf_library.specs.declared.fault.LibraryFault.{LibraryFault as LibraryFaultValue};
ghost use Rattle.omf_library.specs.Fault.{OrNoMemory, Answers};
ghost use Rattle.omf_library.specs.Spelled.{SpellsLibrary, FaultsLibrary};
ghost use Rattle.omf_library.specs.LibraryFeed.{CountsModules, LastingLibraryFault};
ghost use Rattle.omf_library.specs.Unfinished.{ReadsLibrary};

use crate::fault::LibraryFault;
use crate::laws::{counted_have_none, one_library};
use crate::library::Library;
use crate::unfinished::UnfinishedLibrary;
use omf_core::laws::{lists_stay, records_stay};
use omf_module::laws::modules_stay;
use std::alloc::Global;
use std::marker::Model;

/// Takes a library in pieces and reads its modules as they become whole. A contract sees the bytes
/// of the pieces that were taken and the fault that was found. (8080 Object Module Formats, library
/// file.)
#[derive(Debug, Drop)]
pub struct LibraryFeed {
    /// The allocator of the bytes and the modules.
    alloc: Global,
    /// The bytes of the pieces that were taken.
    bytes: Vec<u8>,
    /// How far `bytes` are read.
    library: UnfinishedLibrary,
    /// The fault that was found; every later piece, and `finish`, is answered with it.
    kept: Option<LibraryFault>,
}

impl Model for LibraryFeed {
    ghost use Rattle.omf_library.specs.LibraryFeed.{LibraryFeedValue};
    ghost use Rattle.omf_library.specs.Unfinished.{ReadsLibrary};

    ghost Value = { LibraryFeedValue };

    ghost view = { λ feed. record { bytes = feed.bytes.items; kept = feed.kept } };

    ghost invariant = { λ feed. ReadsLibrary feed.bytes.items feed.library };
}

impl LibraryFeed {
    /// A feed that has taken no bytes. It takes no memory yet; all will be allocated from `alloc`.
    pub fn new(alloc: Global) -> LibraryFeed
        ensures { result ≡ record { bytes = []; kept = None } }
    {
        LibraryFeed {
            alloc,
            bytes: Vec::new(alloc),
            library: UnfinishedLibrary::new(alloc),
            kept: None,
        }
    }

    /// Takes a piece of the library, and returns the number of whole modules so far. Later pieces
    /// complete a record or a module that is cut off by the end of this one; bytes after the
    /// end-of-file record aren't read.
    ///
    /// # Errors
    /// A fault other than `Memory` exactly if an earlier piece was answered with it, or
    /// [`read_library`](crate::read_library) gives it for all bytes so far, with this piece, and
    /// for those followed by any others. The fault is kept for all later calls, and the bytes of
    /// this piece aren't taken. `Memory` only if memory runs out; the feed is unchanged.
    pub fn piece(&mut self, piece: &[u8]) -> Result<usize, LibraryFault>
        ensures kept { (fault : LibraryFaultValue) → self.old.kept ≡ Some fault
            → (result ≡ Err fault) × (self.new ≡ self.old) }
        ensures taken { OnOk result (self.new ≡ record { bytes = self.old.bytes ++ piece.now; kept = None }) }

        // The count is that of all bytes so far, of which no fault lasts.
        ensures counted { IfOk result (λ count. CountsModules (self.old.bytes ++ piece.now) count) }
        ensures none_lasts { OnOk result ((fault : LibraryFaultValue) → LastingLibraryFault (self.old.bytes ++ piece.now) fault
            → ⊥) }

        // A fault lasts of all bytes so far, and is kept; out of memory is never kept.
        ensures fault { (fault : LibraryFaultValue) → self.old.kept ≡ None → fault ≢ LibraryFault.Memory → result ≡ Err fault
            → LastingLibraryFault (self.old.bytes ++ piece.now) fault
            × (self.new ≡ record { bytes = self.old.bytes; kept = Some fault }) }
        ensures memory { result ≡ Err LibraryFault.Memory → self.new ≡ self.old }
    {
        counted_have_none();
        records_stay();
        lists_stay();
        modules_stay();
        if let Some(fault) = self.kept {
            return Err(fault);
        }
        let taken = self.bytes.len();
        if self.bytes.extend_from_slice(piece).is_err() {
            return Err(LibraryFault::Memory);
        }
        match self.library.read_on(self.alloc, &self.bytes) {
            Ok(()) => Ok(self.library.modules.len()),
            Err(fault) => {
                self.bytes.truncate(taken);
                self.kept = fault.unless_memory();
                Err(fault)
            }
        }
    }

    /// The library whose pieces were taken: what [`read_library`](crate::read_library) gives for
    /// all bytes.
    ///
    /// # Errors
    /// The fault that was kept; else that of the bytes, as [`read_library`](crate::read_library)
    /// gives it. `Memory` only if memory runs out.
    pub fn finish(self) -> Result<Library, LibraryFault>
        ensures kept { (fault : LibraryFaultValue) → self.kept ≡ Some fault → result ≡ Err fault }

        // What is read is what the bytes spell, and nothing that they spell is refused or read as another.
        ensures read { IfOk result (SpellsLibrary self.bytes) }
        ensures every_library { self.kept ≡ None → (ms : List ModuleValue) → SpellsLibrary self.bytes ms
            → Answers result (Ok ms) }

        // Each refusal but out of memory has its cause, and it is the first.
        ensures fault { self.kept ≡ None → IfErr result (OrNoMemory (FaultsLibrary self.bytes)) }
        ensures every_fault { self.kept ≡ None → (fault : LibraryFaultValue) → FaultsLibrary self.bytes fault
            → Answers result (Err fault) }
    {
        one_library();
        if let Some(fault) = self.kept {
            return Err(fault);
        }
        let library = self.library;
        finish(self.alloc, &self.bytes, library)
    }
}

/// The library of a file that has these bytes and no more, read on from `unfinished`, whose bytes
/// they must begin with; or the file's first fault, or `Memory`.
fn finish(
    alloc: Global,
    bytes: &[u8],
    unfinished: UnfinishedLibrary,
) -> Result<Library, LibraryFault>
    requires { ReadsLibrary bytes.now unfinished }
    ensures read { IfOk result (SpellsLibrary bytes.now) }
    ensures fault { IfErr result (OrNoMemory (FaultsLibrary bytes.now)) }
{
    let mut library = unfinished;
    library.read_on(alloc, bytes)?;
    match library.fault_at_end(bytes) {
        Some(fault) => Err(fault),
        None => Ok(Library {
            modules: library.modules,
        }),
    }
}
