//! Libraries read from a file.

ghost use Rattle.std.specs.Prelude.{Ok, Err, List, IfOk, IfErr};
ghost use Rattle.omf_model.specs.Modules.{ModuleValue};
ghost use Rattle.omf_library.specs.declared.fault.LibraryFault.{LibraryFault as LibraryFaultValue};
ghost use Rattle.omf_library.specs.Fault.{OrNoMemory, Answers};
ghost use Rattle.omf_library.specs.Spelled.{SpellsLibrary, FaultsLibrary};

use crate::fault::LibraryFault;
use crate::feed::LibraryFeed;
use crate::laws::one_library;
use crate::library::Library;
use std::alloc::Global;

/// The library that a file holds: a library header, whose first word is the number of modules, the
/// modules, library module locations (26), library module names (28) and library dictionary records
/// (2A) in any order and number, whose bodies aren't read, and an end-of-file record. Bytes after
/// that aren't read. (8080 Object Module Formats, library file.)
///
/// # Errors
/// The first fault by place: `NotLibrary` if there is no byte, or the first record isn't a library
/// header with a body of at least two bytes; `NoEnd` if the file ends between modules or after
/// them; `Module` if the bytes there are no record (`Record`), if they are a record of another type
/// (`UnknownKind`; also a module header after an index record), and if a module has a fault, as
/// [`read_module`](omf_module::read_module) gives it; `CountDiffers` at the end-of-file record if
/// the header has another number of modules than were found. `Memory` only if memory runs out.
pub fn read_library(alloc: Global, bytes: &[u8]) -> Result<Library, LibraryFault>
    // What is read is what the bytes spell, and nothing that they spell is refused or read as another.
    ensures read { IfOk result (SpellsLibrary bytes.now) }
    ensures every_library { (ms : List ModuleValue) → SpellsLibrary bytes.now ms → Answers result (Ok ms) }

    // Each refusal but out of memory has its cause, and it is the first.
    ensures fault { IfErr result (OrNoMemory (FaultsLibrary bytes.now)) }
    ensures every_fault { (fault : LibraryFaultValue) → FaultsLibrary bytes.now fault → Answers result (Err fault) }
{
    one_library();
    let mut feed = LibraryFeed::new(alloc);
    feed.piece(bytes)?;
    feed.finish()
}
