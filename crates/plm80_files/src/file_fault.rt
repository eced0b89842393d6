//! Why an object file or a library isn't read.

ghost use Rattle.std.specs.Prelude.{◌≡◌, ◌≢◌};
ghost use Rattle.plm80_console.specs.Journal.{Blames};
ghost use Rattle.plm80_files.specs.Wrong.{IsOfBytes};

use crate::damage_words::damage_words;
use crate::file_kinds::{FileRole, explain_file};
use omf_library::LibraryFault;
use omf_module::{Cause, ModuleFault};
use plm80_console::{Console, Reported};

/// Words that say where faults of libraries are explained.
const LIBRARY_WORDS: &str =
    "docs/FAULTS.md says what to look for there ('Libraries', 'Object files')";

/// Words that say where faults of object files are explained.
pub(crate) const OBJECT_WORDS: &str = "docs/FAULTS.md says what to look for there ('Object files')";

/// Why an object file or a library isn't read.
#[derive(Clone, Copy)]
pub enum FileFault {
    /// A fault of the file's bytes as an object file.
    Module(ModuleFault),
    /// A fault of the file's bytes as a library.
    Library(LibraryFault),
}

impl From<ModuleFault> for FileFault {
    ghost use Rattle.plm80_files.specs.declared.file_fault.FileFault.TheVariants.{Module};

    ghost from_gives = { λ given fault. fault ≡ Module given };

    fn from(fault: ModuleFault) -> FileFault
        ensures { result ≡ Module fault }
    {
        FileFault::Module(fault)
    }
}

impl From<LibraryFault> for FileFault {
    ghost use Rattle.plm80_files.specs.declared.file_fault.FileFault.TheVariants.{Library};

    ghost from_gives = { λ given fault. fault ≡ Library given };

    fn from(fault: LibraryFault) -> FileFault
        ensures { result ≡ Library fault }
    {
        FileFault::Library(fault)
    }
}

impl FileFault {
    /// Reports the fault of the file of this path, which was read, with words below it, or that memory ran out.
    pub fn report<C: Console>(self, console: &mut C, path: &str) -> Reported
        ensures { Blames (IsOfBytes self) (C.journal console.old) (C.journal console.new) }
    {
        match self {
            FileFault::Module(fault) => report_module(console, path, fault),
            FileFault::Library(fault) => report_library(console, path, fault),
        }
    }
}

/// Reports a fault of the file of this path as a library, or that memory ran out.
fn report_library<C: Console>(console: &mut C, path: &str, fault: LibraryFault) -> Reported
    ensures { Blames (fault ≢ LibraryFault.Memory) (C.journal console.old) (C.journal console.new) }
{
    if let LibraryFault::Memory = fault {
        return console.report_memory();
    }
    let reported = console.blame_file(path, fault);
    let words = match (fault, console.text_to_explain(path)) {
        (LibraryFault::Module(fault), Some(bytes)) => damage_words(&bytes, fault.cause),
        _ => None,
    };
    console.explain(words.unwrap_or(LIBRARY_WORDS));
    reported
}

/// Reports a fault of the file of this path as an object file, and says below it what the file seems to be, if it can be read again; or
/// reports that memory ran out.
fn report_module<C: Console>(console: &mut C, path: &str, fault: ModuleFault) -> Reported
    ensures { Blames (fault.cause ≢ Cause.Memory) (C.journal console.old) (C.journal console.new) }
{
    if let Cause::Memory = fault.cause {
        return console.report_memory();
    }
    let reported = console.blame_file(path, fault);
    if let Some(bytes) = console.text_to_explain(path) {
        if !explain_file(console, &bytes, FileRole::ObjectFile) {
            console.explain(damage_words(&bytes, fault.cause).unwrap_or(OBJECT_WORDS));
        }
    }
    reported
}
