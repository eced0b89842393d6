//! The modules of object files, for the commands that take them.

ghost use Rattle.std.specs.Prelude.{◌≡◌, ◌∷◌, ◌++◌, [], IfErr, IfOk, OnOk};
ghost use Rattle.plm80_console.specs.Journal.{OnlyBlames, and_reported};
ghost use Rattle.plm80_files.specs.{LinkFiles.AreModulesRead, Wrong.OfFirst, Wrong.SpellsNoModules};

use crate::file_fault::FileFault;
use crate::unread_bytes::UnreadBytes;
use omf_module::laws::one_file_reading;
use omf_module::{FileFeed, Module};
use plm80_console::{Console, Reported};

/// Reads the modules of the object file of this path, in order and in pieces; a file that begins as a library is read as one too, which is
/// a fault. A fault is reported.
pub fn read_modules<C: Console>(console: &mut C, path: &str) -> Result<Vec<Module>, Reported>
    ensures read { IfOk result (λ modules. AreModulesRead path.now (C.journal console.old) (C.journal console.new) modules.items) }
    ensures fault { IfErr result (λ _. OnlyBlames (OfFirst SpellsNoModules) (path.now ∷ []) (C.journal console.old) (C.journal console.new)) }
{
    one_file_reading();
    let mut feed = FileFeed::new(console.alloc());
    console.read_in_pieces(path, &mut feed)?;
    match feed.finish() {
        Ok(modules) => Ok(modules),
        Err(fault) => Err(FileFault::Module(fault).report(console, path)),
    }
}

/// Says that bytes of the object file of this path aren't read, if there are such.
pub fn explain_unread<C: Console>(console: &C, path: &str) {
    console.explain_any(UnreadBytes::of_file(console, path));
}

/// Moves the modules that were `read` behind the others, and leaves none in `read`. `Memory` is reported if memory runs out.
pub fn append_modules<C: Console>(
    console: &mut C,
    modules: &mut Vec<Module>,
    read: &mut Vec<Module>,
) -> Result<(), Reported>
    ensures appended { OnOk result (modules.new.items ≡ modules.old.items ++ read.old.items) }
    ensures taken { OnOk result (read.new.items ≡ []) }
    ensures unchanged { IfOk result (λ _. C.journal console.new ≡ C.journal console.old) }
    ensures fault { IfErr result (λ _. C.journal console.new ≡ and_reported (C.journal console.old)) }
{
    match modules.append(read) {
        Ok(()) => Ok(()),
        Err(_) => Err(console.report_memory()),
    }
}
