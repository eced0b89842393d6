//! Faults of dumps, each with the path of its file.

ghost use Rattle.std.specs.Prelude.{◌≡◌, ◌≢◌, ◌↔◌, None};
ghost use Rattle.plm80_console.specs.Journal.{Blames};

use plm80_console::{Console, FaultOf, Reported};
use rom80::RomFault;

/// Reports the fault of a dump with the path of its file, and what to do, if words are asked for. Out of memory is reported without a path.
/// The caller's contract says that any other fault is there.
pub(crate) fn blame_rom_fault<C: Console>(console: &mut C, fault: FaultOf<'_, RomFault>) -> Reported
    ensures { Blames (fault.entry.fault ≢ RomFault.Memory) (C.journal console.old) (C.journal console.new) }
{
    if let RomFault::Memory = fault.fault {
        return console.report_memory();
    }
    let reported = console.blame_file(fault.path, fault.fault);
    console.explain_any(words_for(fault.fault));
    reported
}

/// What to do about a fault of a dump, in words; `None` exactly if memory ran out.
fn words_for(fault: RomFault) -> Option<&'static str>
    ensures { (result ≡ None) ↔ (fault ≡ RomFault.Memory) }
{
    match fault {
        RomFault::PastMemory => Some(
            "its bytes go past FFFF: give a lower address, or fewer bytes",
        ),
        RomFault::EmptyFile => Some("it has no bytes: read the PROM again"),
        RomFault::DumpsOverlap => Some(
            "an earlier dump has one of its addresses: give another --rom, or cut one, as by head -c 2048",
        ),
        RomFault::Memory => None,
    }
}
