//! Why lines that come one by one weren't all printed.

ghost use Rattle.std.specs.Prelude.{◌≡◌};
ghost use Rattle.plm80_console.specs.Journal.{and_reported};

use loader80_trace::TraceFault;
use plm80_console::{Console, Reported};
use std::io::ErrorKind;

/// Reports why lines that come one by one weren't all printed: standard output took no more, or memory ran out.
pub fn report_lines<C: Console>(
    console: &mut C,
    fault: TraceFault,
    failure: Option<ErrorKind>,
) -> Reported
    ensures { C.journal console.new ≡ and_reported (C.journal console.old) }
{
    match fault {
        TraceFault::Write => console.report_output(failure),
        TraceFault::Memory => console.report_memory(),
    }
}
