//! The table by which a PCHL goes, as the instructions before it show.

ghost use Rattle.std.specs.Prelude.{◌≤◌, IfSome};
ghost use Rattle.verify80_cases.specs.Suggested.{IsBegun};
ghost use Rattle.verify80_cases.specs.Trails.{AreBefore};

use crate::chain::{first_before, passed_at};
use crate::keys::run_of_keys;
use crate::table::{EntryRun, run_of};
use crate::trail::Trail;
use verify80::ImageCode;

/// The entries of the table by which the PCHL at an address goes, if the instructions that lead to
/// it one after another show one; else `None`. `reached` has a mark for each address that is
/// reached.
pub(crate) fn run_before(code: &ImageCode<'_>, reached: &[bool], at: u16) -> Option<EntryRun>
    ensures begun { IfSome result (λ run. IsBegun code.now reached.now at run.kind run.first run.limit) }
    ensures small { IfSome result (λ run. run.limit ≤ 65536) }
{
    let trail = trail_to(code, reached, at);
    match trail.table() {
        Some(table) => run_of(code, table),
        None => run_of_keys(code, reached, at),
    }
}

/// What the instructions that lead to an address one after another show of a table.
fn trail_to(code: &ImageCode<'_>, reached: &[bool], at: u16) -> Trail
    ensures { AreBefore code.now reached.now at result }
{
    let mut trail = Trail::unknown();
    let mut place = first_before(code, reached, at);
    for _ in 0..65_536_u32 {
        if place == at {
            return trail;
        }
        let Some(passed) = passed_at(code, reached, place) else {
            break;
        };
        trail = trail.after(place, passed.instr);
        place = passed.next;
    }
    Trail::unknown()
}
