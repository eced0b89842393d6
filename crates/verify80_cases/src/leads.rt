//! Where an instruction leads.

ghost use Rattle.std.specs.Prelude.{◌≡◌};
ghost use Rattle.verify80_cases.specs.Changes.{is_call};
ghost use Rattle.verify80_cases.specs.Reach.{falls_to, target_of};

use decode80::{Fetched, Flow, Instr};

/// The address after an instruction; `None` if the instruction never goes on there. A call counts
/// as one that returns.
pub(crate) fn falls_to(found: Fetched) -> Option<u16>
    ensures { result ≡ falls_to found.instr found.next }
{
    match found.instr.flow() {
        Flow::Jumps(_) | Flow::JumpsToHl | Flow::Returns | Flow::Halts => None,
        Flow::Continues | Flow::JumpsIf(_, _) => Some(found.next),
        Flow::Calls(_) | Flow::CallsIf(_, _) | Flow::ReturnsIf(_) => Some(found.next),
        Flow::Pushes | Flow::Pops | Flow::Exchanges => Some(found.next),
    }
}

/// The address that a jump, a call or an RST goes to; `None` for other instructions.
pub(crate) fn target_of(instr: Instr) -> Option<u16>
    ensures { result ≡ target_of instr }
{
    match instr.flow() {
        Flow::Jumps(to) | Flow::JumpsIf(_, to) => Some(to),
        Flow::Calls(to) | Flow::CallsIf(_, to) => Some(to),
        Flow::Continues | Flow::JumpsToHl | Flow::Returns | Flow::ReturnsIf(_) => None,
        Flow::Pushes | Flow::Pops | Flow::Exchanges | Flow::Halts => None,
    }
}

/// Whether an instruction is a call, conditional or not, or an RST.
pub(crate) fn is_call(instr: Instr) -> bool
    ensures { result ≡ is_call instr }
{
    matches!(instr.flow(), Flow::Calls(_) | Flow::CallsIf(_, _))
}
