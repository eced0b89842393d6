//! Whether interrupts may come.

ghost use Rattle.std.specs.Prelude.{◌≡◌};
ghost use Rattle.verify80_follow.specs.InterruptedBoards.{enabled_after};

use decode80::Instr;

/// Whether interrupts may come after an instruction, if that is known before it.
pub fn enabled_after(instr: Instr, before: bool) -> bool
    ensures { result ≡ enabled_after instr before }
{
    match instr {
        Instr::Ei => true,
        Instr::Di => false,
        _ => before,
    }
}
