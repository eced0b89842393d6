//! The table is filled.

ghost use Rattle.std.specs.Prelude.{◌≡◌, true, false, OnOk, IfOk, IfErr};
ghost use Rattle.verify80_flow.specs.Known.{IsFilled, Refused, is_exact, nothing_known};

use crate::refusal::Refusal;
use crate::table::Table;
use frames80::Code;

/// Fills an empty table for a program: one frame for each point that a walk reaches, such that each
/// instruction leads from its frame to frames that the table covers. Answers whether it is filled:
/// false only if `gives_up` is set and the table's visits are spent before. `table` must have no
/// points and no returns before.
///
/// # Errors
/// A refusal that holds, or out of memory.
pub(crate) fn fill<C: Code>(program: &C, table: &mut Table, gives_up: bool) -> Result<bool, Refusal>
    requires { table.old.known ≡ nothing_known table.old.known.forgets }
    ensures filled { IfOk result (λ done. done ≡ true → IsFilled (C.code program.now) table.new.known) }
    ensures whole { gives_up ≡ false → IfOk result (λ done. done ≡ true) }
    ensures same { OnOk result (table.new.known.forgets ≡ table.old.known.forgets) }
    ensures refused { IfErr result (Refused (is_exact table.old.known.forgets) (C.code program.now)) }
{
    let mut changes = true;
    while changes {
        if gives_up && table.is_spent() {
            return Ok(false);
        }
        changes = table.sweep(program)?;
    }
    Ok(true)
}
