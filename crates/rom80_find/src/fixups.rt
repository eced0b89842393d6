//! The bytes of a module's code in fixups.

ghost use Rattle.std.specs.Prelude.{IfOk};
ghost use Rattle.rom80_find.specs.Fixups.{AreFixupsOf};

use rom80_pattern::{CodeByte, number_of};
use std::alloc::{AllocError, Global};

/// Returns the bytes of a module's code in fixups, sorted by the numbers of their targets.
pub(crate) fn fixups_of(alloc: Global, code: &[CodeByte]) -> Result<Vec<CodeByte>, AllocError>
    ensures { IfOk result (λ fixups. AreFixupsOf code.now fixups.items) }
{
    let mut fixups: Vec<CodeByte> = code
        .iter()
        .copied()
        .filter(|byte| !byte.is_plain())
        .collect(alloc)?;
    fixups.sort_by_key(|byte| number_of(byte.target))?;
    Ok(fixups)
}
