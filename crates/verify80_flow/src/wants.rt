//! How many words each procedure takes at most.

ghost use Rattle.std.specs.Prelude.{◌≡◌, IfOk, length};
ghost use Rattle.verify80_flow.specs.Survey.{AreWants};

use crate::table::Table;
use frames80::{SLOTS, slot, table as slots};
use std::alloc::{AllocError, Global};

/// The most words that each procedure has taken at any of its points, by slot; 0 if it has no
/// points.
///
/// # Errors
/// `AllocError` if memory runs out.
pub(crate) fn find_wants(alloc: Global, table: &Table) -> Result<Vec<u32>, AllocError>
    ensures slots { IfOk result (λ wants. length wants.items ≡ 65537) }
    ensures wants { IfOk result (λ wants. AreWants table.now.known.points wants.items (length table.now.known.points)) }
{
    let mut wants = slots(alloc, 0, SLOTS)?;
    for point in 0..table.len() {
        let place = slot(table.procedure(point));
        let taken = table.taken(point);
        if taken > wants[place] {
            wants[place] = taken;
        }
    }
    Ok(wants)
}
