//! The rows of a report.

ghost use Rattle.std.specs.Prelude.{◌≡◌, IfOk, length, true, false};
ghost use Rattle.frames80.specs.declared.procedure.Procedure.TheVariants.{Entry};
ghost use Rattle.verify80_flow.specs.Points.{IsNoPoint};
ghost use Rattle.verify80_flow.specs.Survey.{AreListed, AreMarked, IsEntered, row_of};

use crate::report::ProcRow;
use crate::table::Table;
use frames80::{Procedure, SLOTS, slot};
use std::alloc::{AllocError, Global};
use verify80_bounds::Bounds;

/// The rows of the procedures that calls reach, sorted by entry. `wants` must have an entry for
/// each slot.
///
/// # Errors
/// `AllocError` if memory runs out.
pub(crate) fn list_rows(
    alloc: Global,
    table: &Table,
    wants: &[u32],
    bounds: &Bounds,
) -> Result<Vec<ProcRow>, AllocError>
    requires slots { length wants.now ≡ 65537 }
    ensures { IfOk result (λ rows. AreListed table.now.known wants.now bounds.now 65536 rows.items) }
{
    let marks = mark_procedures(alloc, table)?;
    let mut rows = Vec::new(alloc);
    for address in 0..65_536_u32 {
        let entry = address as u16;
        if has_row(table, &marks, entry) {
            rows.push(row(table, wants, bounds, entry))?;
        }
    }
    Ok(rows)
}

/// For each procedure, by slot, whether the table has a point of it. So few addresses are looked
/// up.
///
/// # Errors
/// `AllocError` if memory runs out.
fn mark_procedures(alloc: Global, table: &Table) -> Result<Vec<bool>, AllocError>
    ensures slots { IfOk result (λ marks. length marks.items ≡ 65537) }
    ensures marked { IfOk result (λ marks. AreMarked table.now.known.points marks.items (length table.now.known.points)) }
{
    let mut marks = vec![in alloc; false; SLOTS]?;
    for point in 0..table.len() {
        marks[slot(table.procedure(point))] = true;
    }
    Ok(marks)
}

/// Whether a call reaches the procedure at `entry`. `marks` must say for each slot whether its
/// procedure has points.
fn has_row(table: &Table, marks: &[bool], entry: u16) -> bool
    requires slots { length marks.now ≡ 65537 }
    requires marked { AreMarked table.now.known.points marks.now (length table.now.known.points) }
    ensures yes { result ≡ true → IsEntered table.now.known entry }
    ensures no { result ≡ false → IsNoPoint table.now.known.points (Entry entry) entry }
{
    let marked = marks[slot(Procedure::Entry(entry))];
    marked && table.is_entered(entry)
}

/// The row of the procedure that is entered at `entry`. `wants` must have an entry for each slot.
fn row(table: &Table, wants: &[u32], bounds: &Bounds, entry: u16) -> ProcRow
    requires slots { length wants.now ≡ 65537 }
    ensures { result ≡ row_of table.now.known wants.now bounds.now entry }
{
    let procedure = Procedure::Entry(entry);
    let exit = table.exit_of(entry);
    ProcRow {
        entry,
        takes: exit.unwrap_or(0),
        wants: wants[slot(procedure)],
        bound: bounds.get(procedure),
        returns: exit.is_some(),
    }
}
