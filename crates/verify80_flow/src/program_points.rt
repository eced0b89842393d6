//! The points of a program, read off its table.

ghost use Rattle.std.specs.Prelude.{◌≡◌, IfOk, IsPermutation, map};
ghost use Rattle.std.specs.List.Sorted.{IsNonDecreasingBy};
ghost use Rattle.verify80_flow.specs.ProgramPoints.{AreOfTable, program_point, rank_of};

use crate::report::ProgramPoint;
use crate::table::Table;
use frames80::slot;
use std::alloc::{AllocError, Global};

/// The points of a table, sorted by procedure and address.
///
/// # Errors
/// `AllocError` if memory runs out.
pub(crate) fn list_points(alloc: Global, table: &Table) -> Result<Vec<ProgramPoint>, AllocError>
    ensures { IfOk result (λ points. AreOfTable table.now.known points.items) }
{
    let mut points = copy_points(alloc, table)?;
    sort_points(&mut points);
    Ok(points)
}

/// The points of a table, in order of first sight.
///
/// # Errors
/// `AllocError` if memory runs out.
fn copy_points(alloc: Global, table: &Table) -> Result<Vec<ProgramPoint>, AllocError>
    ensures { IfOk result (λ points. points.items ≡ map program_point table.now.known.points) }
{
    let mut points = Vec::with_capacity(alloc, table.len())?;
    for i in 0..table.len() {
        points.push(table.program_point(i))?;
    }
    Ok(points)
}

/// Sorts points by procedure and address.
fn sort_points(points: &mut Vec<ProgramPoint>)
    ensures same { IsPermutation points.old.items points.new.items }
    ensures in_order { IsNonDecreasingBy rank_of points.new.items }
{
    points.sort_unstable_by_key(|point| rank(*point));
}

/// The key by which points are sorted: the procedure's slot, then the address.
fn rank(point: ProgramPoint) -> usize
    ensures { result ≡ rank_of point }
{
    slot(point.procedure) * 65_536 + usize::from(point.at)
}
