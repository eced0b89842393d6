//! The points of a procedure, among those of a program.

ghost use Rattle.frames80.specs.Code.{Code};
ghost use Rattle.verify80_flow.specs.ProgramPoints.{ArePoints};
ghost use Rattle.verify80_calls.specs.Points.{ArePointsOf};

use frames80::{Procedure, slot};
use verify80::ProgramPoint;

/// The points of one procedure among those of a program, which must be sorted by procedure and
/// address. The time grows with the logarithm of their number.
pub(crate) fn points_of(points: &[ProgramPoint], procedure: Procedure) -> &[ProgramPoint]
    ensures { (code : Code) → ArePoints code points.now → ArePointsOf code procedure result.now }
{
    let first = points.partition_point(|point| slot(point.procedure) < slot(procedure));
    let (_, rest) = points.split_at(first);
    let count = rest.partition_point(|point| slot(point.procedure) <= slot(procedure));
    let (own, _) = rest.split_at(count);
    own
}
