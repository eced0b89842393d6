//! What a fitting table of frames says of all walks.

ghost use Rattle.verify80_flow.specs.FittingLaws.{CoversWalks, KeepsFromFaults, WantsEnough};

use crate::laws::frame_laws;

/// A law of programs: if a table of frames fits one, the table covers each of its walks, and no
/// walk is at a fault.
pub fn fitting_tables_cover_walks()
    ensures covers { CoversWalks }
    ensures wants { WantsEnough }
    ensures no_fault { KeepsFromFaults }
{
    frame_laws();
}
